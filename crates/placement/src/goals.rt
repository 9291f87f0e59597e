ghost use Rattle.std.specs.Prelude.{◌≡◌, Some, IsSome};
ghost use Rattle.std.specs.List.{All};
ghost use Rattle.std.specs.Result.{result_ok};
ghost use Rattle.rg_props.specs.Lookups.{named};
ghost use Rattle.rg_props.specs.declared.group.Group.{Group};
ghost use Rattle.placement.specs.Best.{IsBest, IsPlaced, scores_of};
ghost use Rattle.placement.specs.Eligibility.{eligibility};
ghost use Rattle.placement.specs.Goals.{goal_by_rule, goal_in, placed};
ghost use Rattle.placement.specs.Scores.{score_at};

use crate::eligibility::{eligibility_at, in_common};
use crate::placing::{Scores, placed, staying};
use crate::resources::is_stop_failed;
use cl_base::{Name, NodeSet};
use load_limits::Limits;
use rg_props::{Group, Groups};
use rg_view::GroupView;

#[tactic(auto, unfolding(crate::specs::Goals::goal_by_rule))]
/// The nodes that are the group's goal, where the previous goal was this.
///
/// A group that is not managed or not wanted has none. One that is stop-failed on a member keeps
/// its goal, and a suspended one the members of its Nodelist in it. Any other keeps the eligible
/// nodes, and the best of the others are added up to Desired_primaries.
pub fn goal(
    g: &Groups,
    limits: &Limits,
    view: &GroupView,
    group: &Name,
    previous: NodeSet,
) -> NodeSet
    requires { IsSome (named g.now.groups group.now) }
    ensures value { result ≡ goal_by_rule g.now limits.now view.entry.now group.now previous }
    ensures best { (own : Group) → IsPlaced g.now view.entry.now group.now own → IsBest (scores_of g.now limits.now view.entry.now group.now own) own.nodelist own.desired previous result }
{
    match g.group(group) {
        Some(own) => goal_of(g, limits, view, group, own, previous),
        None => NodeSet::empty(),
    }
}

fn goal_of(
    g: &Groups,
    limits: &Limits,
    view: &GroupView,
    name: &Name,
    own: &Group,
    previous: NodeSet,
) -> NodeSet
    ensures { result ≡ goal_in g.now limits.now view.entry.now name.now previous (Some own.now) }
{
    if !own.managed || !own.wanted {
        NodeSet::empty()
    } else if is_stop_failed(g, view, name) {
        previous
    } else if own.suspended {
        staying(view.members, own.nodelist.items(), previous)
    } else {
        best_goal(g, limits, view, name, own, previous)
    }
}

/// The eligible nodes of the previous goal, and the best of the others.
fn best_goal(
    g: &Groups,
    limits: &Limits,
    view: &GroupView,
    name: &Name,
    own: &Group,
    previous: NodeSet,
) -> NodeSet
    ensures { result ≡ placed (λ n. result_ok (eligibility g.now limits.now view.entry.now name.now own.now n)) own.now.nodelist own.now.desired previous }
{
    let scores = scores(g, limits, view, name, own);
    placed(&scores, own.nodelist.items(), own.desired, previous)
}

/// The scores of the eligible nodes of the Nodelist.
fn scores(g: &Groups, limits: &Limits, view: &GroupView, name: &Name, own: &Group) -> Scores
    ensures { All (λ n. score_at result n ≡ result_ok (eligibility g.now limits.now view.entry.now name.now own.now n)) own.now.nodelist }
{
    let common = in_common(g, view, name, own);
    let mut scores = [None; 32];
    for n in own.nodelist.items() {
        scores[n.number() as usize - 1] = eligibility_at(
            g, limits, view, name, own, &common, *n,
        ).ok();
    }
    scores
}
