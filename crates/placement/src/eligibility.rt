ghost use Rattle.std.specs.Prelude.{◌≡◌, ◌-◌, ◌^◌, ◌≤ℤ◌, pos, IsSome};
ghost use Rattle.rg_props.specs.Lookups.{named};
ghost use Rattle.placement.specs.Eligibility.{counted_to_most, eligibility, eligibility_of, group_reason, node_reason_of, reason_of, score_of, target_reason};
ghost use Rattle.placement.specs.Resources.{is_stop_failed};

use crate::affinities::{forbidding, online_targets};
use crate::dependencies::{lacking, without_goal};
use crate::histories::{failures_at, was_moved};
use crate::loads::{passed_limit, soft_passed};
use crate::resources::{has_enabled, is_stop_failed};
use crate::score::Score;
use cl_base::{Name, NodeId, Reason};
use load_limits::Limits;
use rg_props::{Affinity, Group, Groups};
use rg_view::GroupView;

/// The greatest count that is told of targets: a greater one stays there.
const MOST: u64 = (1 << 63) - 1;

/// What is the same of a group on every node.
#[derive(Drop)]
pub struct Common {
    /// The first reason that holds on all of them.
    reason: Option<Reason>,
    /// Whether a resource of the group could not be stopped on some member.
    stop_failed: bool,
}

#[tactic(auto, unfolding(crate::specs::Eligibility::eligibility_of))]
/// How well the node suits the group, or the first reason why the group may not run there.
///
/// What is known of groups is the view, in which `goals` lists the groups in the order in which they
/// are decided, each earlier one with its new goal.
pub fn eligible(
    g: &Groups,
    limits: &Limits,
    view: &GroupView,
    group: &Name,
    n: NodeId,
) -> Result<Score, Reason>
    requires { IsSome (named g.now.groups group.now) }
    ensures value { result ≡ eligibility_of g.now limits.now view.entry.now group.now n }
{
    match g.group(group) {
        Some(own) => eligibility(g, limits, view, group, own, n),
        None => Err(Reason::Unmanaged),
    }
}

/// The same of a group at hand.
fn eligibility(
    g: &Groups,
    limits: &Limits,
    view: &GroupView,
    name: &Name,
    own: &Group,
    n: NodeId,
) -> Result<Score, Reason>
    ensures { result ≡ eligibility g.now limits.now view.entry.now name.now own.now n }
{
    let common = in_common(g, view, name, own);
    eligibility_at(g, limits, view, name, own, &common, n)
}

/// What the nodes have in common, to be found once for all of them.
pub fn in_common(g: &Groups, view: &GroupView, name: &Name, own: &Group) -> Common
    ensures reason { result.reason ≡ group_reason g.now name.now own.now }
    ensures stop_failed { result.stop_failed ≡ is_stop_failed g.now view.entry.now name.now }
{
    Common {
        reason: group_reason(g, name, own),
        stop_failed: is_stop_failed(g, view, name),
    }
}

/// The same of a group of which that is known.
pub fn eligibility_at(
    g: &Groups,
    limits: &Limits,
    view: &GroupView,
    name: &Name,
    own: &Group,
    common: &Common,
    n: NodeId,
) -> Result<Score, Reason>
    requires reason { common.now.reason ≡ group_reason g.now name.now own.now }
    requires stop_failed { common.now.stop_failed ≡ is_stop_failed g.now view.now name.now }
    ensures { result ≡ eligibility g.now limits.now view.entry.now name.now own.now n }
{
    match reason(g, limits, view, name, own, common, n) {
        Some(reason) => Err(reason),
        None => Ok(score(g, limits, view, name, own, n)),
    }
}

#[tactic(auto, unfolding(crate::specs::Eligibility::reason_of, crate::specs::Eligibility::node_reason))]
/// The first reason against the node.
fn reason(
    g: &Groups,
    limits: &Limits,
    view: &GroupView,
    name: &Name,
    own: &Group,
    common: &Common,
    n: NodeId,
) -> Option<Reason>
    requires reason { common.now.reason ≡ group_reason g.now name.now own.now }
    requires stop_failed { common.now.stop_failed ≡ is_stop_failed g.now view.now name.now }
    ensures { result ≡ reason_of g.now limits.now view.entry.now name.now own.now n }
{
    if let Some(reason) = common.reason {
        return Some(reason);
    }
    if let Some(reason) = node_reason(view, name, own, common.stop_failed, n) {
        return Some(reason);
    }
    if let Some(reason) = target_reason(g, view, name, own, n) {
        return Some(reason);
    }
    let limit = passed_limit(g, limits, view, name, own, n)?;
    Some(Reason::Load(limit))
}

#[tactic(auto, unfolding(crate::specs::Eligibility::group_reason))]
/// What is the same on every node.
fn group_reason(g: &Groups, name: &Name, own: &Group) -> Option<Reason>
    ensures { result ≡ group_reason g.now name.now own.now }
{
    if !own.managed {
        Some(Reason::Unmanaged)
    } else if !own.wanted {
        Some(Reason::Offline)
    } else if own.suspended {
        Some(Reason::Suspended)
    } else if !has_enabled(g, name) {
        Some(Reason::Empty)
    } else {
        None
    }
}

/// What is known of the node, where it is known whether the group is stop-failed.
fn node_reason(
    view: &GroupView,
    name: &Name,
    own: &Group,
    stop_failed: bool,
    n: NodeId,
) -> Option<Reason>
    ensures { result ≡ node_reason_of stop_failed view.entry.now name.now own.now n }
{
    if !view.members.has(n) {
        Some(Reason::NotMember)
    } else if stop_failed {
        Some(Reason::StopFailed)
    } else if view.evacuated.has(name, n) {
        Some(Reason::Evacuated)
    } else if failures_at(view, name, own.pingpong, n) >= 2 {
        Some(Reason::StartFailed)
    } else if was_moved(view, name, own.pingpong, n) {
        Some(Reason::Moved)
    } else if view.leaving.has(name, n) {
        Some(Reason::Leaving)
    } else {
        None
    }
}

#[tactic(auto, unfolding(crate::specs::Eligibility::target_reason))]
/// What other groups and resources have to do with it.
fn target_reason(
    g: &Groups,
    view: &GroupView,
    name: &Name,
    own: &Group,
    n: NodeId,
) -> Option<Reason>
    ensures { result ≡ target_reason g.now view.entry.now name.now own.now n }
{
    if let Some(target) = forbidding(view, own, n) {
        return Some(Reason::Affinity(target));
    }
    if let Some(target) = without_goal(view, own) {
        return Some(Reason::Dependency(target));
    }
    let target = lacking(g, view, name, own, n)?;
    Some(Reason::Dependency(target))
}

#[tactic(auto, unfolding(crate::specs::Eligibility::score_of))]
/// How well the node suits the group.
fn score(
    g: &Groups,
    limits: &Limits,
    view: &GroupView,
    name: &Name,
    own: &Group,
    n: NodeId,
) -> Score
    ensures { result ≡ score_of g.now limits.now view.entry.now name.now own.now n }
{
    let liked = online_targets(g, view, own, Affinity::Plus, n);
    let disliked = online_targets(g, view, own, Affinity::Minus, n);
    Score {
        failures: failures_at(view, name, own.pingpong, n),
        soft: soft_passed(g, limits, view, name, own, n),
        score: counted_to_most(liked) - counted_to_most(disliked),
    }
}

fn counted_to_most(count: u64) -> i64
    ensures value { result ≡ counted_to_most count }
    ensures least { pos 0 ≤ℤ result }
    ensures most { result ≤ℤ pos (2 ^ 63 - 1) }
{
    count.min(MOST) as i64
}
