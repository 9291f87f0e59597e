// What a group's dependencies, and those of its resources, say of a node.
ghost use Rattle.std.specs.Prelude.{◌≡◌, slice_get};
ghost use Rattle.std.specs.List.{find};
ghost use Rattle.std.specs.Option.{option_and_then, option_copied};
ghost use Rattle.rg_props.specs.Affinities.{declares_close};
ghost use Rattle.rg_props.specs.Values.{or_else};
ghost use Rattle.rg_view.specs.Goals.{goal_of};
ghost use Rattle.placement.specs.Targets.{have_common, in_scope, is_lacking, lacked_by, lacking, lacks, without_goal};

use cl_base::{Name, NodeId, NodeSet};
use rg_props::{Group, Groups, Resource};
use rg_view::GroupView;

/// The first group that this one depends on and whose goal is empty.
pub fn without_goal(view: &GroupView, own: &Group) -> Option<Name>
    ensures { result ≡ without_goal view.entry.now own.now }
{
    own.dependencies
        .items()
        .iter()
        .find(|target| view.goals.goal(target).bits() == 0)
        .copied()
}

/// The first strong target that a resource of the group lacks, in the order of their creation.
pub fn lacking(g: &Groups, view: &GroupView, name: &Name, own: &Group, n: NodeId) -> Option<Name>
    ensures { result ≡ lacking g.now view.entry.now name.now own.now n }
{
    for place in 0..g.resource_count() {
        if let Some(target) = lacked_at(g, view, name, own, n, place) {
            return Some(target);
        }
    }
    None
}

fn lacked_at(
    g: &Groups,
    view: &GroupView,
    name: &Name,
    own: &Group,
    n: NodeId,
    place: usize,
) -> Option<Name>
    ensures { result ≡ option_and_then (lacked_by g.now view.entry.now name.now own.now n) (slice_get g.now.resources place) }
{
    let (_, r) = g.resource_at(place)?;
    if r.group.bytes() == name.bytes() {
        lacked_by(g, view, name, own, n, r)
    } else {
        None
    }
}

fn lacked_by(
    g: &Groups,
    view: &GroupView,
    name: &Name,
    own: &Group,
    n: NodeId,
    r: &Resource,
) -> Option<Name>
    ensures { result ≡ or_else (find (lacks g.now view.entry.now name.now own.now n) r.now.strong) (find (lacks g.now view.entry.now name.now own.now n) r.now.offline_restart) }
{
    match first_lacked(g, view, name, own, n, r.strong.items()) {
        Some(target) => Some(target),
        None => first_lacked(g, view, name, own, n, r.offline_restart.items()),
    }
}

fn first_lacked(
    g: &Groups,
    view: &GroupView,
    name: &Name,
    own: &Group,
    n: NodeId,
    targets: &[Name],
) -> Option<Name>
    ensures { result ≡ find (lacks g.now view.entry.now name.now own.now n) targets.now }
{
    targets
        .iter()
        .find(|target| is_lacking(view, name, own, n, g.resource(target)))
        .copied()
}

/// Whether a target is out of reach of the group on the node.
fn is_lacking(
    view: &GroupView,
    name: &Name,
    own: &Group,
    n: NodeId,
    target: Option<&Resource>,
) -> bool
    ensures { result ≡ is_lacking view.entry.now name.now own.now n (option_copied target.entry) }
{
    match target {
        Some(r) => !r.enabled
            || (r.group.bytes() != name.bytes() && !is_reached(view, own, n, &r.group)),
        None => true,
    }
}

/// Whether the goal of the other group has a node in scope.
fn is_reached(view: &GroupView, own: &Group, n: NodeId, other: &Name) -> bool
    ensures { result ≡ in_scope view.entry.now (declares_close own.now.affinities other.now) n (goal_of view.entry.now.goals other.now) }
{
    let goal = view.goals.goal(other);
    if own.declares_close(other) {
        goal.has(n)
    } else {
        have_common(goal, view.members)
    }
}

fn have_common(a: NodeSet, b: NodeSet) -> bool
    ensures { result ≡ have_common a b }
{
    a.bits() & b.bits() != 0
}
