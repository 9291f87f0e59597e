// Why a resource must go down on a node.
ghost use Rattle.std.specs.Prelude.{◌≡◌, false, slice_get};
ghost use Rattle.std.specs.List.{list_any};
ghost use Rattle.std.specs.Option.{option_copied, option_map_or};
ghost use Rattle.sequencer.specs.Scopes.{any_in_scope};
ghost use Rattle.sequencer.specs.Leaving.{counts_online, draws, follows, goes_in, has_going, has_lost, has_reason, has_shaken, is_drawn, is_lost, is_outside, is_shaken, must_go, stays};

use crate::direction::Direction;
use crate::scopes::{in_scope, is_tied};
use crate::standing::{has_flag, is_online, is_ordered};
use cl_base::{Name, NodeId};
use rg_props::{Affine, Group, Groups, Resource};
use rg_view::{GroupView, Marks};

/// Whether the resource must go down on the node: it has a flag there, and a reason.
pub fn must_go(
    direction: Direction,
    g: &Groups,
    view: &GroupView,
    members: &[NodeId],
    going: &Marks,
    name: &Name,
    r: &Resource,
    n: NodeId,
) -> bool
    ensures { result ≡ must_go direction g.now view.entry.now members.now going.now name.now r.now n }
{
    has_flag(view.resources.state(name, n))
        && has_reason(direction, g, view, members, going, name, r, n)
}

#[tactic(auto, unfolding(crate::specs::Leaving::has_reason))]
/// Whether one of the six reasons to go down holds on the node.
pub fn has_reason(
    direction: Direction,
    g: &Groups,
    view: &GroupView,
    members: &[NodeId],
    going: &Marks,
    name: &Name,
    r: &Resource,
    n: NodeId,
) -> bool
    ensures { result ≡ has_reason direction g.now view.entry.now members.now going.now name.now r.now n }
{
    is_outside(view, r, n)
        || !r.enabled
        || view.restarting.has(name, n)
        || has_lost(direction, g, view, members, going, r, n)
        || has_shaken(g, members, going, r, n)
        || follows(g, going, r, n)
}

fn is_outside(view: &GroupView, r: &Resource, n: NodeId) -> bool
    ensures { result ≡ is_outside view.entry.now r.now n }
{
    !view.goals.goal(&r.group).has(n)
}

#[tactic(auto, unfolding(crate::specs::Leaving::has_lost))]
/// Whether a strong target has no place in scope that counts as online and stays.
fn has_lost(
    direction: Direction,
    g: &Groups,
    view: &GroupView,
    members: &[NodeId],
    going: &Marks,
    r: &Resource,
    n: NodeId,
) -> bool
    ensures { result ≡ has_lost direction g.now view.entry.now members.now going.now r.now n }
{
    loses_one(
        direction,
        g,
        view,
        members,
        going,
        &r.group,
        n,
        r.strong.items(),
    ) || loses_one(
        direction,
        g,
        view,
        members,
        going,
        &r.group,
        n,
        r.offline_restart.items(),
    )
}

fn loses_one(
    direction: Direction,
    g: &Groups,
    view: &GroupView,
    members: &[NodeId],
    going: &Marks,
    group: &Name,
    n: NodeId,
    targets: &[Name],
) -> bool
    ensures { result ≡ list_any (is_lost direction g.now view.entry.now members.now going.now group.now n) targets.now }
{
    targets.iter().any(|target| is_lost(direction, g, view, members, going, group, n, target))
}

fn is_lost(
    direction: Direction,
    g: &Groups,
    view: &GroupView,
    members: &[NodeId],
    going: &Marks,
    group: &Name,
    n: NodeId,
    target: &Name,
) -> bool
    ensures { result ≡ is_lost direction g.now view.entry.now members.now going.now group.now n target.now }
{
    !is_kept(direction, g, view, members, going, group, n, target)
}

/// Whether some place of the target in scope counts as online and stays.
fn is_kept(
    direction: Direction,
    g: &Groups,
    view: &GroupView,
    members: &[NodeId],
    going: &Marks,
    group: &Name,
    n: NodeId,
    target: &Name,
) -> bool
    ensures { result ≡ any_in_scope g.now members.now group.now n target.now (stays direction view.entry.now going.now target.now) }
{
    let tied = is_tied(g, group, target);
    members.iter().any(|m| in_scope(tied, n, *m) && stays(direction, view, going, target, *m))
}

fn stays(direction: Direction, view: &GroupView, going: &Marks, target: &Name, m: NodeId) -> bool
    ensures { result ≡ stays direction view.entry.now going.now target.now m }
{
    counts_online(direction, view, target, m) && !going.has(target, m)
}

fn counts_online(direction: Direction, view: &GroupView, target: &Name, m: NodeId) -> bool
    ensures { result ≡ counts_online direction view.entry.now target.now m }
{
    match direction {
        Direction::Down => is_online(view, target, m) || is_ordered(view, target, m),
        Direction::Up => is_online(view, target, m),
    }
}

#[tactic(auto, unfolding(crate::specs::Leaving::has_shaken))]
/// Whether a place in scope of an offline-restart target must go down.
fn has_shaken(g: &Groups, members: &[NodeId], going: &Marks, r: &Resource, n: NodeId) -> bool
    ensures { result ≡ has_shaken g.now members.now going.now r.now n }
{
    r.offline_restart
        .items()
        .iter()
        .any(|target| is_shaken(g, members, going, &r.group, n, target))
}

fn is_shaken(
    g: &Groups,
    members: &[NodeId],
    going: &Marks,
    group: &Name,
    n: NodeId,
    target: &Name,
) -> bool
    ensures { result ≡ is_shaken g.now members.now going.now group.now n target.now }
{
    let tied = is_tied(g, group, target);
    members
        .iter()
        .any(|m| in_scope(tied, n, *m) && going.has(target, *m))
}

#[tactic(auto, unfolding(crate::specs::Leaving::follows))]
/// Whether the group of the resource is always where another is that has a resource which must go
/// down on the node.
fn follows(g: &Groups, going: &Marks, r: &Resource, n: NodeId) -> bool
    ensures { result ≡ follows g.now going.now r.now n }
{
    draws(g, going, n, g.group(&r.group))
}

fn draws(g: &Groups, going: &Marks, n: NodeId, group: Option<&Group>) -> bool
    ensures { result ≡ draws g.now going.now n (option_copied group.entry) }
{
    match group {
        Some(group) => is_drawn_by(g, going, n, group.affinities.items()),
        None => false,
    }
}

fn is_drawn_by(g: &Groups, going: &Marks, n: NodeId, affinities: &[Affine]) -> bool
    ensures { result ≡ list_any (is_drawn g.now going.now n) affinities.now }
{
    affinities.iter().any(|a| is_drawn(g, going, n, a))
}

fn is_drawn(g: &Groups, going: &Marks, n: NodeId, a: &Affine) -> bool
    ensures { result ≡ is_drawn g.now going.now n a.now }
{
    a.affinity.is_close() && has_going(g, going, &a.group, n)
}

/// Whether a resource of the group must go down on the node.
fn has_going(g: &Groups, going: &Marks, group: &Name, n: NodeId) -> bool
    ensures { result ≡ has_going g.now going.now group.now n }
{
    for place in 0..g.resource_count() {
        if goes_at(g, going, group, n, place) {
            return true;
        }
    }
    false
}

fn goes_at(g: &Groups, going: &Marks, group: &Name, n: NodeId, place: usize) -> bool
    ensures { result ≡ option_map_or (goes_in going.now group.now n) (slice_get g.now.resources place) false }
{
    match g.resource_at(place) {
        Some((name, r)) => r.group.bytes() == group.bytes() && going.has(name, n),
        None => false,
    }
}
