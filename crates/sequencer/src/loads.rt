// The load of a node: that of each group that is up there.
ghost use Rattle.std.specs.Prelude.{◌≡◌, ◌≤◌, ◌-◌, ◌^◌, [], slice_get};
ghost use Rattle.std.specs.Option.{option_map_or};
ghost use Rattle.load_limits.specs.Loads.{brings_over, load};
ghost use Rattle.sequencer.specs.Loads.{brought, is_too_much, others_load};

use crate::groups::is_group_up;
use cl_base::{Name, NodeId};
use load_limits::{Factor, Limit, Limits, load_of};
use rg_props::Groups;
use rg_view::GroupView;

/// The greatest load that is told: a sum that would pass it stays there.
const MOST: u64 = (1 << 63) - 1;

#[tactic(auto, unfolding(crate::specs::Loads::is_too_much))]
/// Whether the group with these factors would pass a hard limit of the node.
pub fn is_too_much(
    g: &Groups,
    limits: &Limits,
    view: &GroupView,
    own: &Name,
    factors: &[Factor],
    n: NodeId,
) -> bool
    ensures { result ≡ is_too_much g.now limits.now view.entry.now own.now factors.now n }
{
    limits.items().iter().any(|l| l.node == n && brings_over(g, view, own, factors, n, l))
}

fn brings_over(
    g: &Groups,
    view: &GroupView,
    own: &Name,
    factors: &[Factor],
    n: NodeId,
    l: &Limit,
) -> bool
    ensures { result ≡ brings_over (others_load g.now view.entry.now own.now n) factors.now l.now.name l.now.hard }
{
    let load = load_of(&l.name, factors);
    load > 0 && (load + others_load(g, view, own, n, &l.name)).min(MOST) > l.hard
}

/// The load of this name by the other groups that are up on the node.
fn others_load(g: &Groups, view: &GroupView, own: &Name, n: NodeId, limit: &Name) -> u64
    ensures value { result ≡ load limit.now (others_load g.now view.entry.now own.now n) }
    ensures most { result ≤ 2 ^ 63 - 1 }
{
    let mut load = 0u64;
    for place in 0..g.group_count() {
        load = (load + brought_at(g, view, own, n, limit, place)).min(MOST);
    }
    load
}

#[tactic(auto, unfolding(load_limits::specs::Loads::load))]
/// The load that the group at the place brings to the node.
fn brought_at(
    g: &Groups,
    view: &GroupView,
    own: &Name,
    n: NodeId,
    limit: &Name,
    place: usize,
) -> u64
    ensures value { result ≡ load limit.now (option_map_or (brought g.now view.entry.now own.now n) (slice_get g.now.groups place) []) }
    ensures most { result ≤ 2 ^ 63 - 1 }
{
    match g.group_at(place) {
        Some((name, group)) if name.bytes() != own.bytes() && is_group_up(g, view, name, n) => {
            load_of(limit, group.factors.items())
        }
        _ => 0,
    }
}
