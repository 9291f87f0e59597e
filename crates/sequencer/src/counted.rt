// On which members a group is up, found in one pass over the resources.
ghost use Rattle.std.specs.Prelude.{◌≡◌, ◌==◌, ◌&&◌, ◌||◌, not, ℕ, false, length, slice_get};
ghost use Rattle.std.specs.List.{filter, list_any};
ghost use Rattle.std.specs.Option.{option_map_or};
ghost use Rattle.cl_base.specs.Sets.{has};
ghost use Rattle.sequencer.specs.Counted.{is_up_among, is_up_at, is_up_by};
ghost use Rattle.sequencer.specs.Standing.{is_up};

use crate::standing::is_up;
use cl_base::{Name, NodeId, NodeSet};
use rg_props::{Groups, Resource};
use rg_view::GroupView;

/// The members on which a resource of the group is up.
pub fn nodes_up(g: &Groups, view: &GroupView, members: &[NodeId], group: &Name) -> NodeSet
    ensures { (m : ℕ) → has result m ≡ list_any (is_up_by view.entry.now members.now group.now m) g.now.resources }
{
    let mut up = NodeSet::empty();
    for place in 0..g.resource_count() {
        up = with_place(g, view, members, group, place, up);
    }
    up
}

/// How many other members are in the set.
pub fn count_others(up: NodeSet, members: &[NodeId], n: NodeId) -> u64
    ensures { result ≡ length (filter (λ m. not (m == n) && has up m) members.now) }
{
    members.iter().filter(|m| is_another(up, n, **m)).count() as u64
}

fn is_another(up: NodeSet, n: NodeId, m: NodeId) -> bool
    ensures { result ≡ (not (m == n) && has up m) }
{
    m != n && up.has(m)
}

/// The set and those on which the resource at this place is up, where it is of the group.
fn with_place(
    g: &Groups,
    view: &GroupView,
    members: &[NodeId],
    group: &Name,
    place: usize,
    up: NodeSet,
) -> NodeSet
    ensures { (m : ℕ) → has result m ≡ (has up m || option_map_or (is_up_by view.entry.now members.now group.now m) (slice_get g.now.resources place) false) }
{
    match g.resource_at(place) {
        Some((name, r)) => with_resource(view, members, group, name, r, up),
        None => up,
    }
}

fn with_resource(
    view: &GroupView,
    members: &[NodeId],
    group: &Name,
    name: &Name,
    r: &Resource,
    up: NodeSet,
) -> NodeSet
    ensures { (m : ℕ) → has result m ≡ (has up m || is_up_by view.entry.now members.now group.now m (name.now, r.now)) }
{
    if r.group.bytes() == group.bytes() {
        with_nodes(view, members, name, up)
    } else {
        up
    }
}

fn with_nodes(view: &GroupView, members: &[NodeId], name: &Name, up: NodeSet) -> NodeSet
    ensures { (m : ℕ) → has result m ≡ (has up m || is_up_among view.entry.now members.now name.now m) }
{
    let mut all = up;
    for n in members {
        all = with_node(view, name, *n, all);
    }
    all
}

fn with_node(view: &GroupView, name: &Name, n: NodeId, up: NodeSet) -> NodeSet
    ensures { (m : ℕ) → has result m ≡ (has up m || is_up_at view.entry.now name.now m n) }
{
    if is_up(view, name, n) { up.with(n) } else { up }
}
