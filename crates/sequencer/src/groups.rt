// What counts as online and as up of groups.
ghost use Rattle.std.specs.Prelude.{◌≡◌, false, slice_get};
ghost use Rattle.std.specs.Option.{option_map_or};
ghost use Rattle.sequencer.specs.Standing.{has_missing, is_group_online, is_group_up, is_missing_in, is_up_in};

use crate::standing::{is_online, is_up};
use cl_base::{Name, NodeId};
use placement::has_enabled;
use rg_props::Groups;
use rg_view::GroupView;

/// Whether a resource of the group is up on the node.
pub fn is_group_up(g: &Groups, view: &GroupView, group: &Name, n: NodeId) -> bool
    ensures { result ≡ is_group_up g.now view.entry.now group.now n }
{
    for place in 0..g.resource_count() {
        if is_up_at(g, view, group, n, place) {
            return true;
        }
    }
    false
}

fn is_up_at(g: &Groups, view: &GroupView, group: &Name, n: NodeId, place: usize) -> bool
    ensures { result ≡ option_map_or (is_up_in view.entry.now group.now n) (slice_get g.now.resources place) false }
{
    match g.resource_at(place) {
        Some((name, r)) => r.group.bytes() == group.bytes() && is_up(view, name, n),
        None => false,
    }
}

#[tactic(auto, unfolding(crate::specs::Standing::is_group_online))]
/// Whether the group has an enabled resource and every enabled one is online on the node.
pub fn is_group_online(g: &Groups, view: &GroupView, group: &Name, n: NodeId) -> bool
    ensures { result ≡ is_group_online g.now view.entry.now group.now n }
{
    has_enabled(g, group) && !has_missing(g, view, group, n)
}

/// Whether an enabled resource of the group is not online on the node.
fn has_missing(g: &Groups, view: &GroupView, group: &Name, n: NodeId) -> bool
    ensures { result ≡ has_missing g.now view.entry.now group.now n }
{
    for place in 0..g.resource_count() {
        if is_missing_at(g, view, group, n, place) {
            return true;
        }
    }
    false
}

fn is_missing_at(g: &Groups, view: &GroupView, group: &Name, n: NodeId, place: usize) -> bool
    ensures { result ≡ option_map_or (is_missing_in view.entry.now group.now n) (slice_get g.now.resources place) false }
{
    match g.resource_at(place) {
        Some((name, r)) => r.group.bytes() == group.bytes()
            && r.enabled
            && !is_online(view, name, n),
        None => false,
    }
}
