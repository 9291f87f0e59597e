// What is known of a group's resources on the nodes.
ghost use Rattle.std.specs.Prelude.{◌≡◌, false, slice_get};
ghost use Rattle.std.specs.Option.{option_copied, option_map_or};
ghost use Rattle.placement.specs.Resources.{has_down, has_enabled, is_down_on, is_enabled_in, is_of, is_online, is_stop_failed, is_stop_mark};

use cl_base::{Name, NodeId};
use rg_props::{Groups, Resource};
use rg_view::GroupView;

/// Whether the group has an enabled resource.
pub fn has_enabled(g: &Groups, group: &Name) -> bool
    ensures value { result ≡ has_enabled g.now group.now }
{
    for place in 0..g.resource_count() {
        if is_enabled_at(g, group, place) {
            return true;
        }
    }
    false
}

fn is_enabled_at(g: &Groups, group: &Name, place: usize) -> bool
    ensures { result ≡ option_map_or (λ e. is_enabled_in group.now e.1) (slice_get g.now.resources place) false }
{
    match g.resource_at(place) {
        Some((_, r)) => is_enabled_in(group, r),
        None => false,
    }
}

fn is_enabled_in(group: &Name, r: &Resource) -> bool
    ensures { result ≡ is_enabled_in group.now r.now }
{
    r.group.bytes() == group.bytes() && r.enabled
}

/// Whether the group has an enabled resource that does not run on the node.
fn has_down(g: &Groups, view: &GroupView, group: &Name, n: NodeId) -> bool
    ensures { result ≡ has_down g.now view.entry.now group.now n }
{
    for place in 0..g.resource_count() {
        if is_down_at(g, view, group, n, place) {
            return true;
        }
    }
    false
}

fn is_down_at(g: &Groups, view: &GroupView, group: &Name, n: NodeId, place: usize) -> bool
    ensures { result ≡ option_map_or (is_down_on view.entry.now group.now n) (slice_get g.now.resources place) false }
{
    match g.resource_at(place) {
        Some((name, r)) => is_enabled_in(group, r) && !view.resources.state(name, n).run,
        None => false,
    }
}

/// Whether the group is online on the node: it has an enabled resource, and every enabled one runs
/// there.
pub fn is_online(g: &Groups, view: &GroupView, group: &Name, n: NodeId) -> bool
    ensures value { result ≡ is_online g.now view.entry.now group.now n }
{
    has_enabled(g, group) && !has_down(g, view, group, n)
}

/// Whether a resource of the group could not be stopped on some member.
pub fn is_stop_failed(g: &Groups, view: &GroupView, group: &Name) -> bool
    ensures value { result ≡ is_stop_failed g.now view.entry.now group.now }
{
    for place in 0..view.resources.len() {
        if is_marked_at(g, view, group, place) {
            return true;
        }
    }
    false
}

fn is_marked_at(g: &Groups, view: &GroupView, group: &Name, place: usize) -> bool
    ensures { result ≡ option_map_or (is_stop_mark g.now view.entry.now group.now) (slice_get view.entry.now.resources place) false }
{
    match view.resources.get(place) {
        Some(s) => s.stop_failed
            && view.members.has(s.node)
            && is_of(group, g.resource(&s.resource)),
        None => false,
    }
}

fn is_of(group: &Name, r: Option<&Resource>) -> bool
    ensures { result ≡ is_of group.now (option_copied r.entry) }
{
    match r {
        Some(r) => r.group.bytes() == group.bytes(),
        None => false,
    }
}
