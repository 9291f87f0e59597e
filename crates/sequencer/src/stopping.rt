// Down calls.
ghost use Rattle.std.specs.Prelude.{◌≡◌, false, slice_get};
ghost use Rattle.std.specs.Option.{option_copied, option_map_or};
ghost use Rattle.rg_props.specs.Settings.{has_name};
ghost use Rattle.sequencer.specs.Scopes.{any_in_scope};
ghost use Rattle.sequencer.specs.Standing.{is_up};
ghost use Rattle.sequencer.specs.Stopping.{depends_on, follows_up, has_follower, has_start, is_awaited, is_group_elsewhere, is_held, is_holding, is_of_dependent, is_online_elsewhere, is_start_order, may_stop, may_stop_monitor, may_stop_net, needs, starts_dependent};

use crate::groups::{is_group_online, is_group_up};
use crate::outlook::Outlook;
use crate::scopes::{in_scope, is_tied};
use crate::standing::{is_online, is_up};
use cl_base::{Method, Name, NodeId};
use rg_props::{Group, Groups, Resource};
use rg_view::{GroupView, Outstanding, ResourceAt};

/// Whether MONITOR_STOP is due: the monitor runs, and the resource must go down or is not monitored.
pub fn may_stop_monitor(
    outlook: &Outlook,
    name: &Name,
    r: &Resource,
    n: NodeId,
    s: ResourceAt,
) -> bool
    ensures { result ≡ may_stop_monitor outlook.now name.now r.now n s }
{
    s.mon && (outlook.must_go(name, n) || !r.monitored)
}

/// Whether STOP is due and nothing rests on the resource.
pub fn may_stop(
    g: &Groups,
    view: &GroupView,
    outlook: &Outlook,
    name: &Name,
    r: &Resource,
    n: NodeId,
    s: ResourceAt,
) -> bool
    ensures { result ≡ may_stop g.now view.entry.now outlook.now name.now r.now n s }
{
    s.run
        && !s.mon
        && outlook.must_go(name, n)
        && !is_held(g, view, outlook.members(), name, n)
        && !has_follower(g, view, &r.group, n)
        && !is_awaited(g, view, outlook.members(), &r.group, n)
}

/// Whether POSTNET_STOP is due.
pub fn may_stop_net(outlook: &Outlook, name: &Name, n: NodeId, s: ResourceAt) -> bool
    ensures { result ≡ may_stop_net outlook.now name.now n s }
{
    s.pre && !s.run && !s.mon && outlook.must_go(name, n)
}

/// Whether a strong dependent that is up in scope has the resource online nowhere else in its scope.
fn is_held(g: &Groups, view: &GroupView, members: &[NodeId], name: &Name, n: NodeId) -> bool
    ensures { result ≡ is_held g.now view.entry.now members.now name.now n }
{
    for place in 0..g.resource_count() {
        if is_holding_at(g, view, members, name, n, place) {
            return true;
        }
    }
    false
}

fn is_holding_at(
    g: &Groups,
    view: &GroupView,
    members: &[NodeId],
    name: &Name,
    n: NodeId,
    place: usize,
) -> bool
    ensures { result ≡ option_map_or (is_holding g.now view.entry.now members.now name.now n) (slice_get g.now.resources place) false }
{
    match g.resource_at(place) {
        Some((dependent, r)) => needs(name, r)
            && is_up_in_scope(g, view, members, &r.group, name, n, dependent)
            && !is_online_in_scope(g, view, members, &r.group, name, n),
        None => false,
    }
}

fn needs(name: &Name, dependent: &Resource) -> bool
    ensures { result ≡ needs name.now dependent.now }
{
    has_name(name, dependent.strong.items()) || has_name(name, dependent.offline_restart.items())
}

fn has_name(name: &Name, names: &[Name]) -> bool
    ensures { result ≡ has_name name.now names.now }
{
    names.iter().any(|n| n.bytes() == name.bytes())
}

fn is_up_in_scope(
    g: &Groups,
    view: &GroupView,
    members: &[NodeId],
    group: &Name,
    name: &Name,
    n: NodeId,
    dependent: &Name,
) -> bool
    ensures { result ≡ any_in_scope g.now members.now group.now n name.now (is_up view.entry.now dependent.now) }
{
    let tied = is_tied(g, group, name);
    members
        .iter()
        .any(|m| in_scope(tied, n, *m) && is_up(view, dependent, *m))
}

fn is_online_in_scope(
    g: &Groups,
    view: &GroupView,
    members: &[NodeId],
    group: &Name,
    name: &Name,
    n: NodeId,
) -> bool
    ensures { result ≡ any_in_scope g.now members.now group.now n name.now (is_online_elsewhere view.entry.now name.now n) }
{
    let tied = is_tied(g, group, name);
    members.iter().any(|m| in_scope(tied, n, *m) && is_online_elsewhere(view, name, n, *m))
}

fn is_online_elsewhere(view: &GroupView, name: &Name, n: NodeId, m: NodeId) -> bool
    ensures { result ≡ is_online_elsewhere view.entry.now name.now n m }
{
    m != n && is_online(view, name, m)
}

/// Whether a group that is always where this one is is up on the node.
fn has_follower(g: &Groups, view: &GroupView, group: &Name, n: NodeId) -> bool
    ensures { result ≡ has_follower g.now view.entry.now group.now n }
{
    for place in 0..g.group_count() {
        if follows_at(g, view, group, n, place) {
            return true;
        }
    }
    false
}

fn follows_at(g: &Groups, view: &GroupView, group: &Name, n: NodeId, place: usize) -> bool
    ensures { result ≡ option_map_or (follows_up g.now view.entry.now group.now n) (slice_get g.now.groups place) false }
{
    match g.group_at(place) {
        Some((name, other)) => other.declares_close(group) && is_group_up(g, view, name, n),
        None => false,
    }
}

#[tactic(auto, unfolding(crate::specs::Stopping::is_awaited))]
/// Whether a start is on the way that rests on the group, which is online on no other member.
fn is_awaited(g: &Groups, view: &GroupView, members: &[NodeId], group: &Name, n: NodeId) -> bool
    ensures { result ≡ is_awaited g.now view.entry.now members.now group.now n }
{
    has_start(g, view, members, group) && !is_group_elsewhere(g, view, members, group, n)
}

fn has_start(g: &Groups, view: &GroupView, members: &[NodeId], group: &Name) -> bool
    ensures { result ≡ has_start g.now view.entry.now members.now group.now }
{
    members
        .iter()
        .any(|m| starts_dependent(g, group, view.outstanding.at(*m)))
}

fn is_group_elsewhere(
    g: &Groups,
    view: &GroupView,
    members: &[NodeId],
    group: &Name,
    n: NodeId,
) -> bool
    ensures { result ≡ is_group_elsewhere g.now view.entry.now members.now group.now n }
{
    members
        .iter()
        .any(|m| *m != n && is_group_online(g, view, group, *m))
}

fn starts_dependent(g: &Groups, group: &Name, order: Option<&Outstanding>) -> bool
    ensures { result ≡ starts_dependent g.now group.now (option_copied order.entry) }
{
    match order {
        Some(order) => is_start_order(order.method)
            && is_of_dependent(g, group, g.resource(&order.resource)),
        None => false,
    }
}

fn is_start_order(method: Option<Method>) -> bool
    ensures { result ≡ is_start_order method }
{
    match method {
        Some(Method::PrenetStart | Method::Start) => true,
        _ => false,
    }
}

fn is_of_dependent(g: &Groups, group: &Name, r: Option<&Resource>) -> bool
    ensures { result ≡ is_of_dependent g.now group.now (option_copied r.entry) }
{
    match r {
        Some(r) => depends_on(group, g.group(&r.group)),
        None => false,
    }
}

fn depends_on(group: &Name, other: Option<&Group>) -> bool
    ensures { result ≡ depends_on group.now (option_copied other.entry) }
{
    match other {
        Some(other) => has_name(group, other.dependencies.items()),
        None => false,
    }
}
