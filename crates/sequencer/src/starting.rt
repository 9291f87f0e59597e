// Up calls.
ghost use Rattle.std.specs.Prelude.{◌≡◌, ◌&&◌, not, false, slice_get};
ghost use Rattle.std.specs.List.{list_all};
ghost use Rattle.std.specs.Option.{option_map_or};
ghost use Rattle.sequencer.specs.Leaving.{has_reason};
ghost use Rattle.sequencer.specs.declared.direction.Direction.TheVariants.{Up};
ghost use Rattle.sequencer.specs.Starting.{are_suited, avoids_up, has_groups, has_room, is_avoided, is_coming, is_group_there, is_listed, is_on_its_way, is_suited, is_supported, is_there, is_wanted, may_begin, may_begin_in, may_start, may_start_monitor, may_start_net, others_up, suits, waits};

use crate::counted::{count_others, nodes_up};
use crate::direction::Direction;
use crate::groups::{is_group_online, is_group_up};
use crate::leaving::has_reason;
use crate::loads::is_too_much;
use crate::outlook::Outlook;
use crate::scopes::{in_scope, is_tied};
use crate::standing::{is_online, is_ordered};
use cl_base::{Name, NodeId};
use load_limits::Limits;
use rg_props::{Affine, Affinity, Group, Groups, Resource};
use rg_view::{GroupView, Marks, ResourceAt};

/// Whether PRENET_START is due and allowed.
pub fn may_start_net(
    g: &Groups,
    limits: &Limits,
    view: &GroupView,
    outlook: &Outlook,
    name: &Name,
    r: &Resource,
    n: NodeId,
    s: ResourceAt,
) -> bool
    ensures { result ≡ may_start_net g.now limits.now view.entry.now outlook.now name.now r.now n s }
{
    !s.pre && !s.run && may_begin(g, limits, view, outlook, name, r, n, s)
}

/// Whether START is due and allowed, where `net` says that the type has PRENET_START.
pub fn may_start(
    g: &Groups,
    limits: &Limits,
    view: &GroupView,
    outlook: &Outlook,
    name: &Name,
    r: &Resource,
    n: NodeId,
    s: ResourceAt,
    net: bool,
) -> bool
    ensures { result ≡ may_start g.now limits.now view.entry.now outlook.now name.now r.now n s net }
{
    !s.run && (s.pre || !net) && may_begin(g, limits, view, outlook, name, r, n, s)
}

/// Whether MONITOR_START is due and allowed.
pub fn may_start_monitor(
    g: &Groups,
    view: &GroupView,
    outlook: &Outlook,
    name: &Name,
    r: &Resource,
    n: NodeId,
    s: ResourceAt,
) -> bool
    ensures { result ≡ may_start_monitor g.now view.entry.now outlook.now name.now r.now n s }
{
    s.run
        && !s.mon
        && r.monitored
        && !s.monitor_failed
        && !is_unsettled(g, view, outlook, name, r, n)
}

/// Whether one of the six reasons to go down holds, as an up call is tested.
fn is_unsettled(
    g: &Groups,
    view: &GroupView,
    outlook: &Outlook,
    name: &Name,
    r: &Resource,
    n: NodeId,
) -> bool
    ensures { result ≡ has_reason Up g.now view.entry.now outlook.now.members outlook.now.for_up name.now r.now n }
{
    let (members, going) = (outlook.members(), outlook.for_up());
    has_reason(Direction::Up, g, view, members, going, name, r, n)
}

#[tactic(auto, unfolding(crate::specs::Starting::may_begin))]
/// What PRENET_START and START need alike.
fn may_begin(
    g: &Groups,
    limits: &Limits,
    view: &GroupView,
    outlook: &Outlook,
    name: &Name,
    r: &Resource,
    n: NodeId,
    s: ResourceAt,
) -> bool
    ensures { result ≡ may_begin g.now limits.now view.entry.now outlook.now name.now r.now n s }
{
    match g.group(&r.group) {
        Some(own) => is_wanted(g, view, outlook, name, r, n, s)
            && may_begin_in(g, limits, view, outlook, r, own, n),
        None => false,
    }
}

fn may_begin_in(
    g: &Groups,
    limits: &Limits,
    view: &GroupView,
    outlook: &Outlook,
    r: &Resource,
    own: &Group,
    n: NodeId,
) -> bool
    ensures { result ≡ (has_room g.now limits.now view.entry.now outlook.now.members r.now.group own.now n && is_supported g.now view.entry.now outlook.now.members r.now n && has_groups g.now view.entry.now outlook.now.members own.now && are_suited g.now view.entry.now own.now n && not (is_avoided g.now view.entry.now r.now.group n) && not (waits g.now view.entry.now outlook.now r.now n)) }
{
    let members = outlook.members();
    has_room(g, limits, view, members, &r.group, own, n)
        && is_supported(g, view, members, r, n)
        && has_groups(g, view, members, own)
        && are_suited(g, view, own, n)
        && !is_avoided(g, view, &r.group, n)
        && !waits(g, view, outlook, r, n)
}

/// Whether the resource shall run on the node.
fn is_wanted(
    g: &Groups,
    view: &GroupView,
    outlook: &Outlook,
    name: &Name,
    r: &Resource,
    n: NodeId,
    s: ResourceAt,
) -> bool
    ensures { result ≡ is_wanted g.now view.entry.now outlook.now name.now r.now n s }
{
    r.enabled && !s.faulted && !is_unsettled(g, view, outlook, name, r, n)
}

#[tactic(auto, unfolding(crate::specs::Starting::has_room))]
/// Whether the node is one for the group, with room for it.
fn has_room(
    g: &Groups,
    limits: &Limits,
    view: &GroupView,
    members: &[NodeId],
    group: &Name,
    own: &Group,
    n: NodeId,
) -> bool
    ensures { result ≡ has_room g.now limits.now view.entry.now members.now group.now own.now n }
{
    is_listed(own.nodelist.items(), n)
        && view.goals.goal(group).has(n)
        && others_up(g, view, members, group, n) < own.maximum
        && !is_too_much(g, limits, view, group, own.factors.items(), n)
}

fn is_listed(nodelist: &[NodeId], n: NodeId) -> bool
    ensures { result ≡ is_listed nodelist.now n }
{
    nodelist.iter().any(|m| *m == n)
}

/// On how many other members the group is up.
fn others_up(g: &Groups, view: &GroupView, members: &[NodeId], group: &Name, n: NodeId) -> u64
    ensures { result ≡ others_up g.now view.entry.now members.now group.now n }
{
    let up = nodes_up(g, view, members, group);
    count_others(up, members, n)
}

#[tactic(auto, unfolding(crate::specs::Starting::is_supported))]
/// Whether each strong target is online in scope.
fn is_supported(g: &Groups, view: &GroupView, members: &[NodeId], r: &Resource, n: NodeId) -> bool
    ensures { result ≡ is_supported g.now view.entry.now members.now r.now n }
{
    are_there(g, view, members, &r.group, n, r.strong.items())
        && are_there(g, view, members, &r.group, n, r.offline_restart.items())
}

fn are_there(
    g: &Groups,
    view: &GroupView,
    members: &[NodeId],
    group: &Name,
    n: NodeId,
    targets: &[Name],
) -> bool
    ensures { result ≡ list_all (is_there g.now view.entry.now members.now group.now n) targets.now }
{
    targets
        .iter()
        .all(|target| is_there(g, view, members, group, n, target))
}

fn is_there(
    g: &Groups,
    view: &GroupView,
    members: &[NodeId],
    group: &Name,
    n: NodeId,
    target: &Name,
) -> bool
    ensures { result ≡ is_there g.now view.entry.now members.now group.now n target.now }
{
    let tied = is_tied(g, group, target);
    members
        .iter()
        .any(|m| in_scope(tied, n, *m) && is_online(view, target, *m))
}

#[tactic(auto, unfolding(crate::specs::Starting::has_groups))]
/// Whether each group that this one depends on is online on some member.
fn has_groups(g: &Groups, view: &GroupView, members: &[NodeId], own: &Group) -> bool
    ensures { result ≡ has_groups g.now view.entry.now members.now own.now }
{
    own.dependencies
        .items()
        .iter()
        .all(|group| is_group_there(g, view, members, group))
}

fn is_group_there(g: &Groups, view: &GroupView, members: &[NodeId], group: &Name) -> bool
    ensures { result ≡ is_group_there g.now view.entry.now members.now group.now }
{
    members.iter().any(|m| is_group_online(g, view, group, *m))
}

#[tactic(auto, unfolding(crate::specs::Starting::are_suited))]
/// Whether the node suits each affinity that the group declares.
fn are_suited(g: &Groups, view: &GroupView, own: &Group, n: NodeId) -> bool
    ensures { result ≡ are_suited g.now view.entry.now own.now n }
{
    own.affinities
        .items()
        .iter()
        .all(|a| is_suited(g, view, n, a))
}

fn is_suited(g: &Groups, view: &GroupView, n: NodeId, a: &Affine) -> bool
    ensures { result ≡ is_suited g.now view.entry.now n a.now }
{
    match a.affinity {
        Affinity::PlusPlus | Affinity::PlusPlusPlus => is_group_online(g, view, &a.group, n),
        Affinity::MinusMinus => !is_group_up(g, view, &a.group, n),
        Affinity::Plus | Affinity::Minus => true,
    }
}

/// Whether a group that declares `--` to this one is up on the node.
fn is_avoided(g: &Groups, view: &GroupView, group: &Name, n: NodeId) -> bool
    ensures { result ≡ is_avoided g.now view.entry.now group.now n }
{
    for place in 0..g.group_count() {
        if avoids_at(g, view, group, n, place) {
            return true;
        }
    }
    false
}

fn avoids_at(g: &Groups, view: &GroupView, group: &Name, n: NodeId, place: usize) -> bool
    ensures { result ≡ option_map_or (avoids_up g.now view.entry.now group.now n) (slice_get g.now.groups place) false }
{
    match g.group_at(place) {
        Some((name, other)) => other.declares(group, Affinity::MinusMinus)
            && is_group_up(g, view, name, n),
        None => false,
    }
}

#[tactic(auto, unfolding(crate::specs::Starting::waits))]
/// Whether a weak target in scope has an order or an allowed up call.
fn waits(g: &Groups, view: &GroupView, outlook: &Outlook, r: &Resource, n: NodeId) -> bool
    ensures { result ≡ waits g.now view.entry.now outlook.now r.now n }
{
    r.weak
        .items()
        .iter()
        .any(|target| is_coming(g, view, outlook, &r.group, n, target))
}

fn is_coming(
    g: &Groups,
    view: &GroupView,
    outlook: &Outlook,
    group: &Name,
    n: NodeId,
    target: &Name,
) -> bool
    ensures { result ≡ is_coming g.now view.entry.now outlook.now group.now n target.now }
{
    let tied = is_tied(g, group, target);
    outlook.members().iter().any(|m| in_scope(tied, n, *m)
        && is_on_its_way(view, outlook.rising(), target, *m))
}

fn is_on_its_way(view: &GroupView, rising: &Marks, target: &Name, m: NodeId) -> bool
    ensures { result ≡ is_on_its_way view.entry.now rising.now target.now m }
{
    is_ordered(view, target, m) || rising.has(target, m)
}
