// How a group stands on a node, and why it is not online there.
ghost use Rattle.std.specs.Prelude.{◌≡◌, IfOk, IsSome};
ghost use Rattle.std.specs.List.{list_any};
ghost use Rattle.std.specs.Option.{option_copied};
ghost use Rattle.rg_props.specs.Lookups.{named};
ghost use Rattle.rgm_president.specs.Sequence.{sequence};
ghost use Rattle.rgm_president.specs.Decisions.{outlook_over};
ghost use Rattle.sequencer.specs.Allowed.{has_up_call, is_allowed};
ghost use Rattle.sequencer.specs.Shown.{Shows};
ghost use Rattle.rgm_president.specs.Status.{can_rise, first_blocked, first_faulted, group_state, has_stop_failed, hindrance, is_blocked, is_enabled, is_faulted, is_hindered, is_order_of, reason_for, reason_inside, reason_outside, state_in, state_inside, state_of_managed, state_outside};

use crate::deciding::find_outlook;
use crate::ordering::{groups_in_order, resources_in_order};
use ccr_tables::Config;
use cl_base::{GroupState, Method, Name, NodeId, Reason};
use placement::eligible;
use rg_props::{Group, Groups, Resource};
use rg_view::{GroupView, Outstanding, ResourceStates};
use rgm_state::{NoMemory, have_flag, resources_of};
use sequencer::{Outlook, allowed};
use std::alloc::Global;

/// How the group stands on the node.
pub fn group_state(
    alloc: Global,
    c: &Config,
    view: &GroupView,
    group: &Name,
    n: NodeId,
) -> Result<GroupState, NoMemory>
    ensures { IfOk result (λ state. state ≡ group_state c.now view.entry.now group.now n) }
{
    match c.groups().group(group) {
        Some(own) if own.managed => {
            let resources = resources_of(alloc, c.groups(), group)?;
            state_of_managed(alloc, c, view, group, &resources, n)
        }
        _ => Ok(GroupState::Unmanaged),
    }
}

/// How a managed group of these resources stands on the node.
fn state_of_managed(
    alloc: Global,
    c: &Config,
    view: &GroupView,
    group: &Name,
    resources: &[Name],
    n: NodeId,
) -> Result<GroupState, NoMemory>
    ensures { IfOk result (λ state. state ≡ state_of_managed c.now view.entry.now group.now resources.now n) }
{
    if has_stop_failed(&view.resources, resources, n) {
        return Ok(GroupState::ErrorStopFailed);
    }
    if !view.goals.goal(group).has(n) {
        return Ok(state_outside(have_flag(&view.resources, resources, n)));
    }
    let runs = first_blocked(c.groups(), &view.resources, resources, n).is_none();
    let faulted = first_faulted(&view.resources, resources, n).is_some();
    let moves = is_order_of(c.groups(), group, view.outstanding.at(n))
        || can_rise(alloc, c, view, resources, n)?;
    Ok(state_inside(runs, faulted, moves))
}

fn state_inside(runs: bool, faulted: bool, moves: bool) -> GroupState
    ensures { result ≡ state_inside runs faulted moves }
{
    match (runs, moves, faulted) {
        (true, _, true) => GroupState::OnlineFaulted,
        (true, _, false) => GroupState::Online,
        (false, true, _) => GroupState::PendingOnline,
        (false, false, true) => GroupState::OnlineFaulted,
        (false, false, false) => GroupState::PendingOnlineBlocked,
    }
}

fn state_outside(up: bool) -> GroupState
    ensures { result ≡ state_outside up }
{
    if up {
        GroupState::PendingOffline
    } else {
        GroupState::Offline
    }
}

/// Whether one of the resources is stop-failed on the node.
fn has_stop_failed(states: &ResourceStates, resources: &[Name], n: NodeId) -> bool
    ensures { result ≡ has_stop_failed states.now resources.now n }
{
    resources.iter().any(|r| states.state(r, n).stop_failed)
}

/// The first of the resources that is faulted on the node.
fn first_faulted(states: &ResourceStates, resources: &[Name], n: NodeId) -> Option<Name>
    ensures { result ≡ first_faulted states.now resources.now n }
{
    resources.iter().find(|r| is_faulted(states, r, n)).copied()
}

fn is_faulted(states: &ResourceStates, r: &Name, n: NodeId) -> bool
    ensures { result ≡ is_faulted states.now n r.now }
{
    states.state(r, n).faulted
}

/// The first of the resources that is enabled and does not run on the node.
fn first_blocked(g: &Groups, states: &ResourceStates, resources: &[Name], n: NodeId) -> Option<Name>
    ensures { result ≡ first_blocked g.now states.now resources.now n }
{
    resources
        .iter()
        .find(|r| is_blocked(g, states, r, n))
        .copied()
}

fn is_blocked(g: &Groups, states: &ResourceStates, r: &Name, n: NodeId) -> bool
    ensures { result ≡ is_blocked g.now states.now n r.now }
{
    is_enabled(g.resource(r)) && !states.state(r, n).run
}

fn is_enabled(r: Option<&Resource>) -> bool
    ensures { result ≡ is_enabled (option_copied r.entry) }
{
    match r {
        Some(r) => r.enabled,
        None => false,
    }
}

/// Whether the order is for a resource of the group.
fn is_order_of(g: &Groups, group: &Name, order: Option<&Outstanding>) -> bool
    ensures { result ≡ is_order_of g.now group.now (option_copied order.entry) }
{
    let Some(order) = order else { return false };
    match g.resource(&order.resource) {
        Some(r) => r.group.bytes() == group.bytes(),
        None => false,
    }
}

/// Whether an up call of one of the resources is allowed on the node.
fn can_rise(
    alloc: Global,
    c: &Config,
    view: &GroupView,
    resources: &[Name],
    n: NodeId,
) -> Result<bool, NoMemory>
    ensures { IfOk result (λ rises. rises ≡ can_rise c.now view.entry.now resources.now n) }
{
    let outlook = outlook_in_order(alloc, c, view)?;
    Ok(can_rise_by(c, view, &outlook, resources, n))
}

/// What the calls rest on, as it stands.
fn outlook_in_order(alloc: Global, c: &Config, view: &GroupView) -> Result<Outlook, NoMemory>
    ensures { IfOk result (λ o. Shows c.now.groups o (outlook_over c.now (sequence c.now.groups) view.entry.now)) }
{
    let groups = groups_in_order(alloc, c.groups())?;
    let order = resources_in_order(alloc, c.groups(), &groups)?;
    let outlook = find_outlook(alloc, c, view, &order)?;
    Ok(outlook)
}

fn can_rise_by(
    c: &Config,
    view: &GroupView,
    outlook: &Outlook,
    resources: &[Name],
    n: NodeId,
) -> bool
    requires { Shows c.now.groups outlook.now (outlook_over c.now (sequence c.now.groups) view.now) }
    ensures { result ≡ can_rise c.now view.entry.now resources.now n }
{
    any_rises(c, view, outlook, resources, n)
}

fn any_rises(c: &Config, view: &GroupView, outlook: &Outlook, resources: &[Name], n: NodeId) -> bool
    ensures { result ≡ list_any (has_up_call c.now.groups c.now.types c.now.limits view.entry.now outlook.now n) resources.now }
{
    resources
        .iter()
        .any(|r| has_up_call(c, view, outlook, n, r))
}

/// Whether an up call of the resource is allowed on the node.
fn has_up_call(c: &Config, view: &GroupView, outlook: &Outlook, n: NodeId, r: &Name) -> bool
    ensures { result ≡ has_up_call c.now.groups c.now.types c.now.limits view.entry.now outlook.now n r.now }
{
    is_allowed(c, view, outlook, n, r, Method::PrenetStart)
        || is_allowed(c, view, outlook, n, r, Method::Start)
        || is_allowed(c, view, outlook, n, r, Method::MonitorStart)
}

fn is_allowed(
    c: &Config,
    view: &GroupView,
    outlook: &Outlook,
    n: NodeId,
    r: &Name,
    m: Method,
) -> bool
    ensures { result ≡ is_allowed c.now.groups c.now.types c.now.limits view.entry.now outlook.now n r.now m }
{
    allowed(c.groups(), c.types(), c.limits(), view, outlook, n, r, m)
}

/// Why the group is not online on the node, as far as that is told.
pub fn reason_for(
    alloc: Global,
    c: &Config,
    view: &GroupView,
    group: &Name,
    n: NodeId,
) -> Result<Option<Reason>, NoMemory>
    requires { IsSome (named c.now.groups.groups group.now) }
    ensures { IfOk result (λ reason. reason ≡ reason_for c.now view.entry.now group.now n) }
{
    if view.goals.goal(group).has(n) {
        reason_inside(alloc, c, view, group, n)
    } else {
        Ok(reason_outside(c, view, group, n))
    }
}

/// What hinders the group, where it is faulted or blocked.
fn reason_inside(
    alloc: Global,
    c: &Config,
    view: &GroupView,
    group: &Name,
    n: NodeId,
) -> Result<Option<Reason>, NoMemory>
    ensures { IfOk result (λ reason. reason ≡ reason_inside c.now view.entry.now group.now n) }
{
    if !is_hindered(group_state(alloc, c, view, group, n)?) {
        return Ok(None);
    }
    let resources = resources_of(alloc, c.groups(), group)?;
    Ok(hindrance(c.groups(), &view.resources, &resources, n))
}

fn is_hindered(state: GroupState) -> bool
    ensures { result ≡ is_hindered state }
{
    match state {
        GroupState::OnlineFaulted | GroupState::PendingOnlineBlocked => true,
        GroupState::Unmanaged
        | GroupState::ErrorStopFailed
        | GroupState::Online
        | GroupState::PendingOnline
        | GroupState::PendingOffline
        | GroupState::Offline => false,
    }
}

/// The first faulted resource, or else the first that waits.
fn hindrance(g: &Groups, states: &ResourceStates, resources: &[Name], n: NodeId) -> Option<Reason>
    ensures { result ≡ hindrance g.now states.now resources.now n }
{
    if let Some(r) = first_faulted(states, resources, n) {
        return Some(Reason::Faulted(r));
    }
    let r = first_blocked(g, states, resources, n)?;
    Some(Reason::Blocked(r))
}

/// The first reason against the node, where the goal has fewer nodes than desired.
fn reason_outside(c: &Config, view: &GroupView, group: &Name, n: NodeId) -> Option<Reason>
    requires { IsSome (named c.now.groups.groups group.now) }
    ensures { result ≡ reason_outside c.now view.entry.now group.now n (named c.now.groups.groups group.now) }
{
    let own = c.groups().group(group)?;
    if view.goals.goal(group).count() < own.desired {
        eligible(c.groups(), c.limits(), view, group, n).err()
    } else {
        None
    }
}
