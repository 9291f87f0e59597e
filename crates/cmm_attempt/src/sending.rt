ghost use Rattle.std.specs.Prelude.{◌≡◌, IfOk, Some, None, map, find};
ghost use Rattle.std.specs.List.{filter_map};
ghost use Rattle.std.specs.Option.{option_copied};
ghost use Rattle.cmm_attempt.specs.Plans.{others_of};
ghost use Rattle.cmm_attempt.specs.Promises.{is_from};
ghost use Rattle.cmm_attempt.specs.Seizings.{request_for, again_for};
ghost use Rattle.cmm_attempt.specs.Installs.{committed_in, pending_in, install_by, install_of, send_collect, send_install, send_start};

use crate::plan::Plan;
use crate::promised::Promised;
use crate::seizing::{Seizing, readings_of};
use crate::step::Step;
use cl_base::{Bytes, NodeId};
use std::alloc::{AllocError, Global};
use wire::{Body, Install, Message, Readings, Texts, copy_install, copy_pending, copy_texts};

/// Collect to these members.
pub fn send_collects(alloc: Global, plan: &Plan, to: &[NodeId]) -> Result<Vec<Step>, AllocError>
    ensures { IfOk result (λ steps. steps.items ≡ map (send_collect plan.now) to.now) }
{
    to.iter().map(|n| collect_to(plan, *n)).collect(alloc)
}

fn collect_to(plan: &Plan, to: NodeId) -> Step
    ensures { result ≡ send_collect plan.now to }
{
    Step::Send {
        to,
        message: Message {
            sender: plan.coordinator,
            body: Body::Collect {
                epoch: plan.epoch,
                members: plan.members,
            },
        },
    }
}

fn start_to(plan: &Plan, to: NodeId) -> Step
    ensures { result ≡ send_start plan.now to }
{
    Step::Send {
        to,
        message: Message {
            sender: plan.coordinator,
            body: Body::Start { epoch: plan.epoch },
        },
    }
}

/// Start to the other members.
pub fn send_starts(alloc: Global, plan: &Plan) -> Result<Vec<Step>, AllocError>
    ensures { IfOk result (λ steps. steps.items ≡ map (send_start plan.now) (others_of plan.now)) }
{
    let others = plan.others(alloc)?;
    others.iter().map(|n| start_to(plan, *n)).collect(alloc)
}

/// Install to these members.
pub fn send_installs(
    alloc: Global,
    plan: &Plan,
    i: &Install,
    to: &[NodeId],
) -> Result<Vec<Step>, AllocError>
    ensures { IfOk result (λ steps. steps.items ≡ map (send_install plan.now i.now) to.now) }
{
    let mut steps = Vec::new(alloc);
    for n in to {
        let body = Body::Install(copy_install(alloc, i)?);
        let sender = plan.coordinator;
        steps.push(Step::Send {
            to: *n,
            message: Message { sender, body },
        })?;
    }
    Ok(steps)
}

fn committed_of(alloc: Global, m: &Message) -> Result<Texts, AllocError>
    ensures { IfOk result (λ texts. texts ≡ committed_in m.now.body) }
{
    match &m.body {
        Body::Promise { committed, .. } => copy_texts(alloc, committed),
        _ => Ok(Texts::new(Vec::new(alloc))),
    }
}

fn pending_of(alloc: Global, m: &Message) -> Result<Option<Bytes>, AllocError>
    ensures { IfOk result (λ text. text ≡ pending_in m.now.body) }
{
    match &m.body {
        Body::Promise { pending, .. } => copy_pending(alloc, pending),
        _ => Ok(None),
    }
}

/// The Promise of this node.
pub fn promise_from(promises: &[Promised], n: NodeId) -> Option<&Promised>
    ensures { option_copied result ≡ find (is_from n) promises.now }
{
    promises.iter().find(|p| p.shown.summary.node == n)
}

fn install_with(
    alloc: Global,
    plan: &Plan,
    readings: Readings,
    newest: &Promised,
) -> Result<Install, AllocError>
    ensures { IfOk result (λ i. i ≡ install_by plan.now readings (Some newest.now)) }
{
    let committed = committed_of(alloc, &newest.message)?;
    let pending = pending_of(alloc, &newest.message)?;
    Ok(Install {
        epoch: plan.epoch,
        members: plan.members,
        committed,
        pending,
        readings,
    })
}

fn install_without(alloc: Global, plan: &Plan, readings: Readings) -> Install
    ensures { result ≡ install_by plan.now readings None }
{
    Install {
        epoch: plan.epoch,
        members: plan.members,
        committed: Texts::new(Vec::new(alloc)),
        pending: None,
        readings,
    }
}

/// The membership with the updates of the newest record, and what was read on the devices held.
pub fn make_install(
    alloc: Global,
    plan: &Plan,
    promises: &[Promised],
    newest: NodeId,
    devices: &[Seizing],
) -> Result<Install, AllocError>
    ensures { IfOk result (λ i. i ≡ install_of plan.now promises.now newest devices.now) }
{
    let readings = Readings::new(readings_of(alloc, devices, plan.attached.items())?);
    match promise_from(promises, newest) {
        Some(p) => install_with(alloc, plan, readings, p),
        None => Ok(install_without(alloc, plan, readings)),
    }
}

/// What is to be asked for the seizings that have not ended.
pub fn requests(alloc: Global, plan: &Plan, devices: &[Seizing]) -> Result<Vec<Step>, AllocError>
    ensures { IfOk result (λ steps. steps.items ≡ filter_map (request_for plan.now) devices.now) }
{
    devices
        .iter()
        .filter_map(|e| e.request(plan))
        .collect(alloc)
}

/// The same, where another node than the coordinator was asked.
pub fn requests_again(
    alloc: Global,
    plan: &Plan,
    devices: &[Seizing],
) -> Result<Vec<Step>, AllocError>
    ensures { IfOk result (λ steps. steps.items ≡ filter_map (again_for plan.now) devices.now) }
{
    devices
        .iter()
        .filter_map(|e| e.request_again(plan))
        .collect(alloc)
}
