ghost use Rattle.std.specs.Prelude.{◌≡◌, IfOk};
ghost use Rattle.status_report.specs.CallLines.{call_text, method_text, outcome_text, probe_text};
ghost use Rattle.status_report.specs.declared.call_entry.CallEntry.TheVariants.{Called, Done, Probed};

use crate::call_entry::{CallEntry, ProbeResult};
use crate::words::with_bytes;
use cl_base::{Epoch, Method, Name, NodeId, Outcome};
use std::alloc::{AllocError, Global};

/// A call of a method, or a monitor's report.
pub fn call_line(alloc: Global, entry: &CallEntry) -> Result<Vec<u8>, AllocError>
    ensures { IfOk result (λ line. line.items ≡ call_text entry.now) }
{
    match entry {
        CallEntry::Called {
            epoch,
            node,
            method,
            resource,
        } => called_line(alloc, *epoch, *node, *method, resource),
        CallEntry::Done {
            epoch,
            node,
            method,
            resource,
            outcome,
        } => done_line(alloc, *epoch, *node, *method, resource, *outcome),
        CallEntry::Probed {
            node,
            resource,
            result: outcome,
        } => probed_line(alloc, *node, resource, *outcome),
    }
}

#[tactic(auto, using(crate::proofs::Joins::joined_once))]
fn called_line(
    alloc: Global,
    epoch: Epoch,
    node: NodeId,
    method: Method,
    resource: &Name,
) -> Result<Vec<u8>, AllocError>
    ensures { IfOk result (λ line. line.items ≡ call_text (Called epoch node method resource.now)) }
{
    let epoch = epoch.number();
    let node = node.number();
    let method = method_word(method);
    with_bytes(
        format!(in alloc; "call {epoch} {node} {method} ")?,
        resource.bytes(),
    )
}

#[tactic(auto, using(crate::proofs::Joins::joined_once))]
fn done_line(
    alloc: Global,
    epoch: Epoch,
    node: NodeId,
    method: Method,
    resource: &Name,
    outcome: Outcome,
) -> Result<Vec<u8>, AllocError>
    ensures { IfOk result (λ line. line.items ≡ call_text (Done epoch node method resource.now outcome)) }
{
    let epoch = epoch.number();
    let node = node.number();
    let method = method_word(method);
    let mut line = with_bytes(
        format!(in alloc; "done {epoch} {node} {method} ")?,
        resource.bytes(),
    )?;
    line.push(b' ')?;
    line.extend_from_slice(outcome_word(outcome).as_bytes())?;
    Ok(line)
}

#[tactic(auto, using(crate::proofs::Joins::joined_once))]
fn probed_line(
    alloc: Global,
    node: NodeId,
    resource: &Name,
    outcome: ProbeResult,
) -> Result<Vec<u8>, AllocError>
    ensures { IfOk result (λ line. line.items ≡ call_text (Probed node resource.now outcome)) }
{
    let node = node.number();
    let mut line = with_bytes(format!(in alloc; "probe {node} ")?, resource.bytes())?;
    line.push(b' ')?;
    line.extend_from_slice(probe_word(outcome).as_bytes())?;
    Ok(line)
}

fn method_word(method: Method) -> &'static str
    ensures { result.now ≡ method_text method }
{
    match method {
        Method::PrenetStart => "PRENET_START",
        Method::Start => "START",
        Method::MonitorStart => "MONITOR_START",
        Method::MonitorCheck => "MONITOR_CHECK",
        Method::MonitorStop => "MONITOR_STOP",
        Method::Stop => "STOP",
        Method::PostnetStop => "POSTNET_STOP",
        Method::Validate => "VALIDATE",
        Method::Init => "INIT",
        Method::Fini => "FINI",
        Method::Boot => "BOOT",
        Method::Update => "UPDATE",
    }
}

fn outcome_word(outcome: Outcome) -> &'static str
    ensures { result.now ≡ outcome_text outcome }
{
    match outcome {
        Outcome::Success => "success",
        Outcome::Failure => "failure",
        Outcome::Timeout => "timeout",
    }
}

fn probe_word(outcome: ProbeResult) -> &'static str
    ensures { result.now ≡ probe_text outcome }
{
    match outcome {
        ProbeResult::Ok => "ok",
        ProbeResult::Restart => "restart",
        ProbeResult::Move => "move",
        ProbeResult::Logged => "logged",
    }
}
