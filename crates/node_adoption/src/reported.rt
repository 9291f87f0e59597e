// What the members report as a membership starts.
ghost use Rattle.std.specs.Prelude.{◌≡◌, ◌++◌, IfOk, OnOk};
ghost use Rattle.node_model.specs.Attempts.{report_for, report_shown, reports_of};

use crate::copies::copy_report;
use cl_base::NodeId;
use cmm_attempt::Attempt;
use std::alloc::{AllocError, Global};
use wire::{Body, Report};

/// What the attempt's members report, ascending: this of the node itself, and of each other one what
/// its Ready says.
pub fn reports(
    alloc: Global,
    me: NodeId,
    own: &Report,
    attempt: &Attempt,
) -> Result<Vec<(NodeId, Report)>, AllocError>
    ensures value { IfOk result (λ reports. reports.items ≡ reports_of me own.now attempt.now) }
{
    let members = attempt.members().nodes(alloc)?;
    let mut reports = Vec::new(alloc);
    for member in &members {
        add_report(alloc, me, own, attempt, *member, &mut reports)?;
    }
    Ok(reports)
}

/// Adds what the member reports.
fn add_report(
    alloc: Global,
    me: NodeId,
    own: &Report,
    attempt: &Attempt,
    member: NodeId,
    reports: &mut Vec<(NodeId, Report)>,
) -> Result<(), AllocError>
    ensures { OnOk result (reports.new.items ≡ reports.old.items ++ report_for me own.now attempt.now member) }
{
    if member == me {
        reports.push((member, copy_report(alloc, own)?))?;
        return Ok(());
    }
    match attempt.ready_of(member) {
        Some(ready) => add_shown(alloc, member, &ready.body, reports),
        None => Ok(()),
    }
}

/// Adds what the member's message shows.
fn add_shown(
    alloc: Global,
    member: NodeId,
    body: &Body,
    reports: &mut Vec<(NodeId, Report)>,
) -> Result<(), AllocError>
    ensures { OnOk result (reports.new.items ≡ reports.old.items ++ report_shown member body.now) }
{
    if let Body::Ready { report, .. } = body {
        reports.push((member, copy_report(alloc, report)?))?;
    }
    Ok(())
}
