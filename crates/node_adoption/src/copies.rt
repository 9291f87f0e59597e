// A report once more: the message that it came in is kept by the attempt.
ghost use Rattle.std.specs.Prelude.{◌≡◌, IfOk};

use cl_base::Bytes;
use std::alloc::{AllocError, Global};
use wire::{GroupReport, GroupReports, Report, ResourceReport, ResourceReports};

/// The same report.
pub fn copy_report(alloc: Global, report: &Report) -> Result<Report, AllocError>
    ensures value { IfOk result (λ copy. copy ≡ report.now) }
{
    Ok(Report {
        resources: copy_resources(alloc, report.resources.items())?,
        groups: copy_groups(alloc, report.groups.items())?,
    })
}

fn copy_resources(alloc: Global, reports: &[ResourceReport]) -> Result<ResourceReports, AllocError>
    ensures { IfOk result (λ copy. copy ≡ reports.now) }
{
    let mut copies = Vec::new(alloc);
    for report in reports {
        copies.push(copy_resource(alloc, report)?)?;
    }
    Ok(ResourceReports::new(copies))
}

fn copy_resource(alloc: Global, report: &ResourceReport) -> Result<ResourceReport, AllocError>
    ensures { IfOk result (λ copy. copy ≡ report.now) }
{
    Ok(ResourceReport {
        resource: copy_name(alloc, &report.resource)?,
        marks: report.marks,
    })
}

fn copy_groups(alloc: Global, reports: &[GroupReport]) -> Result<GroupReports, AllocError>
    ensures { IfOk result (λ copy. copy ≡ reports.now) }
{
    let mut copies = Vec::new(alloc);
    for report in reports {
        copies.push(copy_group(alloc, report)?)?;
    }
    Ok(GroupReports::new(copies))
}

fn copy_group(alloc: Global, report: &GroupReport) -> Result<GroupReport, AllocError>
    ensures { IfOk result (λ copy. copy ≡ report.now) }
{
    Ok(GroupReport {
        group: copy_name(alloc, &report.group)?,
        failures: report.failures,
        moved: report.moved,
    })
}

fn copy_name(alloc: Global, name: &Bytes) -> Result<Bytes, AllocError>
    ensures { IfOk result (λ copy. copy ≡ name.now) }
{
    Ok(Bytes::new(name.items().to_vec(alloc)?))
}
