ghost use Rattle.std.specs.Prelude.{◌≡◌, ◌++◌, IfOk, OnOk, is_some};
ghost use Rattle.rgm_member.specs.Reports.{group_report, group_reports, has_failed, has_mark, has_past, report_of, resource_report, resource_reports};

use crate::memory::NoMemory;
use crate::past::Past;
use crate::tables::{marks_of, past_of};
use crate::worker::Worker;
use ccr_tables::Config;
use cl_base::{Bytes, Name};
use indexmap::IndexMap;
use rg_props::Groups;
use std::alloc::Global;
use wire::{
    GroupReport, GroupReports, LastFailures, Marks, Report, ResourceReport, ResourceReports,
};

impl Worker {
    /// What the node reports as it joins a membership: the resources with a flag or a mark and the
    /// groups with a start failure or a move, each in order of creation.
    pub fn report(&self, alloc: Global, c: &Config) -> Result<Report, NoMemory>
        ensures value { IfOk result (λ report. report ≡ report_of self.now c.now) }
    {
        Ok(Report {
            resources: resource_reports(alloc, &self.resources, c.groups())?,
            groups: group_reports(alloc, &self.groups, c.groups())?,
        })
    }
}

fn resource_reports(
    alloc: Global,
    resources: &IndexMap<Name, Marks>,
    groups: &Groups,
) -> Result<ResourceReports, NoMemory>
    ensures { IfOk result (λ reports. reports ≡ resource_reports resources.now.entries groups.now.resources) }
{
    let mut reports = Vec::new(alloc);
    for place in 0..groups.resource_count() {
        if let Some((r, _)) = groups.resource_at(place) {
            add_resource(alloc, &mut reports, r, marks_of(resources, r))?;
        }
    }
    Ok(ResourceReports::new(reports))
}

/// Reports the resource, where it has a flag or a mark.
fn add_resource(
    alloc: Global,
    reports: &mut Vec<ResourceReport>,
    r: &Name,
    marks: Marks,
) -> Result<(), NoMemory>
    ensures { OnOk result (reports.new.items ≡ reports.old.items ++ resource_report r.now marks) }
{
    if has_mark(marks) {
        let resource = Bytes::new(Vec::from_slice(alloc, r.bytes())?);
        reports.push(ResourceReport { resource, marks })?;
    }
    Ok(())
}

fn has_mark(m: Marks) -> bool
    ensures { result ≡ has_mark m }
{
    m.pre || m.run || m.mon || m.faulted || m.stop_failed || m.monitor_failed
}

fn group_reports(
    alloc: Global,
    kept: &IndexMap<Name, Past>,
    groups: &Groups,
) -> Result<GroupReports, NoMemory>
    ensures { IfOk result (λ reports. reports ≡ group_reports kept.now.entries groups.now.groups) }
{
    let mut reports = Vec::new(alloc);
    for place in 0..groups.group_count() {
        if let Some((g, _)) = groups.group_at(place) {
            add_group(alloc, &mut reports, g, past_of(kept, g))?;
        }
    }
    Ok(GroupReports::new(reports))
}

/// Reports the group, where it has a start failure or a move.
fn add_group(
    alloc: Global,
    reports: &mut Vec<GroupReport>,
    g: &Name,
    past: Past,
) -> Result<(), NoMemory>
    ensures { OnOk result (reports.new.items ≡ reports.old.items ++ group_report g.now past) }
{
    if has_past(past) {
        let group = Bytes::new(Vec::from_slice(alloc, g.bytes())?);
        reports.push(GroupReport {
            group,
            failures: past.failures,
            moved: past.moved,
        })?;
    }
    Ok(())
}

fn has_past(p: Past) -> bool
    ensures { result ≡ has_past p }
{
    has_failed(p.failures) || p.moved.is_some()
}

fn has_failed(failures: LastFailures) -> bool
    ensures { result ≡ has_failed failures }
{
    match failures {
        LastFailures::Never => false,
        LastFailures::Once(_) | LastFailures::Twice(_, _) => true,
    }
}
