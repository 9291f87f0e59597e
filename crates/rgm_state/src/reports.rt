// What the reports of the members tell.
ghost use Rattle.std.specs.Prelude.{◌≡◌, IfOk, OnOk};
ghost use Rattle.std.specs.Option.{option_to_list};
ghost use Rattle.rg_props.specs.Words.{name_in};
ghost use Rattle.rgm_state.specs.Reports.{history_from, reported_histories, reported_states, seconds_of, state_from, with_group, with_groups, with_groups_on, with_history_from, with_resource, with_resources, with_resources_on, with_state_from};

use crate::memory::NoMemory;
use cl_base::{Name, NodeId, Seconds};
use rg_view::{GroupAt, GroupHistories, ResourceAt, ResourceStates};
use std::alloc::Global;
use wire::{GroupReport, LastFailures, Marks, Report, ResourceReport};

/// The flags and marks of resources that the members tell.
pub fn reported_states(
    alloc: Global,
    reports: &[(NodeId, Report)],
) -> Result<ResourceStates, NoMemory>
    ensures { IfOk result (λ states. states ≡ reported_states reports.now) }
{
    let mut states = ResourceStates::new(alloc);
    for (n, report) in reports {
        add_resources(&mut states, *n, report.resources.items())?;
    }
    Ok(states)
}

/// What one member tells of resources.
fn add_resources(
    states: &mut ResourceStates,
    n: NodeId,
    reports: &[ResourceReport],
) -> Result<(), NoMemory>
    ensures { OnOk result (states.new ≡ with_resources_on n states.old reports.now) }
{
    for report in reports {
        add_resource(states, n, report)?;
    }
    Ok(())
}

/// What is told of one. A text that is no name tells nothing.
fn add_resource(
    states: &mut ResourceStates,
    n: NodeId,
    report: &ResourceReport,
) -> Result<(), NoMemory>
    ensures { OnOk result (states.new ≡ with_resource n states.old report.now) }
{
    if let Some(r) = name_of(report.resource.items()) {
        states.put(state_from(r, n, report.marks))?;
    }
    Ok(())
}

/// The name that the text is, if it is one.
fn name_of(text: &[u8]) -> Option<Name>
    ensures { result ≡ name_in text.now }
{
    Name::new(text).ok()
}

/// The resource with these flags and marks on the node.
pub fn state_from(resource: Name, node: NodeId, m: Marks) -> ResourceAt
    ensures { result ≡ state_from resource node m }
{
    ResourceAt {
        resource,
        node,
        pre: m.pre,
        run: m.run,
        mon: m.mon,
        faulted: m.faulted,
        stop_failed: m.stop_failed,
        monitor_failed: m.monitor_failed,
    }
}

/// The histories of groups that the members tell.
pub fn reported_histories(
    alloc: Global,
    reports: &[(NodeId, Report)],
) -> Result<GroupHistories, NoMemory>
    ensures { IfOk result (λ histories. histories ≡ reported_histories reports.now) }
{
    let mut histories = GroupHistories::new(alloc);
    for (n, report) in reports {
        add_groups(alloc, &mut histories, *n, report.groups.items())?;
    }
    Ok(histories)
}

/// What one member tells of groups.
fn add_groups(
    alloc: Global,
    histories: &mut GroupHistories,
    n: NodeId,
    reports: &[GroupReport],
) -> Result<(), NoMemory>
    ensures { OnOk result (histories.new ≡ with_groups_on n histories.old reports.now) }
{
    for report in reports {
        add_group(alloc, histories, n, report)?;
    }
    Ok(())
}

/// What is told of one. A text that is no name tells nothing.
fn add_group(
    alloc: Global,
    histories: &mut GroupHistories,
    n: NodeId,
    report: &GroupReport,
) -> Result<(), NoMemory>
    ensures { OnOk result (histories.new ≡ with_group n histories.old report.now) }
{
    if let Some(g) = name_of(report.group.items()) {
        histories.put(history_from(alloc, g, n, report)?)?;
    }
    Ok(())
}

/// What is told of the group on the node.
fn history_from(
    alloc: Global,
    group: Name,
    node: NodeId,
    report: &GroupReport,
) -> Result<GroupAt, NoMemory>
    ensures { IfOk result (λ h. h ≡ history_from group node report.now) }
{
    Ok(GroupAt {
        group,
        node,
        failures: seconds_of(alloc, report.failures)?,
        moves: moves_of(alloc, report.moved)?,
    })
}

fn seconds_of(alloc: Global, failures: LastFailures) -> Result<Seconds, NoMemory>
    ensures { IfOk result (λ seconds. seconds ≡ seconds_of failures) }
{
    let seconds = match failures {
        LastFailures::Never => Vec::new(alloc),
        LastFailures::Once(first) => vec![in alloc; first]?,
        LastFailures::Twice(first, second) => vec![in alloc; first, second]?,
    };
    Ok(Seconds::new(seconds))
}

fn moves_of(alloc: Global, moved: Option<u64>) -> Result<Seconds, NoMemory>
    ensures { IfOk result (λ seconds. seconds ≡ option_to_list moved) }
{
    match moved {
        Some(second) => Ok(Seconds::new(vec![in alloc; second]?)),
        None => Ok(Seconds::new(Vec::new(alloc))),
    }
}
