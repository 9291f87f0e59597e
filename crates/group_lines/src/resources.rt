// How resources stand.
ghost use Rattle.std.specs.Prelude.{◌≡◌, ◌++◌, ◌∷◌, [], IfOk, OnOk, map, slice_get};
ghost use Rattle.std.specs.Option.{option_copied};
ghost use Rattle.group_lines.specs.Resources.{line_on, lines_in, lines_of, resource_lines, resource_state};
ghost use Rattle.group_lines.specs.Places.{made_of};

use ccr_tables::Config;
use cl_base::{Name, NodeId, ResourceState};
use rg_props::Group;
use rg_view::{GroupView, ResourceAt, ResourceStates};
use rgm_president::NoMemory;
use status_report::StatusEntry;
use std::alloc::{AllocError, Global};

#[tactic(auto, using(crate::proofs::Places::one_more_place))]
/// How each resource stands on each node of its group's Nodelist: resources in order of creation, and
/// the nodes of each in the Nodelist's order.
pub fn resource_lines(
    alloc: Global,
    c: &Config,
    view: &GroupView,
) -> Result<Vec<StatusEntry>, NoMemory>
    ensures value { IfOk result (λ lines. lines.items ≡ resource_lines c.now view.entry.now) }
{
    let mut lines = Vec::new(alloc);
    for place in 0..c.groups().resource_count() {
        push_resource(&mut lines, c, &view.resources, place)?;
    }
    Ok(lines)
}

/// The lines of the resource at this place in order of creation.
fn push_resource(
    lines: &mut Vec<StatusEntry>,
    c: &Config,
    states: &ResourceStates,
    place: usize,
) -> Result<(), AllocError>
    ensures { OnOk result (lines.new.items ≡ lines.old.items ++ made_of (lines_of c.now.groups states.now) (slice_get c.now.groups.resources place)) }
{
    if let Some((name, resource)) = c.groups().resource_at(place) {
        push_in(lines, states, name, c.groups().group(&resource.group))?;
    }
    Ok(())
}

/// The lines of the resource of this group.
fn push_in(
    lines: &mut Vec<StatusEntry>,
    states: &ResourceStates,
    r: &Name,
    group: Option<&Group>,
) -> Result<(), AllocError>
    ensures { OnOk result (lines.new.items ≡ lines.old.items ++ lines_in states.now r.now (option_copied group.entry)) }
{
    match group {
        Some(group) => push_nodes(lines, states, r, group.nodelist.items()),
        None => Ok(()),
    }
}

/// The lines of the resource on these nodes.
fn push_nodes(
    lines: &mut Vec<StatusEntry>,
    states: &ResourceStates,
    r: &Name,
    nodes: &[NodeId],
) -> Result<(), AllocError>
    ensures { OnOk result (lines.new.items ≡ lines.old.items ++ map (line_on states.now r.now) nodes.now) }
{
    for node in nodes {
        push_node(lines, states, r, *node)?;
    }
    Ok(())
}

/// How the resource stands on the node.
fn push_node(
    lines: &mut Vec<StatusEntry>,
    states: &ResourceStates,
    r: &Name,
    node: NodeId,
) -> Result<(), AllocError>
    ensures { OnOk result (lines.new.items ≡ lines.old.items ++ line_on states.now r.now node ∷ []) }
{
    lines.push(StatusEntry::Resource {
        resource: *r,
        node,
        state: resource_state(states.state(r, node)),
    })?;
    Ok(())
}

/// How a resource of these flags and marks stands.
fn resource_state(s: ResourceAt) -> ResourceState
    ensures { result ≡ resource_state s }
{
    if s.stop_failed {
        ResourceState::StopFailed
    } else if s.faulted {
        ResourceState::StartFailed
    } else if s.run {
        ResourceState::Online
    } else if s.pre {
        ResourceState::Starting
    } else {
        ResourceState::Offline
    }
}
