// The flags and marks with which a membership starts, as they are told.
ghost use Rattle.std.specs.Prelude.{◌≡◌, ◌++◌, OnOk};
ghost use Rattle.node_model.specs.Attempts.{adopted_line, adopted_lines, adopted_of, adopted_on, flags_of, is_adopted};
ghost use Rattle.node_model.specs.Configurations.{in_force};

use cl_base::{Epoch, Name, NodeId};
use node_decisions::in_force;
use node_model::{Cluster, Output, UpNode, give};
use rg_props::Groups;
use rg_view::{GroupView, ResourceAt};
use status_report::{AdoptedFlags, Entry, StartEntry};
use std::alloc::{AllocError, Global};

/// The president tells what it has adopted: of each member, ascending, each resource of the
/// configuration in force that has a flag or a mark there, in order of creation.
pub fn tell_adopted(
    alloc: Global,
    cluster: &Cluster,
    epoch: Epoch,
    up: &mut UpNode,
    out: &mut Vec<Output>,
) -> Result<(), AllocError>
    ensures told { OnOk result (out.new.items ≡ out.old.items ++ adopted_of epoch (in_force cluster.now up.old) up.old.presidency) }
    ensures same { up.new ≡ up.old }
{
    let Some(presidency) = &up.presidency else {
        return Ok(());
    };
    let config = in_force(alloc, cluster, &mut up.made, &up.seat)?;
    tell_flags(alloc, epoch, presidency.groups.view(), config.groups(), out)
}

fn tell_flags(
    alloc: Global,
    epoch: Epoch,
    view: &GroupView,
    groups: &Groups,
    out: &mut Vec<Output>,
) -> Result<(), AllocError>
    ensures { OnOk result (out.new.items ≡ out.old.items ++ adopted_lines epoch view.entry.now groups.now.resources) }
{
    let members = view.members.nodes(alloc)?;
    for member in &members {
        tell_member(epoch, *member, view, groups, out)?;
    }
    Ok(())
}

/// The resources that have a flag or a mark on this node.
fn tell_member(
    epoch: Epoch,
    node: NodeId,
    view: &GroupView,
    groups: &Groups,
    out: &mut Vec<Output>,
) -> Result<(), AllocError>
    ensures { OnOk result (out.new.items ≡ out.old.items ++ adopted_on epoch view.entry.now groups.now.resources node) }
{
    for place in 0..groups.resource_count() {
        if let Some((r, _)) = groups.resource_at(place) {
            tell_resource(epoch, node, *r, view.resources.state(r, node), out)?;
        }
    }
    Ok(())
}

fn tell_resource(
    epoch: Epoch,
    node: NodeId,
    resource: Name,
    state: ResourceAt,
    out: &mut Vec<Output>,
) -> Result<(), AllocError>
    ensures { OnOk result (out.new.items ≡ out.old.items ++ adopted_line epoch node resource state) }
{
    if is_adopted(&state) {
        let flags = flags_of(&state);
        let entry = StartEntry::Adopted {
            epoch,
            node,
            resource,
            flags,
        };
        give(out, Output::Tells(Entry::Start(entry)))?;
    }
    Ok(())
}

fn is_adopted(state: &ResourceAt) -> bool
    ensures { result ≡ is_adopted state.now }
{
    state.pre || state.run || state.mon || state.faulted || state.stop_failed
}

fn flags_of(state: &ResourceAt) -> AdoptedFlags
    ensures { result ≡ flags_of state.now }
{
    AdoptedFlags {
        pre: state.pre,
        run: state.run,
        mon: state.mon,
        faulted: state.faulted,
        stop_failed: state.stop_failed,
    }
}
