ghost use Rattle.std.specs.Prelude.{◌≡◌, OnOk, fold};
ghost use Rattle.std.specs.Option.{option_copied};
ghost use Rattle.rg_props.specs.Lookups.{named};
ghost use Rattle.rgm_state.specs.Changes.{after_update, group_changed, group_forgotten, online_goal, put_online, resource_changed, resource_forgotten, unfaulted};

use crate::asks::send_to;
use crate::memory::NoMemory;
use crate::nodes::{first_members, set_of};
use ccr_tables::{Config, GroupChange, ResourceChange, Update};
use cl_base::{Name, NodeId, NodeSet};
use rg_props::Group;
use rg_view::{GroupView, ResourceAt, ResourceStates};
use std::alloc::Global;

/// What the update changes, `c` being the configuration with it.
///
/// `online` and `switch` end a group's evacuations; `switch` sets its previous goal, and `online` too
/// where the group is suspended and has none. A disabled resource is not faulted. Of what is deleted
/// nothing is known.
pub fn update(alloc: Global, view: &mut GroupView, u: &Update, c: &Config) -> Result<(), NoMemory>
    ensures value { OnOk result (view.new ≡ after_update c.now u.now view.old) }
{
    match u {
        Update::ChangeGroup { group, change } => change_group(view, *group, *change, c),
        Update::SwitchGroup { group, nodes } => send_to(view, *group, set_of(nodes.items())),
        Update::DeleteGroup(group) => {
            forget_group(view, group);
            Ok(())
        }
        Update::ChangeResource { resource, change } => {
            change_resource(alloc, view, resource, *change)
        }
        Update::DeleteResource(resource) => {
            view.resources.remove_resource(resource);
            view.restarting.remove_all(resource);
            Ok(())
        }
        Update::RegisterType { .. }
        | Update::UnregisterType(_)
        | Update::CreateGroup { .. }
        | Update::SetGroup { .. }
        | Update::CreateResource { .. }
        | Update::SetResource { .. }
        | Update::Device { .. }
        | Update::NodeVote { .. }
        | Update::AddNode(_)
        | Update::RemoveNode(_)
        | Update::CreateLimit { .. }
        | Update::DeleteLimit { .. }
        | Update::CreateAddress { .. }
        | Update::DeleteAddress(_)
        | Update::SetWeights { .. } => Ok(()),
    }
}

fn change_group(
    view: &mut GroupView,
    name: Name,
    change: GroupChange,
    c: &Config,
) -> Result<(), NoMemory>
    ensures { OnOk result (view.new ≡ group_changed c.now name view.old change) }
{
    match change {
        GroupChange::Online => put_online(view, name, c.groups().group(&name)),
        GroupChange::Manage
        | GroupChange::Unmanage
        | GroupChange::Offline
        | GroupChange::Suspend
        | GroupChange::Resume => Ok(()),
    }
}

/// The group is wanted online.
fn put_online(view: &mut GroupView, name: Name, group: Option<&Group>) -> Result<(), NoMemory>
    ensures { OnOk result (view.new ≡ put_online name view.old (option_copied group.entry)) }
{
    match group {
        Some(group) => {
            let nodes = online_goal(view.members, view.goals.goal(&name), group);
            send_to(view, name, nodes)
        }
        None => Ok(()),
    }
}

fn online_goal(members: NodeSet, goal: NodeSet, group: &Group) -> NodeSet
    ensures { result ≡ online_goal members goal group.now }
{
    if group.suspended && goal.bits() == 0 {
        first_members(members, group)
    } else {
        goal
    }
}

fn forget_group(view: &mut GroupView, group: &Name)
    ensures { view.new ≡ group_forgotten group.now view.old }
{
    view.groups.remove_group(group);
    view.goals.remove(group);
    view.evacuated.remove_all(group);
    view.leaving.remove_all(group);
}

fn change_resource(
    alloc: Global,
    view: &mut GroupView,
    r: &Name,
    change: ResourceChange,
) -> Result<(), NoMemory>
    ensures { OnOk result (view.new ≡ resource_changed r.now view.old change) }
{
    match change {
        ResourceChange::Disable => {
            let members = view.members.nodes(alloc)?;
            clear_faulted(&mut view.resources, r, &members)
        }
        ResourceChange::Enable | ResourceChange::Monitor | ResourceChange::Unmonitor => Ok(()),
    }
}

/// Ends the mark faulted of the resource on these nodes.
fn clear_faulted(states: &mut ResourceStates, r: &Name, nodes: &[NodeId]) -> Result<(), NoMemory>
    ensures { OnOk result (states.new ≡ fold (unfaulted r.now) states.old nodes.now) }
{
    for n in nodes {
        clear_fault(states, r, *n)?;
    }
    Ok(())
}

/// Ends the mark faulted of the resource on the node.
pub fn clear_fault(states: &mut ResourceStates, r: &Name, n: NodeId) -> Result<(), NoMemory>
    ensures value { OnOk result (states.new ≡ unfaulted r.now states.old n) }
{
    let state = states.state(r, n);
    if state.faulted {
        states.put(ResourceAt {
            faulted: false,
            ..state
        })?;
    }
    Ok(())
}
