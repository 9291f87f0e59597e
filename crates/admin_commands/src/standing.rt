// Refusals that rest on what is known of groups on nodes.
ghost use Rattle.std.specs.Prelude.{◌≡◌, IfOk};
ghost use Rattle.rg_props.specs.Lookups.{named};
ghost use Rattle.admin_commands.specs.Standing.{group_down_for, has_flag, is_of_group, is_up, is_up_at, no_mark, own_group, still_up, wants_down};

use crate::error::NoMemory;
use crate::numbers::where_so;
use crate::settings::{binds_group, is_dependency};
use ccr_tables::{Config, GroupChange, Update};
use cl_base::{Name, NodeId, NodeSet, Refusal};
use rg_props::Groups;
use rg_view::{GroupView, ResourceAt, ResourceStates};
use std::alloc::Global;

/// 17: the group is up on a member.
pub fn still_up(
    alloc: Global,
    config: &Config,
    view: &GroupView,
    members: NodeSet,
    u: &Update,
) -> Result<Option<Refusal>, NoMemory>
    ensures { IfOk result (λ refusal. refusal ≡ still_up config.now view.entry.now members u.now) }
{
    match wants_down(alloc, config, u)? {
        Some(group) => Ok(where_so(
            is_up(config.groups(), &view.resources, members, &group),
            Refusal::StillUp,
        )),
        None => Ok(None),
    }
}

/// The group that must not be up for the update.
fn wants_down(alloc: Global, config: &Config, u: &Update) -> Result<Option<Name>, NoMemory>
    ensures { IfOk result (λ group. group ≡ wants_down config.now u.now) }
{
    match u {
        Update::ChangeGroup { group, change } => Ok(group_down_for(*change, group)),
        Update::SetGroup {
            group,
            property,
            value,
        } => {
            let binds = binds_group(alloc, config.version(), property.items(), value.items())?;
            Ok(if binds { Some(*group) } else { None })
        }
        Update::SetResource {
            resource,
            property,
            value,
        } => {
            let binds = is_dependency(alloc, property.items(), value.items())?;
            Ok(if binds {
                own_group(config.groups(), resource)
            } else {
                None
            })
        }
        _ => Ok(None),
    }
}

fn group_down_for(change: GroupChange, group: &Name) -> Option<Name>
    ensures { result ≡ group_down_for change group.now }
{
    match change {
        GroupChange::Unmanage => Some(*group),
        GroupChange::Manage
        | GroupChange::Online
        | GroupChange::Offline
        | GroupChange::Suspend
        | GroupChange::Resume => None,
    }
}

fn own_group(groups: &Groups, resource: &Name) -> Option<Name>
    ensures { result ≡ own_group (named groups.now.resources resource.now) }
{
    match groups.resource(resource) {
        Some(r) => Some(r.group),
        None => None,
    }
}

/// Whether a resource of the group has a flag on a member.
#[tactic(auto, using(crate::proofs::Anys::none_more, crate::proofs::Anys::none_past, crate::proofs::Anys::none_there, crate::proofs::Anys::one_here))]
fn is_up(groups: &Groups, states: &ResourceStates, members: NodeSet, group: &Name) -> bool
    ensures { result ≡ is_up groups.now states.now members group.now }
{
    for place in 0..states.len() {
        if let Some(at) = states.get(place)
            && is_up_at(groups, members, group, &at)
        {
            return true;
        }
    }
    false
}

fn is_up_at(groups: &Groups, members: NodeSet, group: &Name, at: &ResourceAt) -> bool
    ensures { result ≡ is_up_at groups.now members group.now at.now }
{
    has_flag(at) && members.has(at.node) && is_of_group(groups, group, &at.resource)
}

fn has_flag(at: &ResourceAt) -> bool
    ensures { result ≡ has_flag at.now }
{
    at.pre || at.run || at.mon
}

fn is_of_group(groups: &Groups, group: &Name, resource: &Name) -> bool
    ensures { result ≡ is_of_group group.now (named groups.now.resources resource.now) }
{
    match groups.resource(resource) {
        Some(r) => r.group.bytes() == group.bytes(),
        None => false,
    }
}

/// 20: the resource has no stop-failed mark on the node.
pub fn no_mark(view: &GroupView, resource: &Name, node: NodeId) -> Option<Refusal>
    ensures { result ≡ no_mark view.entry.now resource.now node }
{
    where_so(
        !view.resources.state(resource, node).stop_failed,
        Refusal::NoMark,
    )
}
