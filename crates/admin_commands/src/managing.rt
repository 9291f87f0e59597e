// Refusals that rest on what a group is.
ghost use Rattle.std.specs.Prelude.{◌≡◌};
ghost use Rattle.std.specs.Option.{option_map};
ghost use Rattle.cl_base.specs.declared.refusal.Refusal.TheVariants.{NotListed};
ghost use Rattle.rg_props.specs.Lookups.{named};
ghost use Rattle.ccr_tables.specs.Refusals.{nodelist_of};
ghost use Rattle.ccr_tables.specs.Uses.{has_node};
ghost use Rattle.admin_commands.specs.Managing.{are_too_many, first_outside, group_of, is_managed, is_unmanaged, managed, not_listed, too_many, unmanaged, wants_managed};

use crate::numbers::where_so;
use ccr_tables::{Config, GroupChange, Update};
use cl_base::{Name, NodeId, Refusal};
use rg_props::Groups;

/// 10: the group that is to be deleted is managed, or the group of the resource that is.
pub fn managed(config: &Config, u: &Update) -> Option<Refusal>
    ensures { result ≡ managed config.now u.now }
{
    match u {
        Update::DeleteGroup(name) => where_so(is_managed(config.groups(), name), Refusal::Managed),
        Update::DeleteResource(name) => where_so(
            is_in_managed(config.groups(), name),
            Refusal::Managed,
        ),
        _ => None,
    }
}

fn is_managed(groups: &Groups, group: &Name) -> bool
    ensures { result ≡ is_managed (named groups.now.groups group.now) }
{
    match groups.group(group) {
        Some(g) => g.managed,
        None => false,
    }
}

/// Whether the resource's group is managed.
fn is_in_managed(groups: &Groups, resource: &Name) -> bool
    ensures { result ≡ is_managed (group_of groups.now (named groups.now.resources resource.now)) }
{
    match groups.resource(resource) {
        Some(r) => is_managed(groups, &r.group),
        None => false,
    }
}

/// 11: the group is not managed.
pub fn unmanaged(config: &Config, u: &Update) -> Option<Refusal>
    ensures { result ≡ unmanaged config.now u.now }
{
    match u {
        Update::ChangeGroup { group, change } => where_so(
            wants_managed(*change) && is_unmanaged(config, group),
            Refusal::Unmanaged,
        ),
        Update::SwitchGroup { group, .. } => where_so(
            is_unmanaged(config, group),
            Refusal::Unmanaged,
        ),
        _ => None,
    }
}

fn wants_managed(change: GroupChange) -> bool
    ensures { result ≡ wants_managed change }
{
    match change {
        GroupChange::Manage | GroupChange::Unmanage => false,
        GroupChange::Online | GroupChange::Offline | GroupChange::Suspend | GroupChange::Resume =>
            true,
    }
}

/// Whether the group is there and not managed.
pub fn is_unmanaged(config: &Config, group: &Name) -> bool
    ensures { result ≡ is_unmanaged (named config.now.groups.groups group.now) }
{
    match config.groups().group(group) {
        Some(g) => !g.managed,
        None => false,
    }
}

/// 13: the group is to be on a node that its Nodelist lacks.
pub fn not_listed(config: &Config, u: &Update) -> Option<Refusal>
    ensures { result ≡ not_listed config.now u.now }
{
    match u {
        Update::SwitchGroup { group, nodes } => outside(nodelist(config, group), nodes.items()),
        _ => None,
    }
}

fn nodelist<'a>(config: &'a Config, group: &Name) -> &'a [NodeId]
    ensures { result.now ≡ nodelist_of (named config.now.groups.groups group.now) }
{
    match config.groups().group(group) {
        Some(g) => g.nodelist.items(),
        None => &[],
    }
}

/// The refusal of the first of the nodes that the Nodelist lacks.
fn outside(nodelist: &[NodeId], nodes: &[NodeId]) -> Option<Refusal>
    ensures { result ≡ option_map (λ n. NotListed n) (first_outside nodelist.now nodes.now) }
{
    nodes
        .iter()
        .find(|n| !has_node(**n, nodelist))
        .map(|n| Refusal::NotListed(*n))
}

fn has_node(n: NodeId, nodes: &[NodeId]) -> bool
    ensures { result ≡ has_node n nodes.now }
{
    nodes.iter().any(|m| *m == n)
}

/// 14: the group is to be on more nodes than its Maximum_primaries.
pub fn too_many(config: &Config, u: &Update) -> Option<Refusal>
    ensures { result ≡ too_many config.now u.now }
{
    match u {
        Update::SwitchGroup { group, nodes } => where_so(
            are_too_many(config, group, nodes.items()),
            Refusal::TooMany,
        ),
        _ => None,
    }
}

fn are_too_many(config: &Config, group: &Name, nodes: &[NodeId]) -> bool
    ensures { result ≡ are_too_many (named config.now.groups.groups group.now) nodes.now }
{
    match config.groups().group(group) {
        Some(g) => nodes.len() as u64 > g.maximum,
        None => false,
    }
}
