// Refusals of what may not be together.
ghost use Rattle.std.specs.Prelude.{◌≡◌, IfOk};
ghost use Rattle.rt_types.specs.Types.{type_of};
ghost use Rattle.rg_props.specs.Lookups.{group_set, resource_set};
ghost use Rattle.ccr_tables.specs.Changes.{or_same};
ghost use Rattle.ccr_tables.specs.Uses.{is_of_type};
ghost use Rattle.ccr_tables.specs.declared.update.Update.TheVariants.{SetGroup, SetResource};
ghost use Rattle.admin_commands.specs.Orders.{cycle, cycle_of, has_resource, is_single, single};

use crate::error::NoMemory;
use crate::numbers::where_so;
use crate::settings::{is_dependency, orders_groups};
use ccr_tables::{Config, Update};
use cl_base::{Name, Refusal};
use rg_deps::find_cycle;
use rg_props::{Groups, Resource, SetError};
use std::alloc::Global;

/// 18: the groups and resources, as the update leaves them, have a cycle.
pub fn cycle(alloc: Global, config: &Config, u: &Update) -> Result<Option<Refusal>, NoMemory>
    ensures { IfOk result (λ refusal. refusal ≡ cycle config.now u.now) }
{
    match u {
        Update::SetGroup {
            group,
            property,
            value,
        } => cycle_by_group(alloc, config, group, property.items(), value.items()),
        Update::SetResource {
            resource,
            property,
            value,
        } => cycle_by_resource(alloc, config, resource, property.items(), value.items()),
        _ => Ok(None),
    }
}

fn cycle_by_group(
    alloc: Global,
    config: &Config,
    group: &Name,
    property: &[u8],
    value: &[u8],
) -> Result<Option<Refusal>, NoMemory>
    ensures { IfOk result (λ refusal.
        refusal ≡ cycle config.now (SetGroup group.now property.now value.now)) }
{
    if !orders_groups(alloc, config.version(), property, value)? {
        return Ok(None);
    }
    let groups = with_group_set(alloc, config.groups(), group, property, value)?;
    cycle_of(alloc, &groups)
}

fn cycle_by_resource(
    alloc: Global,
    config: &Config,
    resource: &Name,
    property: &[u8],
    value: &[u8],
) -> Result<Option<Refusal>, NoMemory>
    ensures { IfOk result (λ refusal.
        refusal ≡ cycle config.now (SetResource resource.now property.now value.now)) }
{
    if !is_dependency(alloc, property, value)? {
        return Ok(None);
    }
    let groups = with_resource_set(alloc, config.groups(), resource, property, value)?;
    cycle_of(alloc, &groups)
}

#[tactic(auto, unfolding(crate::specs::Orders::cycle_of))]
/// The refusal that names the cycle of the groups and resources, if there is one.
fn cycle_of(alloc: Global, groups: &Groups) -> Result<Option<Refusal>, NoMemory>
    ensures { IfOk result (λ refusal. refusal ≡ cycle_of groups.now) }
{
    match find_cycle(alloc, groups)? {
        Some(names) => Ok(Some(Refusal::Cycle(names))),
        None => Ok(None),
    }
}

/// The groups with the property set, or as they are where it is not.
fn with_group_set(
    alloc: Global,
    groups: &Groups,
    group: &Name,
    property: &[u8],
    value: &[u8],
) -> Result<Groups, NoMemory>
    ensures { IfOk result (λ new.
        new ≡ or_same (group_set groups.now group.now property.now value.now) groups.now) }
{
    let mut new = groups.copy(alloc)?;
    if new.group(group).is_none() {
        return Ok(new);
    }
    match new.set_group(group, property, value) {
        Ok(()) | Err(SetError::BadProperty) | Err(SetError::BadSetting) => Ok(new),
        Err(SetError::NoMemory) => Err(NoMemory),
    }
}

/// The resources with the property set, or as they are where it is not.
fn with_resource_set(
    alloc: Global,
    groups: &Groups,
    resource: &Name,
    property: &[u8],
    value: &[u8],
) -> Result<Groups, NoMemory>
    ensures { IfOk result (λ new.
        new ≡ or_same (resource_set groups.now resource.now property.now value.now) groups.now) }
{
    let mut new = groups.copy(alloc)?;
    if new.resource(resource).is_none() {
        return Ok(new);
    }
    match new.set_resource(resource, property, value) {
        Ok(()) | Err(SetError::BadProperty) | Err(SetError::BadSetting) => Ok(new),
        Err(SetError::NoMemory) => Err(NoMemory),
    }
}

/// 19: the type allows one resource alone, and there is one.
pub fn single(config: &Config, u: &Update) -> Option<Refusal>
    ensures { result ≡ single config.now u.now }
{
    match u {
        Update::CreateResource { resource_type, .. } => where_so(
            is_single(config, resource_type) && has_resource(config, resource_type),
            Refusal::Single,
        ),
        _ => None,
    }
}

fn is_single(config: &Config, name: &Name) -> bool
    ensures { result ≡ is_single (type_of config.now.types name.now) }
{
    match config.types().resource_type(name) {
        Some(t) => t.single(),
        None => false,
    }
}

/// Whether there is a resource of the type.
#[tactic(auto, using(crate::proofs::Anys::none_more, crate::proofs::Anys::none_past, crate::proofs::Anys::none_there, crate::proofs::Anys::one_here))]
fn has_resource(config: &Config, of_type: &Name) -> bool
    ensures { result ≡ has_resource config.now of_type.now }
{
    let groups = config.groups();
    for place in 0..groups.resource_count() {
        if let Some((_, resource)) = groups.resource_at(place)
            && is_of_type(of_type, resource)
        {
            return true;
        }
    }
    false
}

fn is_of_type(name: &Name, resource: &Resource) -> bool
    ensures { result ≡ is_of_type name.now resource.now }
{
    resource.resource_type.bytes() == name.bytes()
}
