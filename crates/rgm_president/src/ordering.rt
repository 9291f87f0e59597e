// In which order groups and resources are gone through.
ghost use Rattle.std.specs.Prelude.{◌≡◌, ◌++◌, IfOk, OnOk};
ghost use Rattle.rgm_president.specs.Sequence.{groups_in_order, members_in_order, resources_in_order};

use cl_base::{Name, Names};
use rg_deps::{OrderError, group_order, resource_order};
use rg_props::Groups;
use rgm_state::NoMemory;
use std::alloc::Global;

#[tactic(auto, unfolding(crate::specs::Sequence::groups_in_order))]
/// The groups, each after what it rests on.
pub fn groups_in_order(alloc: Global, g: &Groups) -> Result<Vec<Name>, NoMemory>
    ensures { IfOk result (λ names. names.items ≡ groups_in_order g.now) }
{
    match group_order(alloc, g) {
        Ok(names) => Ok(names.into_items()),
        Err(OrderError::Cycle(_)) => Ok(Vec::new(alloc)),
        Err(OrderError::NoMemory) => Err(NoMemory),
    }
}

/// The resources, each after what it rests on, group by group.
pub fn resources_in_order(alloc: Global, g: &Groups, groups: &[Name]) -> Result<Vec<Name>, NoMemory>
    ensures { IfOk result (λ names. names.items ≡ resources_in_order g.now groups.now) }
{
    let mut resources = Vec::new(alloc);
    for group in groups {
        let members = members_in_order(alloc, g, group)?;
        resources.extend_from_slice(&members)?;
    }
    Ok(resources)
}

#[tactic(auto, unfolding(crate::specs::Sequence::members_in_order))]
/// The resources of the group, each after those of it that it rests on.
fn members_in_order(alloc: Global, g: &Groups, group: &Name) -> Result<Vec<Name>, NoMemory>
    ensures { IfOk result (λ names. names.items ≡ members_in_order g.now group.now) }
{
    match resource_order(alloc, g, group) {
        Ok(names) => Ok(names.into_items()),
        Err(OrderError::Cycle(_)) => Ok(Vec::new(alloc)),
        Err(OrderError::NoMemory) => Err(NoMemory),
    }
}
