ghost use Rattle.std.specs.Prelude.{◌≡◌, ◌⊎◌, Ok, Err, IfOk, IfErr};
ghost use Rattle.rg_deps.specs.declared.error.OrderError.TheVariants.{NoMemory};
ghost use Rattle.rg_deps.specs.Cycles.{arrangement};
ghost use Rattle.rg_deps.specs.Edges.{group_edges, member_edges, resource_edges};
ghost use Rattle.rg_deps.specs.Orderings.{first_cycle, group_ordering, resource_cycle, resource_ordering};
ghost use Rattle.rg_deps.specs.Things.{group_things, member_things, resource_things};

use crate::arrange::{Places, arrange};
use crate::edges::{group_edges, member_edges, resource_edges};
use crate::error::OrderError;
use crate::things::{group_names, group_things, member_things, resource_names, resource_things};
use cl_base::{Name, Names};
use rg_props::Groups;
use std::alloc::{AllocError, Global};

/// The groups, each after those that it depends on or declares a strong affinity to, and those
/// whose resources its own depend on. Of those that may come next the first created does, and under
/// the second version the first of the greatest priority.
pub fn group_order(alloc: Global, g: &Groups) -> Result<Names, OrderError>
    ensures order { IfOk result (λ names. group_ordering g.now ≡ Ok names) }
    ensures error { IfErr result (λ e. (e ≡ NoMemory) ⊎ (group_ordering g.now ≡ Err e)) }
{
    match arrange_groups(alloc, g)? {
        Ok(places) => Ok(group_names(alloc, g, places.items())?),
        Err(places) => Err(OrderError::Cycle(group_names(alloc, g, places.items())?)),
    }
}

/// The resources of a group, each after those of the group that it depends on. Of those that may
/// come next the first created does.
pub fn resource_order(alloc: Global, g: &Groups, group: &Name) -> Result<Names, OrderError>
    ensures order { IfOk result (λ names. resource_ordering g.now group.now ≡ Ok names) }
    ensures error { IfErr result (λ e. (e ≡ NoMemory) ⊎ (resource_ordering g.now group.now ≡ Err e)) }
{
    match arrange_members(alloc, g, group)? {
        Ok(places) => Ok(resource_names(alloc, g, places.items())?),
        Err(places) => Err(OrderError::Cycle(resource_names(alloc, g, places.items())?)),
    }
}

/// A cycle of groups, or else one of the resources of a group; None where there is no cycle.
pub fn find_cycle(alloc: Global, g: &Groups) -> Result<Option<Names>, AllocError>
    ensures { IfOk result (λ cycle. cycle ≡ first_cycle g.now) }
{
    match arrange_groups(alloc, g)? {
        Ok(_) => cycle_of_resources(alloc, g),
        Err(places) => Ok(Some(group_names(alloc, g, places.items())?)),
    }
}

fn cycle_of_resources(alloc: Global, g: &Groups) -> Result<Option<Names>, AllocError>
    ensures { IfOk result (λ cycle. cycle ≡ resource_cycle g.now) }
{
    match arrange_resources(alloc, g)? {
        Ok(_) => Ok(None),
        Err(places) => Ok(Some(resource_names(alloc, g, places.items())?)),
    }
}

fn arrange_groups(alloc: Global, g: &Groups) -> Result<Result<Places, Places>, AllocError>
    ensures { IfOk result (λ r. r ≡ arrangement (group_things g.now) (group_edges g.now)) }
{
    let things = group_things(alloc, g)?;
    let edges = group_edges(alloc, g)?;
    arrange(alloc, &things, &edges, g.group_count())
}

fn arrange_members(
    alloc: Global,
    g: &Groups,
    group: &Name,
) -> Result<Result<Places, Places>, AllocError>
    ensures { IfOk result (λ r. r ≡ arrangement (member_things g.now group.now) (member_edges g.now group.now)) }
{
    let things = member_things(alloc, g, group)?;
    let edges = member_edges(alloc, g, group)?;
    arrange(alloc, &things, &edges, g.resource_count())
}

fn arrange_resources(alloc: Global, g: &Groups) -> Result<Result<Places, Places>, AllocError>
    ensures { IfOk result (λ r. r ≡ arrangement (resource_things g.now) (resource_edges g.now)) }
{
    let things = resource_things(alloc, g)?;
    let edges = resource_edges(alloc, g)?;
    arrange(alloc, &things, &edges, g.resource_count())
}
