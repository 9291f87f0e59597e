ghost use Rattle.std.specs.Prelude.{◌≡◌, ◌<◌, ◌++◌, IfOk, OnOk, length, slice_get};
ghost use Rattle.std.specs.List.{All};
ghost use Rattle.std.specs.Option.{option_map, option_to_list};
ghost use Rattle.rg_deps.specs.Things.{group_things, member_things, names_at, rank, resource_things};

use crate::graph::Thing;
use cl_base::{Items, Name, Names, Version};
use rg_props::{Group, Groups};
use std::alloc::{AllocError, Global};

#[tactic(auto, using(crate::proofs::Steps::collected_more))]
/// The groups as things that are to be ordered.
pub fn group_things(alloc: Global, g: &Groups) -> Result<Vec<Thing>, AllocError>
    ensures things { IfOk result (λ things. things.items ≡ group_things g.now) }
    ensures below { IfOk result (λ things. All (λ t. t.place < length g.now.groups) things.items) }
{
    let mut things = Vec::new(alloc);
    for place in 0..g.group_count() {
        if let Some((_, group)) = g.group_at(place) {
            let priority = rank(g.version(), group);
            things.push(Thing { place, priority })?;
        }
    }
    Ok(things)
}

/// Priorities count from the second version on.
fn rank(version: Version, group: &Group) -> u64
    ensures { result ≡ rank version group.now }
{
    match version {
        Version::One => 0,
        Version::Two => group.priority,
    }
}

#[tactic(auto, using(crate::proofs::Steps::collected_more))]
/// The resources of all groups.
pub fn resource_things(alloc: Global, g: &Groups) -> Result<Vec<Thing>, AllocError>
    ensures things { IfOk result (λ things. things.items ≡ resource_things g.now) }
    ensures below { IfOk result (λ things. All (λ t. t.place < length g.now.resources) things.items) }
{
    let mut things = Vec::new(alloc);
    for place in 0..g.resource_count() {
        if g.resource_at(place).is_some() {
            things.push(Thing { place, priority: 0 })?;
        }
    }
    Ok(things)
}

#[tactic(auto, using(crate::proofs::Steps::collected_more))]
/// The resources of one group.
pub fn member_things(alloc: Global, g: &Groups, group: &Name) -> Result<Vec<Thing>, AllocError>
    ensures things { IfOk result (λ things. things.items ≡ member_things g.now group.now) }
    ensures below { IfOk result (λ things. All (λ t. t.place < length g.now.resources) things.items) }
{
    let mut things = Vec::new(alloc);
    for place in 0..g.resource_count() {
        if let Some((_, r)) = g.resource_at(place) {
            if r.group.bytes() == group.bytes() {
                things.push(Thing { place, priority: 0 })?;
            }
        }
    }
    Ok(things)
}

/// The names of the groups at these places.
pub fn group_names(alloc: Global, g: &Groups, places: &[usize]) -> Result<Names, AllocError>
    ensures { IfOk result (λ names. names ≡ names_at g.now.groups places.now) }
{
    let mut names = Vec::new(alloc);
    for place in places {
        push_name(&mut names, group_name(g, *place))?;
    }
    Ok(Items::new(names))
}

fn group_name(g: &Groups, place: usize) -> Option<Name>
    ensures { result ≡ option_map (λ e. e.0) (slice_get g.now.groups place) }
{
    g.group_at(place).map(|(name, _)| *name)
}

fn push_name(names: &mut Vec<Name>, name: Option<Name>) -> Result<(), AllocError>
    ensures { OnOk result (names.new.items ≡ names.old.items ++ option_to_list name) }
{
    if let Some(name) = name {
        names.push(name)?;
    }
    Ok(())
}

/// The names of the resources at these places.
pub fn resource_names(alloc: Global, g: &Groups, places: &[usize]) -> Result<Names, AllocError>
    ensures { IfOk result (λ names. names ≡ names_at g.now.resources places.now) }
{
    let mut names = Vec::new(alloc);
    for place in places {
        push_name(&mut names, resource_name(g, *place))?;
    }
    Ok(Items::new(names))
}

fn resource_name(g: &Groups, place: usize) -> Option<Name>
    ensures { result ≡ option_map (λ e. e.0) (slice_get g.now.resources place) }
{
    g.resource_at(place).map(|(name, _)| *name)
}
