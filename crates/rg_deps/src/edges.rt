ghost use Rattle.std.specs.Prelude.{◌≡◌, ◌++◌, ◌∷◌, IfOk, OnOk, length, slice_get, Option, Some};
ghost use Rattle.std.specs.List.{filter_map};
ghost use Rattle.std.specs.Option.{option_to_list};
ghost use Rattle.rg_deps.specs.Edges.{crossing, crossing_edges, crossing_edges_at, crossings, edge, edge_of_affinity, edge_to_group, edges_of_group, group_edges, inner_edges, inner_edges_at, inner_edges_to, is_strong, member_edges, member_edges_at, member_place, resource_edges, strong_target};
ghost use Rattle.rg_deps.specs.Things.{collected};
ghost use Rattle.rg_props.specs.Lookups.{place_of};

use crate::graph::Edge;
use cl_base::Name;
use rg_props::{Affine, Affinity, Group, Groups, Resource};
use std::alloc::{AllocError, Global};

#[tactic(auto, using(crate::proofs::Steps::collected_more))]
/// Which groups come after which.
pub fn group_edges(alloc: Global, g: &Groups) -> Result<Vec<Edge>, AllocError>
    ensures { IfOk result (λ edges. edges.items ≡ group_edges g.now) }
{
    let mut edges = Vec::new(alloc);
    for place in 0..g.group_count() {
        if let Some((_, group)) = g.group_at(place) {
            push_group(g, place, group, &mut edges)?;
        }
    }
    push_all_crossings(g, &mut edges)?;
    Ok(edges)
}

/// The edges of one group's own properties.
fn push_group(
    g: &Groups,
    place: usize,
    group: &Group,
    edges: &mut Vec<Edge>,
) -> Result<(), AllocError>
    ensures { OnOk result (edges.new.items ≡ edges.old.items ++ (filter_map (edge_to_group g.now place) group.now.dependencies ++ filter_map (edge_of_affinity g.now place) group.now.affinities)) }
{
    push_dependencies(g, place, group.dependencies.items(), edges)?;
    push_affinities(g, place, group.affinities.items(), edges)
}

fn push_dependencies(
    g: &Groups,
    place: usize,
    names: &[Name],
    edges: &mut Vec<Edge>,
) -> Result<(), AllocError>
    ensures { OnOk result (edges.new.items ≡ edges.old.items ++ filter_map (edge_to_group g.now place) names.now) }
{
    for name in names {
        push(edges, place, g.group_place(name))?;
    }
    Ok(())
}

fn push_affinities(
    g: &Groups,
    place: usize,
    affinities: &[Affine],
    edges: &mut Vec<Edge>,
) -> Result<(), AllocError>
    ensures { OnOk result (edges.new.items ≡ edges.old.items ++ filter_map (edge_of_affinity g.now place) affinities.now) }
{
    for a in affinities {
        push(edges, place, strong_target(g, a))?;
    }
    Ok(())
}

/// The place of the group that a strong affinity is declared to.
fn strong_target(g: &Groups, a: &Affine) -> Option<usize>
    ensures { result ≡ strong_target g.now a.now }
{
    if is_strong(a.affinity) {
        g.group_place(&a.group)
    } else {
        None
    }
}

/// Whether it orders groups.
fn is_strong(affinity: Affinity) -> bool
    ensures { result ≡ is_strong affinity }
{
    match affinity {
        Affinity::PlusPlus | Affinity::MinusMinus | Affinity::PlusPlusPlus => true,
        Affinity::Plus | Affinity::Minus => false,
    }
}

/// An edge to the target, where there is one.
fn push(edges: &mut Vec<Edge>, from: usize, to: Option<usize>) -> Result<(), AllocError>
    ensures { OnOk result (edges.new.items ≡ edges.old.items ++ option_to_list (edge from to)) }
{
    if let Some(to) = to {
        edges.push(Edge { from, to })?;
    }
    Ok(())
}

#[tactic(auto, using(crate::proofs::Steps::collected_more))]
/// The edges between groups that come of their resources.
fn push_all_crossings(g: &Groups, edges: &mut Vec<Edge>) -> Result<(), AllocError>
    ensures { OnOk result (edges.new.items ≡ edges.old.items ++ collected (λ p. crossing_edges_at g.now (slice_get g.now.resources p)) (length g.now.resources)) }
{
    for place in 0..g.resource_count() {
        if let Some((_, r)) = g.resource_at(place) {
            push_crossings_of(g, r, edges)?;
        }
    }
    Ok(())
}

fn push_crossings_of(g: &Groups, r: &Resource, edges: &mut Vec<Edge>) -> Result<(), AllocError>
    ensures { OnOk result (edges.new.items ≡ edges.old.items ++ crossing_edges g.now r.now (place_of g.now.groups r.now.group)) }
{
    let Some(place) = g.group_place(&r.group) else {
        return Ok(());
    };
    push_crossings(g, &r.group, place, r.strong.items(), edges)?;
    push_crossings(g, &r.group, place, r.weak.items(), edges)?;
    push_crossings(g, &r.group, place, r.offline_restart.items(), edges)
}

fn push_crossings(
    g: &Groups,
    group: &Name,
    place: usize,
    names: &[Name],
    edges: &mut Vec<Edge>,
) -> Result<(), AllocError>
    ensures { OnOk result (edges.new.items ≡ edges.old.items ++ crossings g.now group.now place names.now) }
{
    for name in names {
        push(edges, place, crossing(g, group, name))?;
    }
    Ok(())
}

/// The place of the other group that a resource of this group depends on.
fn crossing(g: &Groups, group: &Name, name: &Name) -> Option<usize>
    ensures { result ≡ crossing g.now group.now name.now }
{
    let (_, target) = g.resource_at(g.resource_place(name)?)?;
    if target.group.bytes() == group.bytes() {
        return None;
    }
    g.group_place(&target.group)
}

#[tactic(auto, using(crate::proofs::Steps::collected_more))]
/// Which resources come after which, in all groups.
pub fn resource_edges(alloc: Global, g: &Groups) -> Result<Vec<Edge>, AllocError>
    ensures { IfOk result (λ edges. edges.items ≡ resource_edges g.now) }
{
    let mut edges = Vec::new(alloc);
    for place in 0..g.resource_count() {
        if let Some((_, r)) = g.resource_at(place) {
            push_inner(g, place, r, &mut edges)?;
        }
    }
    Ok(edges)
}

#[tactic(auto, using(crate::proofs::Steps::collected_more))]
/// Which resources of one group come after which.
pub fn member_edges(alloc: Global, g: &Groups, group: &Name) -> Result<Vec<Edge>, AllocError>
    ensures { IfOk result (λ edges. edges.items ≡ member_edges g.now group.now) }
{
    let mut edges = Vec::new(alloc);
    for place in 0..g.resource_count() {
        if let Some((_, r)) = g.resource_at(place) {
            if r.group.bytes() == group.bytes() {
                push_inner(g, place, r, &mut edges)?;
            }
        }
    }
    Ok(edges)
}

fn push_inner(
    g: &Groups,
    place: usize,
    r: &Resource,
    edges: &mut Vec<Edge>,
) -> Result<(), AllocError>
    ensures { OnOk result (edges.new.items ≡ edges.old.items ++ inner_edges g.now place r.now) }
{
    push_members(g, &r.group, place, r.strong.items(), edges)?;
    push_members(g, &r.group, place, r.weak.items(), edges)?;
    push_members(g, &r.group, place, r.offline_restart.items(), edges)
}

fn push_members(
    g: &Groups,
    group: &Name,
    place: usize,
    names: &[Name],
    edges: &mut Vec<Edge>,
) -> Result<(), AllocError>
    ensures { OnOk result (edges.new.items ≡ edges.old.items ++ inner_edges_to g.now group.now place names.now) }
{
    for name in names {
        push(edges, place, member_place(g, group, name))?;
    }
    Ok(())
}

/// The place of a resource, where it is of this group.
fn member_place(g: &Groups, group: &Name, name: &Name) -> Option<usize>
    ensures { result ≡ member_place g.now group.now name.now }
{
    let place = g.resource_place(name)?;
    let (_, target) = g.resource_at(place)?;
    if target.group.bytes() == group.bytes() {
        Some(place)
    } else {
        None
    }
}
