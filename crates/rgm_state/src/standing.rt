// Which groups are up, and where.
ghost use Rattle.std.specs.Prelude.{◌≡◌, ◌++◌, IfOk, OnOk, slice_get};
ghost use Rattle.rgm_state.specs.Standing.{has_flag, have_flag, is_up, name_in_group, nodes_up, nodes_with_flag, resources_of};

use crate::memory::NoMemory;
use cl_base::{Name, NodeId, NodeSet};
use rg_props::Groups;
use rg_view::{ResourceAt, ResourceStates};
use std::alloc::Global;

/// Whether the state has a flag.
pub fn has_flag(s: ResourceAt) -> bool
    ensures value { result ≡ has_flag s }
{
    s.pre || s.run || s.mon
}

/// The resources of a group, in order of creation.
pub fn resources_of(alloc: Global, g: &Groups, group: &Name) -> Result<Vec<Name>, NoMemory>
    ensures value { IfOk result (λ names. names.items ≡ resources_of g.now group.now) }
{
    let mut names = Vec::new(alloc);
    for place in 0..g.resource_count() {
        push_resource(&mut names, g, group, place)?;
    }
    Ok(names)
}

/// Adds the resource at this place in order of creation, where it is the group's.
fn push_resource(
    names: &mut Vec<Name>,
    g: &Groups,
    group: &Name,
    place: usize,
) -> Result<(), NoMemory>
    ensures { OnOk result (names.new.items ≡ names.old.items ++ name_in_group group.now (slice_get g.now.resources place)) }
{
    if let Some((name, r)) = g.resource_at(place) {
        if r.group.bytes() == group.bytes() {
            names.push(*name)?;
        }
    }
    Ok(())
}

/// Whether one of these resources has a flag on the node.
pub fn have_flag(states: &ResourceStates, resources: &[Name], n: NodeId) -> bool
    ensures value { result ≡ have_flag states.now resources.now n }
{
    resources.iter().any(|r| has_flag(states.state(r, n)))
}

/// Whether the group is up on the node: one of its resources has a flag there.
pub fn is_up(
    alloc: Global,
    g: &Groups,
    states: &ResourceStates,
    group: &Name,
    n: NodeId,
) -> Result<bool, NoMemory>
    ensures value { IfOk result (λ up. up ≡ is_up g.now states.now group.now n) }
{
    let resources = resources_of(alloc, g, group)?;
    Ok(have_flag(states, &resources, n))
}

/// The members on which the group is up.
pub fn nodes_up(
    alloc: Global,
    g: &Groups,
    states: &ResourceStates,
    members: NodeSet,
    group: &Name,
) -> Result<NodeSet, NoMemory>
    ensures { IfOk result (λ nodes. nodes ≡ nodes_up g.now states.now members group.now) }
{
    let resources = resources_of(alloc, g, group)?;
    let members = members.nodes(alloc)?;
    Ok(nodes_with_flag(states, &resources, &members))
}

#[tactic(auto, using(crate::proofs::Lists::fold_filter_more))]
fn nodes_with_flag(states: &ResourceStates, resources: &[Name], members: &[NodeId]) -> NodeSet
    ensures { result ≡ nodes_with_flag states.now resources.now members.now }
{
    let mut nodes = NodeSet::empty();
    for n in members {
        if have_flag(states, resources, *n) {
            nodes = nodes.with(*n);
        }
    }
    nodes
}
