ghost use Rattle.std.specs.Prelude.{◌≡◌, IfOk, OnOk, slice_get};
ghost use Rattle.rgm_state.specs.Steps.{with_next};
ghost use Rattle.rgm_state.specs.Adopting.{adopted, first_goal, first_goals, with_first_goal};

use crate::memory::NoMemory;
use crate::reports::{reported_histories, reported_states};
use crate::standing::nodes_up;
use ccr_tables::Config;
use cl_base::{Name, NodeId, NodeSet};
use rg_props::{Group, Groups};
use rg_view::{Goals, GroupView, Marks, Orders, ResourceStates};
use std::alloc::Global;
use wire::Report;

/// What is known as a membership starts, by the reports of its members: their flags, marks and
/// histories. Nothing is evacuated, leaves, restarts or is outstanding. Each group's previous goal is
/// the nodes where it is up, or none where its Failback is TRUE and it is not suspended.
pub fn adopt(
    alloc: Global,
    members: NodeSet,
    reports: &[(NodeId, Report)],
    c: &Config,
    now: u64,
) -> Result<GroupView, NoMemory>
    ensures value { IfOk result (λ view. view ≡ adopted c.now members reports.now now) }
{
    let resources = reported_states(alloc, reports)?;
    let goals = first_goals(alloc, c.groups(), &resources, members)?;
    Ok(GroupView {
        members,
        now,
        resources,
        groups: reported_histories(alloc, reports)?,
        goals,
        evacuated: Marks::new(alloc),
        leaving: Marks::new(alloc),
        restarting: Marks::new(alloc),
        outstanding: Orders::new(alloc),
    })
}

#[tactic(auto, using(crate::proofs::Lists::fold_next))]
/// The previous goal of each group.
fn first_goals(
    alloc: Global,
    g: &Groups,
    states: &ResourceStates,
    members: NodeSet,
) -> Result<Goals, NoMemory>
    ensures { IfOk result (λ goals. goals ≡ first_goals g.now states.now members) }
{
    let mut goals = Goals::new(alloc);
    for place in 0..g.group_count() {
        set_first_goal(alloc, g, states, members, place, &mut goals)?;
    }
    Ok(goals)
}

/// That of the group at this place in order of creation.
fn set_first_goal(
    alloc: Global,
    g: &Groups,
    states: &ResourceStates,
    members: NodeSet,
    place: usize,
    goals: &mut Goals,
) -> Result<(), NoMemory>
    ensures { OnOk result (goals.new ≡ with_next (with_first_goal g.now states.now members) goals.old (slice_get g.now.groups place)) }
{
    if let Some((name, group)) = g.group_at(place) {
        goals.set(*name, first_goal(alloc, g, states, members, name, group)?)?;
    }
    Ok(())
}

/// The nodes where the group is up, or none where it goes back to a preferred node.
fn first_goal(
    alloc: Global,
    g: &Groups,
    states: &ResourceStates,
    members: NodeSet,
    name: &Name,
    group: &Group,
) -> Result<NodeSet, NoMemory>
    ensures { IfOk result (λ nodes. nodes ≡ first_goal g.now states.now members name.now group.now) }
{
    if group.failback && !group.suspended {
        return Ok(NodeSet::empty());
    }
    nodes_up(alloc, g, states, members, name)
}
