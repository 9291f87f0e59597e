// The goals of a decision, and the marks that end with them.
ghost use Rattle.std.specs.Prelude.{◌≡◌, IfOk, OnOk, false, fold, true};
ghost use Rattle.std.specs.Option.{option_copied};
ghost use Rattle.placement.specs.Decisions.{with_goal};
ghost use Rattle.placement.specs.Goals.{goal_by_rule, goal_in};
ghost use Rattle.rg_props.specs.Lookups.{named};
ghost use Rattle.rgm_president.specs.Goals.{ended_for, ended_of, ended_outside, fixed_decided, listed, other_decided, with_decided, with_ended, with_goals, with_listed};
ghost use Rattle.rgm_president.specs.Steady.{is_any_faulted};

use crate::unchanged::is_unchanged;
use ccr_tables::Config;
use cl_base::{Name, NodeId, NodeSet};
use load_limits::Limits;
use placement::{goal, is_fixed};
use rg_props::{Groups, Resource};
use rg_view::{Goals, GroupView, ResourceStates};
use rgm_state::{NoMemory, clear_fault};
use std::alloc::Global;
use std::mem::replace;

#[tactic(auto, unfolding(crate::specs::Goals::with_goals))]
/// Decides the goals at the second `now`. The answer is true only where this changed nothing but the
/// second.
pub fn set_goals(
    alloc: Global,
    view: &mut GroupView,
    c: &Config,
    groups: &[Name],
    resources: &[Name],
    now: u64,
) -> Result<bool, NoMemory>
    ensures value { OnOk result (view.new ≡ with_goals c.now groups.now resources.now now view.old) }
    ensures same { IfOk result (λ same. same ≡ true → with_goals c.now groups.now resources.now now view.old ≡ record view.old { now = now }) }
{
    let same = choose_goals(alloc, view, c, groups, now)?;
    end_faults(alloc, view, c.groups(), resources)?;
    Ok(same)
}

/// Lists the goals and decides them. Whether they are as they were, and no mark could end with them.
fn choose_goals(
    alloc: Global,
    view: &mut GroupView,
    c: &Config,
    groups: &[Name],
    now: u64,
) -> Result<bool, NoMemory>
    ensures value { OnOk result (view.new ≡ with_decided c.now groups.now (with_listed groups.now now view.old)) }
    ensures same { IfOk result (λ same. same ≡ true → (view.old.goals ≡ view.new.goals) × (is_any_faulted view.new.resources ≡ false)) }
{
    let before = list_goals(alloc, view, groups, now)?;
    decide_goals(view, c, groups)?;
    Ok(is_unchanged(&before, view))
}

#[tactic(auto, unfolding(crate::specs::Goals::with_listed))]
/// Sets the second, and puts the previous goals into the order of groups. They are handed back in the
/// order in which they were.
fn list_goals(
    alloc: Global,
    view: &mut GroupView,
    groups: &[Name],
    now: u64,
) -> Result<Goals, NoMemory>
    ensures value { OnOk result (view.new ≡ with_listed groups.now now view.old) }
    ensures before { IfOk result (λ before. before ≡ view.old.goals) }
{
    let goals = listed(alloc, &view.goals, groups)?;
    view.now = now;
    Ok(replace(&mut view.goals, goals))
}

/// The previous goals of these groups, in their order.
fn listed(alloc: Global, previous: &Goals, groups: &[Name]) -> Result<Goals, NoMemory>
    ensures { IfOk result (λ goals. goals ≡ listed previous.now groups.now) }
{
    let mut goals = Goals::new(alloc);
    for group in groups {
        goals.set(*group, previous.goal(group))?;
    }
    Ok(goals)
}

#[tactic(auto, using(crate::proofs::Decided::both_steps), unfolding(crate::specs::Goals::with_decided))]
/// The goals of fixed groups first, and then of the others, each of which sees those before it.
fn decide_goals(view: &mut GroupView, c: &Config, groups: &[Name]) -> Result<(), NoMemory>
    ensures { OnOk result (view.new ≡ with_decided c.now groups.now view.old) }
{
    decide_fixed(view, c.groups(), c.limits(), groups)?;
    decide_others(view, c.groups(), c.limits(), groups)
}

fn decide_fixed(
    view: &mut GroupView,
    g: &Groups,
    limits: &Limits,
    groups: &[Name],
) -> Result<(), NoMemory>
    ensures { OnOk result (view.new ≡ fold (fixed_decided g.now limits.now) view.old groups.now) }
{
    for group in groups {
        if is_fixed(g, view, group) {
            set_goal(view, g, limits, group)?;
        }
    }
    Ok(())
}

fn decide_others(
    view: &mut GroupView,
    g: &Groups,
    limits: &Limits,
    groups: &[Name],
) -> Result<(), NoMemory>
    ensures { OnOk result (view.new ≡ fold (other_decided g.now limits.now) view.old groups.now) }
{
    for group in groups {
        if !is_fixed(g, view, group) {
            set_goal(view, g, limits, group)?;
        }
    }
    Ok(())
}

/// Sets the group's goal by the rule, over the goals so far.
fn set_goal(view: &mut GroupView, g: &Groups, limits: &Limits, group: &Name) -> Result<(), NoMemory>
    ensures { OnOk result (view.new ≡ record view.old { goals = with_goal g.now limits.now view.old view.old.goals group.now }) }
{
    let nodes = goal_by_rule(g, limits, view, group, view.goals.goal(group));
    view.goals.set(*group, nodes)?;
    Ok(())
}

#[tactic(auto, unfolding(placement::specs::Goals::goal_by_rule))]
/// The group's goal. What is no group has none.
fn goal_by_rule(
    g: &Groups,
    limits: &Limits,
    view: &GroupView,
    group: &Name,
    previous: NodeSet,
) -> NodeSet
    ensures { result ≡ goal_by_rule g.now limits.now view.entry.now group.now previous }
{
    match g.group(group) {
        Some(_) => goal(g, limits, view, group, previous),
        None => NodeSet::empty(),
    }
}

#[tactic(auto, unfolding(crate::specs::Goals::with_ended))]
/// Ends the mark faulted of these resources on members outside their groups' goals.
fn end_faults(
    alloc: Global,
    view: &mut GroupView,
    g: &Groups,
    resources: &[Name],
) -> Result<(), NoMemory>
    ensures { OnOk result (view.new ≡ with_ended g.now resources.now view.old) }
{
    let members = view.members.nodes(alloc)?;
    end_all(&mut view.resources, &view.goals, g, &members, resources)
}

fn end_all(
    states: &mut ResourceStates,
    goals: &Goals,
    g: &Groups,
    members: &[NodeId],
    resources: &[Name],
) -> Result<(), NoMemory>
    ensures { OnOk result (states.new ≡ fold (ended_for g.now goals.now members.now) states.old resources.now) }
{
    for r in resources {
        end_fault(states, goals, members, r, g.resource(r))?;
    }
    Ok(())
}

/// Ends the mark of one resource.
fn end_fault(
    states: &mut ResourceStates,
    goals: &Goals,
    members: &[NodeId],
    name: &Name,
    resource: Option<&Resource>,
) -> Result<(), NoMemory>
    ensures { OnOk result (states.new ≡ ended_of goals.now members.now name.now states.old (option_copied resource.entry)) }
{
    match resource {
        Some(resource) => end_outside(states, goals, members, name, &resource.group),
        None => Ok(()),
    }
}

fn end_outside(
    states: &mut ResourceStates,
    goals: &Goals,
    members: &[NodeId],
    name: &Name,
    group: &Name,
) -> Result<(), NoMemory>
    ensures { OnOk result (states.new ≡ fold (ended_outside goals.now group.now name.now) states.old members.now) }
{
    for n in members {
        if !goals.goal(group).has(*n) {
            clear_fault(states, name, *n)?;
        }
    }
    Ok(())
}
