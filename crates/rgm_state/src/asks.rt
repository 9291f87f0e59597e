ghost use Rattle.std.specs.Prelude.{◌≡◌, OnOk, fold};
ghost use Rattle.std.specs.Option.{option_copied};
ghost use Rattle.rg_props.specs.Lookups.{named};
ghost use Rattle.rgm_state.specs.Steps.{with_next};
ghost use Rattle.rgm_state.specs.Asks.{after_ask, evacuated_from, remaster_goal, remastered, sent_to, with_evacuated, with_restart};

use crate::charges::add_move;
use crate::memory::NoMemory;
use crate::nodes::first_members;
use crate::standing::has_flag;
use ccr_tables::Config;
use cl_base::{Ask, Name, NodeId, NodeSet};
use rg_props::Group;
use rg_view::{Goals, GroupView, Marks};
use rgm_member::charged;
use std::alloc::Global;

/// What the node asked for is done, at the second `now`.
///
/// A restart marks the resource on the node, and a move charges its group or the group that this one
/// declares `+++` to, each where a flag is left there. To remaster empties the group's previous goal,
/// or sets it to the first members where the group is suspended, and ends its evacuations. To
/// evacuate makes a node ineligible for the groups that have it in their goal. A clear is an order,
/// and changes nothing before it is done.
pub fn take_up(
    alloc: Global,
    view: &mut GroupView,
    from: NodeId,
    what: Ask,
    c: &Config,
    now: u64,
) -> Result<(), NoMemory>
    ensures value { OnOk result (view.new ≡ after_ask c.now from what now view.old) }
{
    match what {
        Ask::Restart(r) => restart(view, &r, from),
        Ask::Move(r) => add_move(alloc, c.groups(), view, charged(c, &r), from, now),
        Ask::Remaster(g) => remaster(view, g, c.groups().group(&g)),
        Ask::Evacuate(n) => evacuate(&view.goals, &mut view.evacuated, n),
        Ask::Clear { .. } => Ok(()),
    }
}

/// The resource restarts on the node, where it has a flag there.
fn restart(view: &mut GroupView, r: &Name, n: NodeId) -> Result<(), NoMemory>
    ensures { OnOk result (view.new ≡ with_restart r.now n view.old) }
{
    if has_flag(view.resources.state(r, n)) {
        view.restarting.add(r, n)?;
    }
    Ok(())
}

/// The group's nodes are chosen anew.
fn remaster(view: &mut GroupView, name: Name, group: Option<&Group>) -> Result<(), NoMemory>
    ensures { OnOk result (view.new ≡ remastered name view.old (option_copied group.entry)) }
{
    match group {
        Some(group) => {
            let nodes = remaster_goal(view.members, group);
            send_to(view, name, nodes)
        }
        None => Ok(()),
    }
}

fn remaster_goal(members: NodeSet, group: &Group) -> NodeSet
    ensures { result ≡ remaster_goal members group.now }
{
    if group.suspended {
        first_members(members, group)
    } else {
        NodeSet::empty()
    }
}

/// Gives the group a new previous goal, and ends its evacuations.
pub fn send_to(view: &mut GroupView, group: Name, nodes: NodeSet) -> Result<(), NoMemory>
    ensures { OnOk result (view.new ≡ sent_to group nodes view.old) }
{
    view.goals.set(group, nodes)?;
    view.evacuated.remove_all(&group);
    Ok(())
}

#[tactic(auto, using(crate::proofs::Lists::fold_next))]
/// Evacuates the groups from the node that have it in their goal.
fn evacuate(goals: &Goals, evacuated: &mut Marks, n: NodeId) -> Result<(), NoMemory>
    ensures { OnOk result (evacuated.new ≡ fold (with_evacuated n) evacuated.old goals.now) }
{
    for place in 0..goals.len() {
        evacuate_group(goals.get(place), evacuated, n)?;
    }
    Ok(())
}

fn evacuate_group(
    goal: Option<(Name, NodeSet)>,
    evacuated: &mut Marks,
    n: NodeId,
) -> Result<(), NoMemory>
    ensures { OnOk result (evacuated.new ≡ with_next (with_evacuated n) evacuated.old goal) }
{
    if let Some((group, nodes)) = goal {
        if nodes.has(n) {
            evacuated.add(&group, n)?;
        }
    }
    Ok(())
}
