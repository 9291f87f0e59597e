// Start failures and moves, as they are charged to groups.
ghost use Rattle.std.specs.Prelude.{◌≡◌, IfOk, OnOk};
ghost use Rattle.std.specs.Option.{option_copied};
ghost use Rattle.rgm_state.specs.Histories.{failed_again, failures_in, moved_again, moves_in, one_more, with_failure, with_leaving, with_move};

use crate::memory::NoMemory;
use crate::standing::is_up;
use cl_base::{Name, NodeId, Seconds};
use rg_props::Groups;
use rg_view::{GroupAt, GroupView};
use std::alloc::Global;

/// A start failure on the node at the second `now`, charged to this group, which leaves the node.
pub fn add_failure(
    alloc: Global,
    g: &Groups,
    view: &mut GroupView,
    group: Option<Name>,
    n: NodeId,
    now: u64,
) -> Result<(), NoMemory>
    ensures { OnOk result (view.new ≡ with_failure g.now n now view.old group) }
{
    let Some(group) = group else { return Ok(()) };
    let history = failed_again(alloc, group, n, now, view.groups.history(&group, n))?;
    view.groups.put(history)?;
    add_leaving(alloc, g, view, &group, n)
}

/// A move away from the node at the second `now`, charged to this group, which leaves the node.
pub fn add_move(
    alloc: Global,
    g: &Groups,
    view: &mut GroupView,
    group: Option<Name>,
    n: NodeId,
    now: u64,
) -> Result<(), NoMemory>
    ensures { OnOk result (view.new ≡ with_move g.now n now view.old group) }
{
    let Some(group) = group else { return Ok(()) };
    let history = moved_again(alloc, group, n, now, view.groups.history(&group, n))?;
    view.groups.put(history)?;
    add_leaving(alloc, g, view, &group, n)
}

/// The group leaves the node, where it is up there.
fn add_leaving(
    alloc: Global,
    g: &Groups,
    view: &mut GroupView,
    group: &Name,
    n: NodeId,
) -> Result<(), NoMemory>
    ensures { OnOk result (view.new ≡ with_leaving g.now group.now n view.old) }
{
    if is_up(alloc, g, &view.resources, group, n)? {
        view.leaving.add(group, n)?;
    }
    Ok(())
}

/// The group's history on the node with one more start failure.
fn failed_again(
    alloc: Global,
    group: Name,
    node: NodeId,
    now: u64,
    history: Option<&GroupAt>,
) -> Result<GroupAt, NoMemory>
    ensures { IfOk result (λ h. h ≡ failed_again group node now (option_copied history.entry)) }
{
    Ok(GroupAt {
        group,
        node,
        failures: one_more(alloc, failures_in(history), now)?,
        moves: Seconds::new(Vec::from_slice(alloc, moves_in(history))?),
    })
}

/// The group's history on the node with a move, of which the last is kept.
fn moved_again(
    alloc: Global,
    group: Name,
    node: NodeId,
    now: u64,
    history: Option<&GroupAt>,
) -> Result<GroupAt, NoMemory>
    ensures { IfOk result (λ h. h ≡ moved_again group node now (option_copied history.entry)) }
{
    Ok(GroupAt {
        group,
        node,
        failures: Seconds::new(Vec::from_slice(alloc, failures_in(history))?),
        moves: Seconds::new(vec![in alloc; now]?),
    })
}

/// The last of these seconds and one more: nothing else is ever asked.
fn one_more(alloc: Global, seconds: &[u64], now: u64) -> Result<Seconds, NoMemory>
    ensures { IfOk result (λ kept. kept ≡ one_more seconds.now now) }
{
    let first = seconds.len().saturating_sub(1);
    let mut kept = Vec::from_slice(alloc, &seconds[first..])?;
    kept.push(now)?;
    Ok(Seconds::new(kept))
}

fn failures_in(history: Option<&GroupAt>) -> &[u64]
    ensures { result.now ≡ failures_in (option_copied history.entry) }
{
    match history {
        Some(h) => h.failures.items(),
        None => &[],
    }
}

fn moves_in(history: Option<&GroupAt>) -> &[u64]
    ensures { result.now ≡ moves_in (option_copied history.entry) }
{
    match history {
        Some(h) => h.moves.items(),
        None => &[],
    }
}
