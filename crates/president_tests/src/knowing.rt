// What is known of groups by reports, and what changes it.
use crate::fixture::Request::{Clear, Evacuate, Move, Remaster, Restart};
use crate::fixture::{
    NONE, Request, State, States, adopted, asked, first, history, name, node, reports, set_up,
};
use crate::known::Fact::{
    Flags, Goal, History, IsEvacuated, Leaves, Members, NoHistory, NoMarks, NoOrders, Restarts,
};
use crate::known::{Fact, is_known};
use Turn::{Ask, Know};
use ccr_tables::{Config, Update};
use cl_base::{Items, Method, NodeId, NodeSet, Outcome};
use rg_view::{GroupView, Outstanding};
use rgm_president::President;
use rgm_state::{adopt, clear_fault, end_order, is_up, resources_of, take_up, update};
use std::alloc::Global;
use std::process::Abort;
use std::test::Fail;
use wire::{LastFailures, Report};

/// Node 1 reports that a runs, and that g failed twice and moved; node 2 that b is faulted.
fn told(alloc: Global) -> Result<[(NodeId, Report); 2], Fail> {
    let one = States {
        a: Some(State::Running),
        b: None,
    };
    let two = States {
        a: None,
        b: Some(State::Faulted),
    };
    reports(alloc, one, two, history(alloc)?)
}

/// What these reports tell, and nothing else.
const TOLD: &[Fact] = &[
    Flags(b'a', 1, 2),
    Flags(b'b', 1, 0),
    Flags(b'a', 2, 0),
    Flags(b'b', 2, 8),
    History(1, LastFailures::Twice(3, 5), Some(7)),
    NoHistory(2),
    Goal(1),
    Members(0b11, 10),
    NoMarks,
    NoOrders,
];

/// What is done, or is so.
#[derive(Clone, Copy)]
enum Turn {
    /// This is known.
    Know(Fact),
    /// The node asks for this at the second.
    Ask(u64, Request, u64),
    /// STOP of a succeeds on node 1.
    StopA,
    /// The mark of b ends on node 2.
    ClearB,
    /// An administrator sends g to the node.
    Send(u64),
    /// What the reports tell is known.
    KnowAll,
    /// The resources of g are a and b.
    HasBoth,
    /// Whether g is up on the node.
    IsUp(u64, bool),
}

fn is_told(view: &GroupView) -> Result<bool, Fail> {
    for fact in TOLD {
        if !is_known(view, *fact)? {
            return Ok(false);
        }
    }
    Ok(true)
}

fn has_both(alloc: Global, c: &Config) -> Result<bool, Fail> {
    let (g, wanted) = (name(b'g')?, [name(b'a')?, name(b'b')?]);
    let found = resources_of(alloc, c.groups(), &g)?;
    Ok(found.as_slice() == wanted.as_slice())
}

fn stands_up(
    alloc: Global,
    view: &GroupView,
    c: &Config,
    n: u64,
    wanted: bool,
) -> Result<bool, Fail> {
    let (g, n) = (name(b'g')?, node(n)?);
    Ok(is_up(alloc, c.groups(), &view.resources, &g, n)? == wanted)
}

fn stop(alloc: Global, view: &mut GroupView, c: &Config) -> Result<(), Fail> {
    let order = Outstanding {
        node: node(1)?,
        number: 1,
        resource: name(b'a')?,
        method: Some(Method::Stop),
    };
    Ok(end_order(alloc, view, order, Outcome::Success, c, 20)?)
}

fn send(alloc: Global, view: &mut GroupView, c: &Config, n: u64) -> Result<(), Fail> {
    let (group, n) = (name(b'g')?, node(n)?);
    let nodes = Items::new(vec![in alloc; n]?);
    Ok(update(alloc, view, &Update::SwitchGroup { group, nodes }, c)?)
}

fn clear_b(view: &mut GroupView) -> Result<(), Fail> {
    Ok(clear_fault(&mut view.resources, &name(b'b')?, node(2)?)?)
}

fn take(
    alloc: Global,
    view: &mut GroupView,
    c: &Config,
    from: u64,
    request: Request,
    now: u64,
) -> Result<(), Fail> {
    Ok(take_up(alloc, view, node(from)?, asked(request)?, c, now)?)
}

fn holds(alloc: Global, view: &mut GroupView, c: &Config, turn: Turn) -> Result<bool, Fail> {
    match turn {
        Turn::Know(fact) => return is_known(view, fact),
        Turn::KnowAll => return is_told(view),
        Turn::HasBoth => return has_both(alloc, c),
        Turn::IsUp(n, wanted) => return stands_up(alloc, view, c, n, wanted),
        Turn::Ask(from, request, now) => take(alloc, view, c, from, request, now)?,
        Turn::StopA => stop(alloc, view, c)?,
        Turn::ClearB => clear_b(view)?,
        Turn::Send(n) => send(alloc, view, c, n)?,
    }
    Ok(true)
}

/// The turns hold, one after the other.
fn take_all(
    rt: &impl Abort,
    alloc: Global,
    view: &mut GroupView,
    c: &Config,
    turns: &[Turn],
) -> Result<(), Fail> {
    for place in 0..turns.len() {
        let holds = holds(alloc, view, c, turns[place])?;
        assert!(rt; holds, "turn {place}");
    }
    Ok(())
}

fn view(alloc: Global, c: &Config) -> Result<GroupView, Fail> {
    let reports = told(alloc)?;
    Ok(adopt(alloc, NodeSet::first(2), &reports, c, 10)?)
}

fn with_view(rt: &impl Abort, alloc: Global, c: &Config, turns: &[Turn]) -> Result<(), Fail> {
    let mut view = view(alloc, c)?;
    take_all(rt, alloc, &mut view, c, turns)
}

fn with_config(rt: &impl Abort, alloc: Global, c: &mut Config, turns: &[Turn]) -> Result<(), Fail> {
    set_up(alloc, c, NONE)?;
    with_view(rt, alloc, c, turns)
}

/// The turns hold, where this is told.
fn play(rt: &impl Abort, alloc: Global, turns: &[Turn]) -> Result<(), Fail> {
    let mut c = first(alloc)?;
    with_config(rt, alloc, &mut c, turns)
}

fn starts_so(p: &President) -> Result<bool, Fail> {
    Ok(p.given() == 0 && is_told(p.view())?)
}

fn president_starts_so(alloc: Global, c: &Config) -> Result<bool, Fail> {
    let reports = told(alloc)?;
    starts_so(&adopted(alloc, c, &reports)?)
}

fn expect_told(rt: &impl Abort, alloc: Global, c: &mut Config) -> Result<(), Fail> {
    set_up(alloc, c, NONE)?;
    let starts_so = president_starts_so(alloc, c)?;
    assert!(rt; starts_so);
    Ok(())
}

#[test]
fn what_reports_tell(rt: HostRuntime) -> Result<(), Fail> {
    let mut c = first(rt.alloc())?;
    expect_told(&rt, rt.alloc(), &mut c)
}

const CHANGES: &[Turn] = &[
    Turn::KnowAll,
    Turn::HasBoth,
    Turn::IsUp(1, true),
    Turn::IsUp(2, false),
    Turn::StopA,
    Turn::ClearB,
    Know(Flags(b'a', 1, 0)),
    Know(Flags(b'b', 1, 0)),
    Know(Flags(b'a', 2, 0)),
    Know(Flags(b'b', 2, 0)),
    Turn::Send(2),
    Know(Goal(2)),
    Know(IsEvacuated(2, false)),
    Ask(2, Evacuate(2), 20),
    Know(Goal(2)),
    Know(IsEvacuated(2, true)),
    Ask(2, Remaster(b'g'), 20),
    Know(Goal(0)),
    Know(IsEvacuated(2, false)),
];

#[test]
fn what_changes_it(rt: HostRuntime) -> Result<(), Fail> {
    play(&rt, rt.alloc(), CHANGES)
}

/// A clear is an order, and changes nothing before it is done. a restarts where it has a flag, which
/// is on node 1. A move is kept in the place of the last one, and g leaves the node where it is up.
const ASKED: &[Turn] = &[
    Ask(2, Clear(b'a', 1), 20),
    Turn::KnowAll,
    Ask(2, Restart(b'a'), 20),
    Know(Restarts(b'a', 2, false)),
    Ask(1, Restart(b'a'), 20),
    Know(Restarts(b'a', 1, true)),
    Ask(1, Move(b'a'), 20),
    Know(History(1, LastFailures::Twice(3, 5), Some(20))),
    Know(Leaves(1, true)),
    Ask(2, Move(b'b'), 21),
    Know(History(2, LastFailures::Never, Some(21))),
    Know(Leaves(2, false)),
    Know(Flags(b'a', 1, 2)),
    Know(Flags(b'b', 1, 0)),
    Know(Flags(b'a', 2, 0)),
    Know(Flags(b'b', 2, 8)),
];

#[test]
fn what_is_asked_for(rt: HostRuntime) -> Result<(), Fail> {
    play(&rt, rt.alloc(), ASKED)
}
