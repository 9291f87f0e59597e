// What a president does with a configuration, by the states of a and b that node 1 reports.
use crate::fixture::Request::{Evacuate, Move, Remaster, Restart};
use crate::fixture::State::{Down, Faulted, Running, StopFailed};
use crate::fixture::{NONE, SOFT, State, States, adopted, first, reports, set_up};
use crate::known::Fact::{Flags, Goal, History, Leaves};
use crate::steps::Step::{Ask, Call, Clear, Disable, Done, Given, HeldUp, Know, Rest, Stands};
use crate::steps::{Step, Why, take_all};
use ccr_tables::Config;
use cl_base::GroupState::{
    Offline, Online, OnlineFaulted, PendingOffline, PendingOnline, PendingOnlineBlocked,
};
use cl_base::Method::{Start, Stop};
use cl_base::Outcome::{Failure, Success, Timeout};
use rgm_president::President;
use std::alloc::Global;
use std::process::Abort;
use std::test::Fail;
use wire::LastFailures;

/// Node 2 reports nothing.
fn begun(alloc: Global, c: &Config, a: State, b: State) -> Result<President, Fail> {
    let one = States {
        a: Some(a),
        b: Some(b),
    };
    let two = States { a: None, b: None };
    adopted(alloc, c, &reports(alloc, one, two, Vec::new(alloc))?)
}

fn with_president(
    rt: &impl Abort,
    alloc: Global,
    c: &mut Config,
    a: State,
    b: State,
    steps: &[Step],
) -> Result<(), Fail> {
    let mut p = begun(alloc, c, a, b)?;
    take_all(rt, alloc, &mut p, c, steps)
}

fn with_mode(
    rt: &impl Abort,
    alloc: Global,
    c: &mut Config,
    mode: &[u8],
    a: State,
    b: State,
    steps: &[Step],
) -> Result<(), Fail> {
    set_up(alloc, c, mode)?;
    with_president(rt, alloc, c, a, b, steps)
}

/// The steps hold under this Failover_mode. This alone owns a configuration.
fn play(
    rt: &impl Abort,
    alloc: Global,
    mode: &[u8],
    a: State,
    b: State,
    steps: &[Step],
) -> Result<(), Fail> {
    let mut c = first(alloc)?;
    with_mode(rt, alloc, &mut c, mode, a, b, steps)
}

/// b waits until a runs. An outcome of another number or node changes nothing.
const GO_UP: &[Step] = &[
    Call(1, 1, b'a', Start),
    Know(Goal(1)),
    Rest,
    Done(1, 2, Success, false),
    Done(2, 1, Success, false),
    Rest,
    Done(1, 1, Success, true),
    Call(1, 2, b'b', Start),
    Done(1, 2, Success, true),
    Rest,
    Done(1, 2, Success, false),
    Given(2),
    Know(Goal(1)),
];

#[test]
fn one_after_the_other(rt: HostRuntime) -> Result<(), Fail> {
    play(&rt, rt.alloc(), NONE, Down, Down, GO_UP)
}

/// The goals are decided, and no order is given.
const HOLD_UP: &[Step] = &[
    Know(Goal(0)),
    HeldUp,
    Know(Goal(1)),
    Given(0),
    Call(1, 1, b'a', Start),
];

#[test]
fn held_up(rt: HostRuntime) -> Result<(), Fail> {
    play(&rt, rt.alloc(), NONE, Down, Down, HOLD_UP)
}

/// b fails to start on node 1 at the second 20, where a runs. The group leaves node 1, and then goes
/// up on node 2, where it stays.
const FAIL: &[Step] = &[
    Call(1, 1, b'a', Start),
    Done(1, 1, Success, true),
    Call(1, 2, b'b', Start),
    Done(1, 2, Failure, true),
    Know(History(1, LastFailures::Once(20), None)),
    Know(Leaves(1, true)),
    Call(1, 3, b'a', Stop),
    Know(Goal(2)),
    Done(1, 3, Success, true),
    Know(Leaves(1, false)),
    Call(2, 4, b'a', Start),
    Know(Goal(2)),
];

#[test]
fn start_failures(rt: HostRuntime) -> Result<(), Fail> {
    play(&rt, rt.alloc(), SOFT, Down, Down, FAIL)
}

const COME_ONLINE: &[Step] = &[
    Stands(1, Offline, Why::Nothing),
    Call(1, 1, b'a', Start),
    Stands(1, PendingOnline, Why::Nothing),
    Stands(2, Offline, Why::Nothing),
    Done(1, 1, Success, true),
    Stands(1, PendingOnline, Why::Nothing),
    Call(1, 2, b'b', Start),
    Done(1, 2, Success, true),
    Stands(1, Online, Why::Nothing),
    Stands(2, Offline, Why::Nothing),
];

#[test]
fn online(rt: HostRuntime) -> Result<(), Fail> {
    play(&rt, rt.alloc(), NONE, Down, Down, COME_ONLINE)
}

/// Under NONE a START that fails leaves a mark.
const FAULT: &[Step] = &[
    Call(1, 1, b'b', Start),
    Done(1, 1, Timeout, true),
    Rest,
    Stands(1, OnlineFaulted, Why::Faulted(b'b')),
];

#[test]
fn faulted_there(rt: HostRuntime) -> Result<(), Fail> {
    play(&rt, rt.alloc(), NONE, Running, Down, FAULT)
}

/// Under SOFT the group goes to node 2, where it waits until it is down on node 1.
const BLOCK: &[Step] = &[
    Call(1, 1, b'b', Start),
    Done(1, 1, Failure, true),
    Call(1, 2, b'a', Stop),
    Stands(1, PendingOffline, Why::Nothing),
    Stands(2, PendingOnlineBlocked, Why::Blocked(b'a')),
];

#[test]
fn blocked(rt: HostRuntime) -> Result<(), Fail> {
    play(&rt, rt.alloc(), SOFT, Running, Down, BLOCK)
}

/// b, which is enabled, depends on a, which is not.
const LACK: &[Step] = &[
    Disable(b'a'),
    Rest,
    Stands(1, Offline, Why::Dependency(b'a')),
    Stands(2, Offline, Why::Dependency(b'a')),
];

#[test]
fn without_a_node(rt: HostRuntime) -> Result<(), Fail> {
    play(&rt, rt.alloc(), NONE, Down, Down, LACK)
}

/// The group's methods are called again when the mark is gone.
const CLEAR: &[Step] = &[
    Rest,
    Clear(b'a', 1, 1),
    Rest,
    Done(1, 1, Success, true),
    Know(Flags(b'a', 1, 2)),
    Call(1, 2, b'b', Start),
];

#[test]
fn clears(rt: HostRuntime) -> Result<(), Fail> {
    play(&rt, rt.alloc(), NONE, StopFailed, Down, CLEAR)
}

/// b goes down and comes up again. Then node 1 is evacuated.
const RESTART: &[Step] = &[
    Rest,
    Ask(1, Restart(b'b')),
    Call(1, 1, b'b', Stop),
    Done(1, 1, Success, true),
    Call(1, 2, b'b', Start),
    Done(1, 2, Success, true),
    Rest,
    Ask(1, Evacuate(1)),
    Call(1, 3, b'b', Stop),
    Know(Goal(2)),
];

#[test]
fn restarts_and_evacuations(rt: HostRuntime) -> Result<(), Fail> {
    play(&rt, rt.alloc(), NONE, Running, Running, RESTART)
}

/// b's monitor asks node 1 for a move. The group goes down there, and then up on node 2.
const MOVE: &[Step] = &[
    Rest,
    Know(Goal(1)),
    Ask(1, Move(b'b')),
    Call(1, 1, b'b', Stop),
    Know(Goal(2)),
    Done(1, 1, Success, true),
    Call(1, 2, b'a', Stop),
    Done(1, 2, Success, true),
    Call(2, 3, b'a', Start),
    Know(Goal(2)),
];

#[test]
fn moves(rt: HostRuntime) -> Result<(), Fail> {
    play(&rt, rt.alloc(), NONE, Running, Running, MOVE)
}

/// The evacuation ends, and node 1 comes first in the Nodelist.
const REMASTER: &[Step] = &[
    Ask(1, Evacuate(1)),
    Call(1, 1, b'b', Stop),
    Know(Goal(2)),
    Ask(2, Remaster(b'g')),
    Rest,
    Know(Goal(1)),
    Done(1, 1, Success, true),
    Call(1, 2, b'b', Start),
];

#[test]
fn nodes_chosen_anew(rt: HostRuntime) -> Result<(), Fail> {
    play(&rt, rt.alloc(), NONE, Running, Running, REMASTER)
}

/// The mark ends with b disabled. Then a goes down, and the group has no node.
const DISABLE: &[Step] = &[
    Rest,
    Disable(b'b'),
    Know(Flags(b'b', 1, 0)),
    Rest,
    Know(Goal(1)),
    Disable(b'a'),
    Call(1, 1, b'a', Stop),
    Know(Goal(0)),
];

#[test]
fn disabled(rt: HostRuntime) -> Result<(), Fail> {
    play(&rt, rt.alloc(), NONE, Running, Faulted, DISABLE)
}
