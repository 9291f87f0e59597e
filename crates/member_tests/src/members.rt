// What is done over a configuration.
use crate::fixture::{change, epoch, member, name, order};
use ccr_tables::Config;
use cl_base::{Call, Method, Name, NodeId, Outcome};
use rgm_member::{Carried, Due, Worker, is_fatal};
use std::alloc::Global;
use std::process::Abort;
use std::test::Fail;
use wire::{Marks, Order};

/// A method, how its call ends, and the flags and marks that are left.
type Row = (Method, Outcome, u64);

fn bits(m: &Marks) -> u64 {
    let flags = m.pre as u64 + 2 * (m.run as u64) + 4 * (m.mon as u64);
    let marks = 8 * (m.faulted as u64)
        + 16 * (m.stop_failed as u64)
        + 32 * (m.monitor_failed as u64);
    flags + marks
}

/// The resource of this name is reported with these flags and marks, or not at all for 0.
fn expect_marks(
    rt: &impl Abort,
    alloc: Global,
    worker: &Worker,
    c: &Config,
    r: &[u8],
    wanted: u64,
) -> Result<(), Fail> {
    let report = worker.report(alloc, c)?;
    let resources = report.resources.items();
    let found = resources.iter().find(|x| x.resource.items() == r);
    assert_eq!(rt; found.map(|x| bits(&x.marks)).unwrap_or(0), wanted);
    Ok(())
}

/// The order is carried out at a second, and that is told of it.
fn expect_carried(
    rt: &impl Abort,
    worker: &mut Worker,
    o: &Order,
    c: &Config,
    outcome: Outcome,
    now: u64,
    wanted: Carried,
) -> Result<(), Fail> {
    let carried = worker.carry_out(o, c, outcome, now)?;
    assert_eq!(rt; carried, wanted);
    Ok(())
}

fn expect_due(rt: &impl Abort, worker: &Worker, o: &Order, c: &Config, now: u64, wanted: bool) {
    assert_eq!(rt; worker.due(o, c, now).is_some(), wanted);
}

/// A call is due before the order is carried out, and none after it.
fn carry_out_once(
    rt: &impl Abort,
    worker: &mut Worker,
    o: &Order,
    c: &Config,
    outcome: Outcome,
) -> Result<(), Fail> {
    expect_due(rt, worker, o, c, 7, true);
    expect_carried(rt, worker, o, c, outcome, 7, Carried::Called(outcome))?;
    expect_due(rt, worker, o, c, 8, false);
    expect_carried(
        rt,
        worker,
        o,
        c,
        Outcome::Timeout,
        8,
        Carried::Kept(outcome),
    )
}

/// An order of this number for the resource leaves these flags and marks.
fn obey(
    rt: &impl Abort,
    alloc: Global,
    worker: &mut Worker,
    c: &Config,
    r: &[u8],
    number: u64,
    row: Row,
) -> Result<(), Fail> {
    let (method, outcome, wanted) = row;
    let o = order(alloc, number, r, Some(method))?;
    carry_out_once(rt, worker, &o, c, outcome)?;
    expect_marks(rt, alloc, worker, c, r, wanted)?;
    assert_eq!(rt; worker.has_flag(), wanted % 8 != 0);
    Ok(())
}

/// Orders for the resource, numbered from 1.
fn follow(
    rt: &impl Abort,
    alloc: Global,
    worker: &mut Worker,
    c: &Config,
    r: &[u8],
    rows: &[Row],
) -> Result<(), Fail> {
    let mut number = 0u64;
    for row in rows {
        number = number.saturating_add(1);
        obey(rt, alloc, worker, c, r, number, *row)?;
    }
    Ok(())
}

/// Orders to a new member.
fn expect(rt: &impl Abort, alloc: Global, c: &Config, r: &[u8], rows: &[Row]) -> Result<(), Fail> {
    let mut worker = member(alloc)?;
    follow(rt, alloc, &mut worker, c, r, rows)
}

pub fn succeed(rt: &impl Abort, alloc: Global, c: &Config) -> Result<(), Fail> {
    let rows = [
        (Method::PrenetStart, Outcome::Success, 1),
        (Method::Start, Outcome::Success, 3),
        (Method::MonitorStart, Outcome::Success, 7),
        (Method::MonitorCheck, Outcome::Failure, 7),
        (Method::MonitorStop, Outcome::Success, 3),
        (Method::Stop, Outcome::Success, 1),
        (Method::PostnetStop, Outcome::Success, 0),
    ];
    expect(rt, alloc, c, b"r", &rows)
}

/// Of a type that has no POSTNET_STOP.
pub fn succeed_without(rt: &impl Abort, alloc: Global, c: &Config) -> Result<(), Fail> {
    let rows = [
        (Method::PrenetStart, Outcome::Success, 1),
        (Method::Start, Outcome::Success, 3),
        (Method::Stop, Outcome::Success, 0),
    ];
    expect(rt, alloc, c, b"q", &rows)
}

/// The call of START of the resource at second 7.
fn call(r: &[u8], agent: Option<Name>) -> Result<Due, Fail> {
    let call = Call {
        node: NodeId::new(1)?,
        resource: name(r)?,
        method: Method::Start,
        second: 7,
    };
    Ok(Due { agent, call })
}

/// It is due where START is ordered.
fn expect_call(
    rt: &impl Abort,
    alloc: Global,
    c: &Config,
    r: &[u8],
    agent: Option<Name>,
) -> Result<(), Fail> {
    let o = order(alloc, 3, r, Some(Method::Start))?;
    let found = due_of_member(alloc, &o, c)?;
    assert_eq!(rt; found, Some(call(r, agent)?));
    Ok(())
}

fn due_of_member(alloc: Global, o: &Order, c: &Config) -> Result<Option<Due>, Fail> {
    let worker = member(alloc)?;
    Ok(worker.due(o, c, 7))
}

pub fn call_agents(rt: &impl Abort, alloc: Global, c: &Config) -> Result<(), Fail> {
    expect_call(rt, alloc, c, b"r", Some(name(b"script")?))?;
    expect_call(rt, alloc, c, b"unknown", None)
}

/// Of an order for these words no call is due.
fn expect_nothing(
    rt: &impl Abort,
    alloc: Global,
    worker: &Worker,
    c: &Config,
    r: &[u8],
    method: Option<Method>,
) -> Result<(), Fail> {
    let o = order(alloc, 3, r, method)?;
    expect_due(rt, worker, &o, c, 7, false);
    Ok(())
}

/// Of an order to clear, of one for no name, and of one of an earlier session.
fn disregard(rt: &impl Abort, alloc: Global, worker: &mut Worker, c: &Config) -> Result<(), Fail> {
    expect_nothing(rt, alloc, worker, c, b"r", None)?;
    expect_nothing(rt, alloc, worker, c, b"two words", Some(Method::Start))?;
    worker.enter(epoch(129));
    expect_nothing(rt, alloc, worker, c, b"r", Some(Method::Start))
}

pub fn call_nothing(rt: &impl Abort, alloc: Global, c: &Config) -> Result<(), Fail> {
    let mut worker = member(alloc)?;
    disregard(rt, alloc, &mut worker, c)
}

/// Whether the node panics of a method of r that ends so.
fn expect_fatal(rt: &impl Abort, c: &Config, rows: &[(Method, Outcome, bool)]) -> Result<(), Fail> {
    let r = name(b"r")?;
    for (method, outcome, wanted) in rows {
        assert_eq!(rt; is_fatal(c, &r, *method, *outcome), *wanted);
    }
    Ok(())
}

pub fn panic_under_hard(rt: &impl Abort, c: &Config) -> Result<(), Fail> {
    let rows = [
        (Method::MonitorStop, Outcome::Timeout, true),
        (Method::Stop, Outcome::Failure, true),
        (Method::PostnetStop, Outcome::Failure, true),
        (Method::Stop, Outcome::Success, false),
        (Method::Start, Outcome::Failure, false),
        (Method::MonitorStart, Outcome::Failure, false),
    ];
    expect_fatal(rt, c, &rows)
}

pub fn bear_under_soft(rt: &impl Abort, c: &Config) -> Result<(), Fail> {
    let rows = [
        (Method::MonitorStop, Outcome::Timeout, false),
        (Method::Stop, Outcome::Failure, false),
        (Method::PostnetStop, Outcome::Failure, false),
    ];
    expect_fatal(rt, c, &rows)
}

fn fail(rt: &impl Abort, alloc: Global, w: &mut Worker, c: &Config) -> Result<(), Fail> {
    let rows = [
        (Method::Start, Outcome::Success, 2),
        (Method::Start, Outcome::Failure, 10),
        (Method::Stop, Outcome::Failure, 26),
    ];
    follow(rt, alloc, w, c, b"s", &rows)
}

fn fail_and_forget(
    rt: &impl Abort,
    alloc: Global,
    w: &mut Worker,
    c: &mut Config,
) -> Result<(), Fail> {
    fail(rt, alloc, w, c)?;
    w.keep(c);
    expect_marks(rt, alloc, w, c, b"s", 26)?;
    change(alloc, c, b"clrs disable s")?;
    w.keep(c);
    expect_marks(rt, alloc, w, c, b"s", 18)?;
    change(alloc, c, b"clrs delete s")?;
    w.keep(c);
    change(alloc, c, b"clrs create s h app")?;
    expect_marks(rt, alloc, w, c, b"s", 0)
}

pub fn forget(rt: &impl Abort, alloc: Global, c: &mut Config) -> Result<(), Fail> {
    let mut worker = member(alloc)?;
    fail_and_forget(rt, alloc, &mut worker, c)
}
