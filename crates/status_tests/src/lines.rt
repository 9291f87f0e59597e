// What queries about groups and resources are answered, as it is printed.
use crate::fixture::State::{Down, Faulted, Running, Starting, StopFailed};
use crate::fixture::{State, UNMANAGED, WANTED, begun, change, first};
use ccr_tables::Config;
use group_lines::{group_lines, resource_lines};
use rgm_president::President;
use status_report::{Entry, StatusEntry, print};
use std::alloc::Global;
use std::process::Abort;
use std::test::Fail;

/// A query, and the states of a and b that node 1 reports.
#[derive(Clone, Copy)]
enum Query {
    Groups(State, State),
    Resources(State, State),
}

fn add(alloc: Global, text: &mut Vec<u8>, entry: &Entry) -> Result<(), Fail> {
    let line = print(alloc, entry)?;
    Ok(text.extend_from_slice(line.as_slice())?)
}

fn add_all(alloc: Global, text: &mut Vec<u8>, entries: Vec<StatusEntry>) -> Result<(), Fail> {
    for entry in entries {
        add(alloc, text, &Entry::Status(entry))?;
    }
    Ok(())
}

fn answer_groups(alloc: Global, text: &mut Vec<u8>, c: &Config, p: &President) -> Result<(), Fail> {
    add_all(alloc, text, group_lines(alloc, c, p)?)
}

fn answer_resources(
    alloc: Global,
    text: &mut Vec<u8>,
    c: &Config,
    p: &President,
) -> Result<(), Fail> {
    add_all(alloc, text, resource_lines(alloc, c, p.view())?)
}

/// Each makes a president of its own.
fn answer(alloc: Global, text: &mut Vec<u8>, c: &Config, query: Query) -> Result<(), Fail> {
    match query {
        Query::Groups(a, b) => answer_groups(alloc, text, c, &begun(alloc, c, a, b)?),
        Query::Resources(a, b) => answer_resources(alloc, text, c, &begun(alloc, c, a, b)?),
    }
}

fn expect_lines(
    rt: &impl Abort,
    alloc: Global,
    c: &Config,
    query: Query,
    wanted: &[u8],
) -> Result<(), Fail> {
    let mut text = Vec::new(alloc);
    answer(alloc, &mut text, c, query)?;
    assert_eq!(rt; text.as_slice(), wanted);
    Ok(())
}

fn set_up(
    rt: &impl Abort,
    alloc: Global,
    c: &mut Config,
    base: &[u8],
    query: Query,
    wanted: &[u8],
) -> Result<(), Fail> {
    change(alloc, c, base)?;
    expect_lines(rt, alloc, c, query, wanted)
}

/// This alone owns a configuration.
fn expect(
    rt: &impl Abort,
    alloc: Global,
    base: &[u8],
    query: Query,
    wanted: &[u8],
) -> Result<(), Fail> {
    let mut c = first(alloc)?;
    set_up(rt, alloc, &mut c, base, query, wanted)
}

const NOT_MANAGED: &[u8] = b"rg g 2 UNMANAGED
why g 2 unmanaged
rg g 1 UNMANAGED
why g 1 unmanaged
";

#[test]
fn a_group_that_is_not_managed(rt: HostRuntime) -> Result<(), Fail> {
    expect(
        &rt,
        rt.alloc(),
        UNMANAGED,
        Query::Groups(Down, Down),
        NOT_MANAGED,
    )
}

const FAULTED: &[u8] = b"rg g 2 OFFLINE
rg g 1 ONLINE_FAULTED
why g 1 faulted b
";

#[test]
fn a_group_with_a_fault(rt: HostRuntime) -> Result<(), Fail> {
    expect(
        &rt,
        rt.alloc(),
        WANTED,
        Query::Groups(Running, Faulted),
        FAULTED,
    )
}

const DOWN: &[u8] = b"rg g 2 OFFLINE
rg g 1 OFFLINE
";

#[test]
fn a_group_that_is_down(rt: HostRuntime) -> Result<(), Fail> {
    expect(&rt, rt.alloc(), WANTED, Query::Groups(Down, Down), DOWN)
}

const MARKED: &[u8] = b"rs b 2 OFFLINE
rs b 1 STARTING
rs a 2 OFFLINE
rs a 1 STOP_FAILED
";

const UP: &[u8] = b"rs b 2 OFFLINE
rs b 1 START_FAILED
rs a 2 OFFLINE
rs a 1 ONLINE
";

#[test]
fn resources(rt: HostRuntime) -> Result<(), Fail> {
    let (marked, up) = (
        Query::Resources(StopFailed, Starting),
        Query::Resources(Running, Faulted),
    );
    expect(&rt, rt.alloc(), WANTED, marked, MARKED)?;
    expect(&rt, rt.alloc(), WANTED, up, UP)
}
