// A configuration of two nodes, and what its members report to their president.
ghost use Rattle.std.specs.Prelude.{◌≤◌, length};
ghost use Rattle.cl_base.specs.Limits.{most_devices};

use admin_words::parse;
use ccr_tables::{AdminCommand, Config};
use cl_base::{Bytes, Epoch, Header, HeaderDevices, Items, NodeId, NodeSet, Version};
use rgm_president::President;
use std::alloc::Global;
use std::test::Fail;
use wire::{Marks, Report, ResourceReport};

/// The group g, whose Nodelist names node 2 first, with the resources b and a. It is not managed.
pub const UNMANAGED: &[u8] = b"clrt register app script START,STOP
clrg create g 2,1
clrs create b g app
clrs create a g app";

/// The same, managed and wanted online.
pub const WANTED: &[u8] = b"clrt register app script START,STOP
clrg create g 2,1
clrs create b g app
clrs create a g app
clrg manage g
clrg online g";

fn header(alloc: Global) -> Header
    ensures devices { length result.devices ≤ most_devices }
{
    Header {
        version: Version::Two,
        cluster: 42,
        nodes: 2,
        configured: NodeSet::first(2),
        devices: HeaderDevices::new(Vec::new(alloc)),
    }
}

/// Two nodes, and nothing else.
pub fn first(alloc: Global) -> Result<Config, Fail> {
    Ok(Config::first(alloc, &header(alloc))?)
}

/// The update of these words is applied.
fn apply(alloc: Global, c: &mut Config, words: &[u8]) -> Result<(), Fail> {
    match parse(alloc, c.version(), words)? {
        AdminCommand::Change(u) => Ok(c.apply(&u)?),
        _ => Err(Fail::new("not an update")),
    }
}

/// These updates, one a line, are applied.
pub fn change(alloc: Global, c: &mut Config, lines: &[u8]) -> Result<(), Fail> {
    for line in lines.split(|b| *b == b'\n') {
        apply(alloc, c, line)?;
    }
    Ok(())
}

/// How a resource is on a node.
#[derive(Clone, Copy, PartialEq, Eq)]
pub enum State {
    Down,
    Starting,
    Running,
    Faulted,
    /// It runs, and is faulted too.
    StopFailed,
}

fn marks(state: State) -> Marks {
    let stop_failed = state == State::StopFailed;
    Marks {
        pre: state == State::Starting,
        run: stop_failed || state == State::Running,
        mon: false,
        faulted: stop_failed || state == State::Faulted,
        stop_failed,
        monitor_failed: false,
    }
}

fn tell(alloc: Global, told: &mut Vec<ResourceReport>, r: u8, state: State) -> Result<(), Fail> {
    let resource = Bytes::new(vec![in alloc; r]?);
    let marks = marks(state);
    Ok(told.push(ResourceReport { resource, marks })?)
}

fn tell_both(
    alloc: Global,
    told: &mut Vec<ResourceReport>,
    a: State,
    b: State,
) -> Result<(), Fail> {
    tell(alloc, told, b'a', a)?;
    tell(alloc, told, b'b', b)
}

fn told(alloc: Global, a: State, b: State) -> Result<Vec<ResourceReport>, Fail> {
    let mut told = Vec::new(alloc);
    tell_both(alloc, &mut told, a, b)?;
    Ok(told)
}

fn report(alloc: Global, resources: Vec<ResourceReport>) -> Report {
    Report {
        resources: Items::new(resources),
        groups: Items::new(Vec::new(alloc)),
    }
}

fn reports(alloc: Global, a: State, b: State) -> Result<[(NodeId, Report); 2], Fail> {
    let (one, two) = (NodeId::new(1)?, NodeId::new(2)?);
    let told = told(alloc, a, b)?;
    Ok([
        (one, report(alloc, told)),
        (two, report(alloc, Vec::new(alloc))),
    ])
}

/// The president of both nodes, of which node 1 reports these states of a and b, and node 2 nothing.
pub fn begun(alloc: Global, c: &Config, a: State, b: State) -> Result<President, Fail> {
    let reports = reports(alloc, a, b)?;
    let e = Epoch::from_number(65);
    Ok(President::adopt(alloc, e, NodeSet::first(2), &reports, c, 10)?)
}
