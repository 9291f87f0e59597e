// A configuration of two nodes, and what its members report to their president.
ghost use Rattle.std.specs.Prelude.{◌≤◌, length};
ghost use Rattle.cl_base.specs.Limits.{most_devices};

use admin_words::parse;
use ccr_tables::{AdminCommand, Config};
use cl_base::{Ask, Bytes, Epoch, Header, HeaderDevices, Items, Name, NodeId, NodeSet, Version};
use rgm_president::President;
use std::alloc::Global;
use std::test::Fail;
use wire::{GroupReport, LastFailures, Marks, Report, ResourceReport};

/// The group g on nodes 1 and 2, managed and wanted, with the resources a, and b that depends on a,
/// both of a type with START and STOP alone.
const BASE: &[u8] = b"clrt register app script START,STOP
clrg create g 1,2
clrs create a g app
clrs create b g app
clrs set b Resource_dependencies a
clrg manage g
clrg online g";

/// What a and b do when a method fails.
pub const NONE: &[u8] = b"clrs set a Failover_mode NONE
clrs set b Failover_mode NONE";

pub const SOFT: &[u8] = b"clrs set a Failover_mode SOFT
clrs set b Failover_mode SOFT";

pub fn name(letter: u8) -> Result<Name, Fail> {
    Ok(Name::new([letter].as_slice())?)
}

pub fn node(number: u64) -> Result<NodeId, Fail> {
    Ok(NodeId::new(number)?)
}

fn header(alloc: Global) -> Header
    ensures devices { length result.devices ≤ most_devices }
{
    Header {
        version: Version::Two,
        cluster: 42,
        nodes: 2,
        configured: NodeSet::first(2),
        devices: HeaderDevices::new(Vec::new(alloc)),
    }
}

/// Two nodes, and nothing else.
pub fn first(alloc: Global) -> Result<Config, Fail> {
    Ok(Config::first(alloc, &header(alloc))?)
}

/// The update of these words is applied.
fn apply(alloc: Global, c: &mut Config, words: &[u8]) -> Result<(), Fail> {
    match parse(alloc, c.version(), words)? {
        AdminCommand::Change(u) => Ok(c.apply(&u)?),
        _ => Err(Fail::new("not an update")),
    }
}

fn change(alloc: Global, c: &mut Config, lines: &[u8]) -> Result<(), Fail> {
    for line in lines.split(|b| *b == b'\n') {
        apply(alloc, c, line)?;
    }
    Ok(())
}

/// The configuration with this Failover_mode of a and b.
pub fn set_up(alloc: Global, c: &mut Config, mode: &[u8]) -> Result<(), Fail> {
    change(alloc, c, BASE)?;
    change(alloc, c, mode)
}

/// What a node asks of the president. Resources and groups have names of one letter.
#[derive(Clone, Copy)]
pub enum Request {
    Restart(u8),
    Move(u8),
    Remaster(u8),
    Evacuate(u64),
    /// To clear the resource's mark on the node.
    Clear(u8, u64),
}

pub fn asked(request: Request) -> Result<Ask, Fail> {
    match request {
        Request::Restart(r) => Ok(Ask::Restart(name(r)?)),
        Request::Move(r) => Ok(Ask::Move(name(r)?)),
        Request::Remaster(g) => Ok(Ask::Remaster(name(g)?)),
        Request::Evacuate(n) => Ok(Ask::Evacuate(node(n)?)),
        Request::Clear(r, n) => Ok(Ask::Clear {
            resource: name(r)?,
            node: node(n)?,
        }),
    }
}

/// How a resource is on a node.
#[derive(Clone, Copy, PartialEq, Eq)]
pub enum State {
    Down,
    Running,
    Faulted,
    /// It runs, since it failed to stop.
    StopFailed,
}

/// The states of a and of b on a node, where they are reported.
#[derive(Clone, Copy)]
pub struct States {
    pub a: Option<State>,
    pub b: Option<State>,
}

fn marks(state: State) -> Marks {
    Marks {
        pre: false,
        run: state == State::Running || state == State::StopFailed,
        mon: false,
        faulted: state == State::Faulted,
        stop_failed: state == State::StopFailed,
        monitor_failed: false,
    }
}

fn tell(
    alloc: Global,
    told: &mut Vec<ResourceReport>,
    r: u8,
    state: Option<State>,
) -> Result<(), Fail> {
    let Some(state) = state else { return Ok(()) };
    let resource = Bytes::new(vec![in alloc; r]?);
    let marks = marks(state);
    Ok(told.push(ResourceReport { resource, marks })?)
}

fn tell_both(alloc: Global, told: &mut Vec<ResourceReport>, states: States) -> Result<(), Fail> {
    tell(alloc, told, b'a', states.a)?;
    tell(alloc, told, b'b', states.b)
}

/// The group g failed twice, and moved.
pub fn history(alloc: Global) -> Result<Vec<GroupReport>, Fail> {
    let history = GroupReport {
        group: Bytes::new(vec![in alloc; b'g']?),
        failures: LastFailures::Twice(3, 5),
        moved: Some(7),
    };
    Ok(vec![in alloc; history]?)
}

fn told(alloc: Global, states: States) -> Result<Vec<ResourceReport>, Fail> {
    let mut told = Vec::new(alloc);
    tell_both(alloc, &mut told, states)?;
    Ok(told)
}

fn report(resources: Vec<ResourceReport>, groups: Vec<GroupReport>) -> Report {
    Report {
        resources: Items::new(resources),
        groups: Items::new(groups),
    }
}

/// Nodes 1 and 2 report these states, and node 1 what is told of groups.
pub fn reports(
    alloc: Global,
    one: States,
    two: States,
    groups: Vec<GroupReport>,
) -> Result<[(NodeId, Report); 2], Fail> {
    let (first, second) = (node(1)?, node(2)?);
    let of_first = told(alloc, one)?;
    let of_second = told(alloc, two)?;
    Ok([
        (first, report(of_first, groups)),
        (second, report(of_second, Vec::new(alloc))),
    ])
}

/// The president of both nodes by these reports, at the second 10.
pub fn adopted(alloc: Global, c: &Config, reports: &[(NodeId, Report)]) -> Result<President, Fail> {
    let e = Epoch::from_number(65);
    Ok(President::adopt(alloc, e, NodeSet::first(2), reports, c, 10)?)
}
