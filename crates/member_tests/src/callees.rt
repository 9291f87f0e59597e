use agents::{EveryThird, Obedient, Script, StockAgent, call_named};
use cl_base::{Call, Method, Name, NodeId, Outcome};
use std::alloc::Global;
use std::process::Abort;
use std::test::Fail;

fn name(bytes: &[u8]) -> Result<Name, Fail> {
    Ok(Name::new(bytes)?)
}

fn script(alloc: Global, of_name: &[u8], outcomes: &[Outcome]) -> Result<StockAgent, Fail> {
    let outcomes = Vec::from_slice(alloc, outcomes)?;
    Ok(StockAgent::Script(Script::new(name(of_name)?, outcomes)))
}

/// A name of agents, or of none.
#[derive(Clone, Copy)]
enum Named {
    Thirds,
    A,
    B,
    Nobody,
}

/// Whose method is called, and how the call ends.
type Row = (Named, Method, Outcome);

fn agent_name(named: Named) -> Result<Name, Fail> {
    match named {
        Named::Thirds => name(b"thirds"),
        Named::A => name(b"a"),
        Named::B => name(b"b"),
        Named::Nobody => name(b"nobody"),
    }
}

fn call(method: Method) -> Result<Call, Fail> {
    Ok(Call {
        node: NodeId::new(1)?,
        resource: name(b"r")?,
        method,
        second: 7,
    })
}

/// The calls end so, one after another.
fn call_all(rt: &impl Abort, agents: &mut Vec<StockAgent>, rows: &[Row]) -> Result<(), Fail> {
    for (named, method, wanted) in rows {
        let (named, call) = (agent_name(*named)?, call(*method)?);
        assert!(rt; call_named(agents, &named, &call) == *wanted);
    }
    Ok(())
}

/// Two agents have the name a.
fn add_all(alloc: Global, agents: &mut Vec<StockAgent>) -> Result<(), Fail> {
    agents.push(StockAgent::EveryThird(EveryThird::new(name(b"thirds")?)))?;
    let outcomes = [Outcome::Failure, Outcome::Timeout];
    agents.push(script(alloc, b"a", &outcomes)?)?;
    agents.push(StockAgent::Obedient(Obedient::new(name(b"a")?)))?;
    Ok(agents.push(StockAgent::Obedient(Obedient::new(name(b"b")?)))?)
}

fn add_and_call(
    rt: &impl Abort,
    alloc: Global,
    agents: &mut Vec<StockAgent>,
    rows: &[Row],
) -> Result<(), Fail> {
    add_all(alloc, agents)?;
    call_all(rt, agents, rows)
}

/// This alone owns agents.
fn expect(rt: &impl Abort, alloc: Global, rows: &[Row]) -> Result<(), Fail> {
    let mut agents = Vec::new(alloc);
    add_and_call(rt, alloc, &mut agents, rows)
}

const FIRST_OF_A_NAME: &[Row] = &[
    (Named::B, Method::Stop, Outcome::Success),
    (Named::B, Method::Stop, Outcome::Success),
    (Named::A, Method::Start, Outcome::Failure),
    (Named::A, Method::Stop, Outcome::Timeout),
    (Named::A, Method::Stop, Outcome::Success),
];

#[test]
fn the_first_of_a_name_is_called(rt: HostRuntime) -> Result<(), Fail> {
    expect(&rt, rt.alloc(), FIRST_OF_A_NAME)
}

const THIRDS: &[Row] = &[
    (Named::Thirds, Method::Start, Outcome::Success),
    (Named::Thirds, Method::PrenetStart, Outcome::Success),
    (Named::Thirds, Method::Start, Outcome::Success),
    (Named::Thirds, Method::Stop, Outcome::Success),
    (Named::Thirds, Method::Start, Outcome::Failure),
    (Named::Thirds, Method::Start, Outcome::Success),
];

#[test]
fn each_third_start_fails(rt: HostRuntime) -> Result<(), Fail> {
    expect(&rt, rt.alloc(), THIRDS)
}

const NOBODY_AND_A: &[Row] = &[
    (Named::Nobody, Method::Stop, Outcome::Failure),
    (Named::A, Method::Stop, Outcome::Failure),
];

const WITHOUT_AGENTS: &[Row] = &[(Named::A, Method::Stop, Outcome::Failure)];

#[test]
fn without_an_agent_a_call_fails(rt: HostRuntime) -> Result<(), Fail> {
    expect(&rt, rt.alloc(), NOBODY_AND_A)?;
    call_all(&rt, &mut Vec::new(rt.alloc()), WITHOUT_AGENTS)
}
