// Each case over a configuration of its own.
use crate::fixture::{BASE, HARD, NONE, SOFT, change, first};
use crate::members::{
    bear_under_soft, call_agents, call_nothing, forget, panic_under_hard, succeed, succeed_without,
};
use ccr_tables::Config;
use std::alloc::Global;
use std::process::Abort;
use std::test::Fail;

#[derive(Clone, Copy)]
enum Case {
    Succeed,
    SucceedWithout,
    CallAgents,
    CallNothing,
    PanicUnderHard,
    BearUnderSoft,
    Forget,
}

fn act(rt: &impl Abort, alloc: Global, c: &mut Config, case: Case) -> Result<(), Fail> {
    match case {
        Case::Succeed => succeed(rt, alloc, c),
        Case::SucceedWithout => succeed_without(rt, alloc, c),
        Case::CallAgents => call_agents(rt, alloc, c),
        Case::CallNothing => call_nothing(rt, alloc, c),
        Case::PanicUnderHard => panic_under_hard(rt, c),
        Case::BearUnderSoft => bear_under_soft(rt, c),
        Case::Forget => forget(rt, alloc, c),
    }
}

fn set_up_and_act(
    rt: &impl Abort,
    alloc: Global,
    c: &mut Config,
    mode: &[u8],
    case: Case,
) -> Result<(), Fail> {
    change(alloc, c, BASE)?;
    change(alloc, c, mode)?;
    act(rt, alloc, c, case)
}

// The one function that owns a configuration: each that does has a long proof.
fn run(rt: &impl Abort, alloc: Global, mode: &[u8], case: Case) -> Result<(), Fail> {
    let mut c = first(alloc)?;
    set_up_and_act(rt, alloc, &mut c, mode, case)
}

#[test]
fn successes_set_flags(rt: HostRuntime) -> Result<(), Fail> {
    run(&rt, rt.alloc(), NONE, Case::Succeed)?;
    run(&rt, rt.alloc(), NONE, Case::SucceedWithout)
}

#[test]
fn a_call_is_due_of_the_agent_that_the_type_names(rt: HostRuntime) -> Result<(), Fail> {
    run(&rt, rt.alloc(), NONE, Case::CallAgents)
}

#[test]
fn nothing_is_due(rt: HostRuntime) -> Result<(), Fail> {
    run(&rt, rt.alloc(), NONE, Case::CallNothing)
}

#[test]
fn failures_to_stop_are_fatal_under_hard(rt: HostRuntime) -> Result<(), Fail> {
    run(&rt, rt.alloc(), HARD, Case::PanicUnderHard)
}

#[test]
fn failures_to_stop_are_borne_under_soft(rt: HostRuntime) -> Result<(), Fail> {
    run(&rt, rt.alloc(), SOFT, Case::BearUnderSoft)
}

#[test]
fn deleted_things_are_forgotten(rt: HostRuntime) -> Result<(), Fail> {
    run(&rt, rt.alloc(), NONE, Case::Forget)
}
