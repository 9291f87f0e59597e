// Each case over a configuration of its own.
use crate::fixture::first;
use crate::logs::add_one_more;
use crate::queries::{tell_tables, tell_votes};
use ccr_tables::Config;
use std::alloc::Global;
use std::process::Abort;
use std::test::Fail;

#[derive(Clone, Copy)]
pub enum Case {
    AddOneMore,
    TellVotes,
    TellTables,
}

fn act(rt: &impl Abort, alloc: Global, config: &mut Config, case: Case) -> Result<(), Fail> {
    match case {
        Case::AddOneMore => add_one_more(rt, alloc, config),
        Case::TellVotes => tell_votes(rt, alloc, config),
        Case::TellTables => tell_tables(rt, alloc, config),
    }
}

// The one function that owns a configuration: each that does has a long proof.
pub fn run(rt: &impl Abort, alloc: Global, case: Case) -> Result<(), Fail> {
    let mut config = first(alloc)?;
    act(rt, alloc, &mut config, case)
}
