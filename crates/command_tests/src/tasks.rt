// What is done over a configuration beside rows of commands.
use crate::cycles::make_cycles;
use crate::fixture::first;
use crate::requests::ask;
use ccr_tables::Config;
use cl_base::Version;
use std::alloc::Global;
use std::process::Abort;
use std::test::Fail;

#[derive(Clone, Copy)]
pub enum Task {
    Ask,
    MakeCycles,
}

fn act(rt: &impl Abort, alloc: Global, config: &mut Config, task: Task) -> Result<(), Fail> {
    match task {
        Task::Ask => ask(rt, alloc, config),
        Task::MakeCycles => make_cycles(rt, alloc, config),
    }
}

pub fn run(rt: &impl Abort, alloc: Global, task: Task) -> Result<(), Fail> {
    let mut config = first(alloc, Version::Two)?;
    act(rt, alloc, &mut config, task)
}
