// What a node asks of the president for a resource, which is no administrator's command.
use crate::cases::{BOTH, told};
use crate::fixture::{BASE, change};
use crate::tasks::{Task, run};
use ccr_tables::{AdminCommand, Config};
use cl_base::{Ask, Name, NodeSet};
use rg_view::GroupView;
use std::alloc::Global;
use std::process::Abort;
use std::test::Fail;

fn told_of(alloc: Global, config: &Config, view: &GroupView, ask: Ask) -> Result<Vec<u8>, Fail> {
    told(alloc, config, view, BOTH, AdminCommand::Act(ask))
}

fn answer(alloc: Global, config: &Config, ask: Ask) -> Result<Vec<u8>, Fail> {
    let view = GroupView::new(alloc, NodeSet::first(2));
    told_of(alloc, config, &view, ask)
}

fn asked(
    rt: &impl Abort,
    alloc: Global,
    config: &Config,
    ask: Ask,
    wanted: &[u8],
) -> Result<(), Fail> {
    let found = answer(alloc, config, ask)?;
    assert!(rt; found.as_slice() == wanted);
    Ok(())
}

pub fn ask(rt: &impl Abort, a: Global, config: &mut Config) -> Result<(), Fail> {
    change(rt, a, config, BASE)?;
    let (site, nil) = (Name::new(b"site")?, Name::new(b"nil")?);
    asked(rt, a, config, Ask::Restart(site), b"ok")?;
    asked(rt, a, config, Ask::Restart(nil), b"refused unknown nil")?;
    asked(rt, a, config, Ask::Move(site), b"ok")?;
    asked(rt, a, config, Ask::Move(nil), b"refused unknown nil")
}

#[test]
fn requests_for_resources(rt: HostRuntime) -> Result<(), Fail> {
    run(&rt, rt.alloc(), Task::Ask)
}
