// 18 and 19: what may not be together.
use crate::cases::{BOTH, expect};
use crate::fixture::{BASE, change};
use crate::tasks::{Task, run};
use admin_commands::cycle;
use admin_words::parse;
use ccr_tables::{AdminCommand, Config, Update};
use std::alloc::Global;
use std::process::Abort;
use std::test::Fail;

/// `web` comes after `idle`, and was created before it; `cart` comes after `site`, and was created
/// behind it.
const CYCLES: &[u8] = b"clrg set idle RG_dependencies web|refused cycle web,idle
clrg set idle RG_affinities ++web|refused cycle web,idle
clrg set idle RG_affinities --web|refused cycle web,idle
clrg set idle RG_affinities +web|ok
clrg set idle RG_dependencies db|ok
clrs set site Resource_dependencies cart|refused cycle site,cart
clrs set site Resource_dependencies_weak cart|refused cycle site,cart
clrs set site Resource_dependencies_offline_restart cart|refused cycle site,cart
clrs set site Resource_dependencies disk|ok";

/// So `db` comes after `web`.
const ACROSS: &[u8] = b"clrs set disk Resource_dependencies site";

const CYCLES_ACROSS: &[u8] = b"clrg set web RG_dependencies db|refused cycle web,db
clrg set idle RG_dependencies db|refused cycle web,idle,db
clrg set idle RG_dependencies spare|ok
clrs set cart Resource_dependencies disk|refused cycle web,db";

#[test]
fn cycles_are_refused(rt: HostRuntime) -> Result<(), Fail> {
    expect(&rt, rt.alloc(), b"", BOTH, CYCLES)?;
    expect(&rt, rt.alloc(), ACROSS, BOTH, CYCLES_ACROSS)
}

fn has_cycle(alloc: Global, config: &Config, u: &Update) -> Result<bool, Fail> {
    Ok(cycle(alloc, config, u)?.is_some())
}

/// Whether the update makes a cycle.
fn makes_cycle(alloc: Global, config: &Config, text: &[u8]) -> Result<bool, Fail> {
    match parse(alloc, config.version(), text)? {
        AdminCommand::Change(u) => has_cycle(alloc, config, &u),
        _ => Err(Fail::new("no update")),
    }
}

pub fn make_cycles(rt: &impl Abort, a: Global, config: &mut Config) -> Result<(), Fail> {
    change(rt, a, config, BASE)?;
    assert!(rt; makes_cycle(a, config, b"clrg set idle RG_dependencies web")?);
    assert!(rt; !makes_cycle(a, config, b"clrg set idle RG_dependencies db")?);
    assert!(rt; !makes_cycle(a, config, b"clrg manage idle")?);
    Ok(())
}

#[test]
fn updates_that_make_cycles(rt: HostRuntime) -> Result<(), Fail> {
    run(&rt, rt.alloc(), Task::MakeCycles)
}

const ONE_THERE: &[u8] = b"clrs create new db lone|refused single
clrs create new db app|ok";

#[test]
fn one_of_its_type(rt: HostRuntime) -> Result<(), Fail> {
    expect(&rt, rt.alloc(), b"", BOTH, ONE_THERE)?;
    let gone = b"clrs delete disk".as_slice();
    expect(&rt, rt.alloc(), gone, BOTH, b"clrs create new db lone|ok")
}
