// 17 and 20: what goes by the states of resources on nodes.
use crate::cases::{BOTH, Membership, expect_with};
use cl_base::{Name, NodeId};
use rg_view::ResourceAt;
use std::test::Fail;

/// The resource on the node, without flags and marks.
fn plain(resource: &[u8], node: u64) -> Result<ResourceAt, Fail> {
    Ok(ResourceAt::unmarked(Name::new(resource)?, NodeId::new(node)?))
}

fn prepared() -> Result<ResourceAt, Fail> {
    let mut state = plain(b"site", 2)?;
    state.pre = true;
    Ok(state)
}

fn running() -> Result<ResourceAt, Fail> {
    let mut state = plain(b"site", 2)?;
    state.run = true;
    Ok(state)
}

fn monitored() -> Result<ResourceAt, Fail> {
    let mut state = plain(b"site", 2)?;
    state.mon = true;
    Ok(state)
}

/// All marks, and no flag.
fn marked() -> Result<ResourceAt, Fail> {
    let mut state = plain(b"site", 2)?;
    state.faulted = true;
    state.stop_failed = true;
    state.monitor_failed = true;
    Ok(state)
}

const UP: &[u8] = b"clrg unmanage web|refused still-up
clrg set web Nodelist 1,2|refused still-up
clrg set web Maximum_primaries 1|refused still-up
clrg set web RG_dependencies idle|refused still-up
clrg set web RG_affinities +db|refused still-up
clrg set web Failback TRUE|ok
clrg set db Nodelist 1,2|ok
clrs set cart Resource_dependencies site|refused still-up
clrs set cart Resource_dependencies_weak site|refused still-up
clrs set cart Resource_dependencies_offline_restart site|refused still-up
clrs set cart Retry_count 1|ok
clrs set disk Resource_dependencies none|ok
clrs disable site|ok";

const MAY_BE_UP: &[u8] = b"clrg unmanage web|refused still-up";

const DOWN: &[u8] = b"clrg unmanage web|ok
clrg set web Nodelist 1,2|ok
clrs set cart Resource_dependencies site|ok";

/// Node 2 is no member.
const WITHOUT_2: Membership = Membership {
    members: 0b101,
    held: 0b11,
    length: 0,
};

#[test]
fn groups_that_are_up(rt: HostRuntime) -> Result<(), Fail> {
    let a = rt.alloc();
    let running = running()?;
    expect_with(&rt, a, b"", &[running], BOTH, UP)?;
    expect_with(&rt, a, b"", &[marked()?, prepared()?], BOTH, MAY_BE_UP)?;
    expect_with(&rt, a, b"", &[monitored()?], BOTH, MAY_BE_UP)?;
    expect_with(&rt, a, b"", &[marked()?], BOTH, DOWN)?;
    expect_with(&rt, a, b"", &[running], WITHOUT_2, DOWN)
}

const CLEARED: &[u8] = b"clrs clear site 2|ok
clrs clear site 1|refused no-mark
clrs clear cart 2|refused no-mark";

const NOT_CLEARED: &[u8] = b"clrs clear site 2|refused no-mark";

#[test]
fn marks_that_are_cleared(rt: HostRuntime) -> Result<(), Fail> {
    let a = rt.alloc();
    let mut faulted = marked()?;
    faulted.stop_failed = false;
    expect_with(&rt, a, b"", &[marked()?], BOTH, CLEARED)?;
    expect_with(&rt, a, b"", &[faulted], BOTH, NOT_CLEARED)?;
    expect_with(&rt, a, b"", &[], BOTH, NOT_CLEARED)
}
