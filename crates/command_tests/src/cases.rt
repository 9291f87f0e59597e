// What commands are answered over a configuration, in a membership.
use crate::fixture::{BASE, change, first};
use admin_commands::{Accepted, CheckError, check};
use admin_words::parse;
use ccr_tables::{AdminCommand, Config};
use cl_base::{DevSet, NodeSet, Refusal, Version};
use rg_view::{GroupView, ResourceAt};
use status_report::{Answer, answer_text};
use std::alloc::Global;
use std::process::Abort;
use std::test::Fail;

/// The members and the devices held, as bits, and the length of the president's record.
#[derive(Clone, Copy)]
pub struct Membership {
    pub members: u32,
    pub held: u16,
    pub length: u16,
}

/// The nodes 1 and 2 are members and hold both devices.
pub const BOTH: Membership = Membership {
    members: 0b11,
    held: 0b11,
    length: 0,
};

/// `query`, `ok` for what else is accepted, and else the answer's words.
fn answer(alloc: Global, found: Result<Accepted, CheckError>) -> Result<Vec<u8>, Fail> {
    match found {
        Ok(accepted) => Ok(accepted_word(&accepted).to_vec(alloc)?),
        Err(CheckError::Refused(refusal)) => refused_text(alloc, refusal),
        Err(CheckError::NoMemory) => Err(Fail::new("no memory")),
    }
}

fn accepted_word(accepted: &Accepted) -> &'static [u8] {
    match accepted {
        Accepted::Change(_) | Accepted::Act(_) => b"ok",
        Accepted::Query(_) => b"query",
    }
}

fn refused_text(alloc: Global, refusal: Refusal) -> Result<Vec<u8>, Fail> {
    Ok(answer_text(alloc, &Answer::Refused(refusal))?)
}

/// The answer to the command.
pub fn told(
    alloc: Global,
    config: &Config,
    view: &GroupView,
    at: Membership,
    command: AdminCommand,
) -> Result<Vec<u8>, Fail> {
    let (members, held) = (NodeSet::from_bits(at.members), DevSet::from_bits(at.held));
    let found = check(
        alloc,
        command,
        config,
        view,
        members,
        held,
        at.length as u64,
    );
    answer(alloc, found)
}

fn expect_told(
    rt: &impl Abort,
    alloc: Global,
    config: &Config,
    view: &GroupView,
    at: Membership,
    words: &[u8],
    wanted: &[u8],
) -> Result<(), Fail> {
    let command = parse(alloc, config.version(), words)?;
    let found = told(alloc, config, view, at, command)?;
    assert_eq!(rt; found.as_slice(), wanted);
    Ok(())
}

/// A row: the words of a command, a bar, its answer.
fn answered(
    rt: &impl Abort,
    alloc: Global,
    config: &Config,
    view: &GroupView,
    at: Membership,
    parts: &[&[u8]],
) -> Result<(), Fail> {
    match parts {
        [words, wanted] => expect_told(rt, alloc, config, view, at, words, wanted),
        _ => Err(Fail::new("a row has two parts")),
    }
}

fn parts(alloc: Global, row: &[u8]) -> Result<Vec<&[u8]>, Fail> {
    Ok(row.split(|b| *b == b'|').collect(alloc)?)
}

/// The rows hold, where this is known of groups.
fn all_answered(
    rt: &impl Abort,
    alloc: Global,
    config: &Config,
    view: &GroupView,
    at: Membership,
    rows: &[u8],
) -> Result<(), Fail> {
    for row in rows.split(|b| *b == b'\n') {
        answered(rt, alloc, config, view, at, &parts(alloc, row)?)?;
    }
    Ok(())
}

fn put(view: &mut GroupView, states: &[ResourceAt]) -> Result<(), Fail> {
    for state in states {
        view.resources.put(*state)?;
    }
    Ok(())
}

fn put_and_answer(
    rt: &impl Abort,
    alloc: Global,
    config: &Config,
    view: &mut GroupView,
    states: &[ResourceAt],
    at: Membership,
    rows: &[u8],
) -> Result<(), Fail> {
    put(view, states)?;
    all_answered(rt, alloc, config, view, at, rows)
}

/// The rows hold, where these states are known of resources.
fn answers(
    rt: &impl Abort,
    alloc: Global,
    config: &Config,
    states: &[ResourceAt],
    at: Membership,
    rows: &[u8],
) -> Result<(), Fail> {
    let mut view = GroupView::new(alloc, NodeSet::from_bits(at.members));
    put_and_answer(rt, alloc, config, &mut view, states, at, rows)
}

/// What there is before more changes: under the second version something of each kind.
fn base(version: Version) -> &'static [u8] {
    match version {
        Version::One => b"",
        Version::Two => BASE,
    }
}

fn change_and_answer(
    rt: &impl Abort,
    alloc: Global,
    config: &mut Config,
    more: &[u8],
    states: &[ResourceAt],
    at: Membership,
    rows: &[u8],
) -> Result<(), Fail> {
    change(rt, alloc, config, base(config.version()))?;
    change(rt, alloc, config, more)?;
    answers(rt, alloc, config, states, at, rows)
}

/// This alone owns a configuration in which rows are answered.
fn in_version(
    rt: &impl Abort,
    alloc: Global,
    version: Version,
    more: &[u8],
    states: &[ResourceAt],
    at: Membership,
    rows: &[u8],
) -> Result<(), Fail> {
    let mut config = first(alloc, version)?;
    change_and_answer(rt, alloc, &mut config, more, states, at, rows)
}

/// The rows hold in the configuration of the first version with these changes.
pub fn expect_of_one(
    rt: &impl Abort,
    alloc: Global,
    changes: &[u8],
    at: Membership,
    rows: &[u8],
) -> Result<(), Fail> {
    in_version(rt, alloc, Version::One, changes, &[], at, rows)
}

/// The rows hold in the configuration with something of each kind, behind more changes.
pub fn expect(
    rt: &impl Abort,
    alloc: Global,
    more: &[u8],
    at: Membership,
    rows: &[u8],
) -> Result<(), Fail> {
    expect_with(rt, alloc, more, &[], at, rows)
}

/// The same, where these states are known of resources.
pub fn expect_with(
    rt: &impl Abort,
    alloc: Global,
    more: &[u8],
    states: &[ResourceAt],
    at: Membership,
    rows: &[u8],
) -> Result<(), Fail> {
    in_version(rt, alloc, Version::Two, more, states, at, rows)
}
