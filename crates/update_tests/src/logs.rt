// Lists of updates, and the votes under them.
ghost use Rattle.std.specs.Prelude.{◌≤◌, length};
ghost use Rattle.cl_base.specs.Limits.{most_devices};

use crate::cases::{Case, run};
use crate::fixture::header;
use ccr_tables::Config;
use cl_base::{Bytes, Header, Table, Version};
use quorum_votes::Votes;
use std::alloc::Global;
use std::process::Abort;
use std::test::Fail;
use update_log::{LogVotes, add, config_after, is_update, votes_after};

fn put_text(alloc: Global, texts: &mut Vec<Bytes>, line: &[u8]) -> Result<(), Fail> {
    let text = Bytes::new(line.to_vec(alloc)?);
    Ok(texts.push(text)?)
}

fn put_texts(alloc: Global, texts: &mut Vec<Bytes>, lines: &[u8]) -> Result<(), Fail> {
    for line in lines.split(|b| *b == b'\n') {
        if !line.is_empty() {
            put_text(alloc, texts, line)?;
        }
    }
    Ok(())
}

/// The lines that are not empty.
fn texts(alloc: Global, lines: &[u8]) -> Result<Vec<Bytes>, Fail> {
    let mut texts = Vec::new(alloc);
    put_texts(alloc, &mut texts, lines)?;
    Ok(texts)
}

/// All votes, and those needed.
fn counted(votes: &Votes) -> (u64, u64) {
    (votes.total(), votes.needed())
}

fn counted_if(votes: &Option<Votes>) -> Option<(u64, u64)> {
    match votes {
        Some(votes) => Some(counted(votes)),
        None => None,
    }
}

/// The votes under the committed updates, and those with the pending one.
fn told(found: &Option<LogVotes>) -> (Option<(u64, u64)>, Option<(u64, u64)>) {
    match found {
        Some(votes) => (Some(counted(&votes.committed)), counted_if(&votes.pending)),
        None => (None, None),
    }
}

/// The votes under these texts, with the pending one, if any.
fn votes(
    alloc: Global,
    header: &Header,
    lines: &[u8],
    pending: Option<&Bytes>,
) -> Result<Option<LogVotes>, Fail>
    requires devices { length header.now.devices ≤ most_devices }
{
    let texts = texts(alloc, lines)?;
    Ok(votes_after(alloc, header, texts.as_slice(), pending)?)
}

fn votes_with(
    alloc: Global,
    header: &Header,
    lines: &[u8],
    pending: &[u8],
) -> Result<Option<LogVotes>, Fail>
    requires devices { length header.now.devices ≤ most_devices }
{
    let pending = Bytes::new(pending.to_vec(alloc)?);
    votes(alloc, header, lines, Some(&pending))
}

fn check_votes(
    rt: &impl Abort,
    found: &Option<LogVotes>,
    committed: Option<(u64, u64)>,
    pending: Option<(u64, u64)>,
) {
    let found = told(found);
    assert!(rt; found.0 == committed);
    assert!(rt; found.1 == pending);
}

fn expect_votes(
    rt: &impl Abort,
    alloc: Global,
    committed: &[u8],
    wanted: Option<(u64, u64)>,
) -> Result<(), Fail> {
    let header = header(alloc)?;
    check_votes(rt, &votes(alloc, &header, committed, None)?, wanted, None);
    Ok(())
}

fn expect_pending(
    rt: &impl Abort,
    alloc: Global,
    committed: &[u8],
    pending: &[u8],
    wanted: Option<((u64, u64), (u64, u64))>,
) -> Result<(), Fail> {
    let header = header(alloc)?;
    let found = votes_with(alloc, &header, committed, pending)?;
    match wanted {
        Some((before, then)) => check_votes(rt, &found, Some(before), Some(then)),
        None => check_votes(rt, &found, None, None),
    }
    Ok(())
}

#[test]
fn votes_under_updates(rt: HostRuntime) -> Result<(), Fail> {
    let a = rt.alloc();
    let disable = b"clq disable node 2".as_slice();
    expect_votes(&rt, a, b"", Some((3, 2)))?;
    expect_votes(&rt, a, disable, Some((1, 1)))?;
    expect_votes(
        &rt,
        a,
        b"clq disable node 2\nclq enable node 2",
        Some((3, 2)),
    )?;
    expect_votes(&rt, a, b"clq status", None)?;
    expect_pending(&rt, a, b"", disable, Some(((3, 2), (1, 1))))?;
    expect_pending(
        &rt,
        a,
        disable,
        b"clq enable node 2",
        Some(((1, 1), (3, 2))),
    )?;
    expect_pending(&rt, a, disable, disable, None)?;
    expect_pending(&rt, a, b"clq status", disable, None)
}

fn config(alloc: Global, header: &Header, lines: &[u8]) -> Result<Option<Config>, Fail>
    requires devices { length header.now.devices ≤ most_devices }
{
    let texts = texts(alloc, lines)?;
    Ok(config_after(alloc, header, texts.as_slice())?)
}

fn generation(config: &Option<Config>) -> Option<u64> {
    match config {
        Some(config) => Some(config.generation(Table::Groups)),
        None => None,
    }
}

fn groups(alloc: Global, lines: &[u8]) -> Result<Option<u64>, Fail> {
    let header = header(alloc)?;
    Ok(generation(&config(alloc, &header, lines)?))
}

/// How many updates changed the table of groups; none where the list is bad.
fn expect_groups(
    rt: &impl Abort,
    alloc: Global,
    lines: &[u8],
    wanted: Option<u64>,
) -> Result<(), Fail> {
    let found = groups(alloc, lines)?;
    assert_eq!(rt; found, wanted);
    Ok(())
}

#[test]
fn good_and_bad_lists(rt: HostRuntime) -> Result<(), Fail> {
    let a = rt.alloc();
    expect_groups(&rt, a, b"", Some(0))?;
    expect_groups(&rt, a, b"clrg create g 1,2", Some(1))?;
    expect_groups(&rt, a, b"clrg create g 1,2\nclrg create g 1,2", None)?;
    expect_groups(&rt, a, b"clrt register app obedient START,STOP", Some(0))?;
    expect_groups(&rt, a, b"clrt register app obedient STOP,START", None)?;
    expect_groups(&rt, a, b"clrg create g 1,2\nclq status", None)?;
    let one_way = b"clrg create a 1\nclrg create b 1\nclrg set a RG_dependencies b".as_slice();
    expect_groups(&rt, a, one_way, Some(3))?;
    let both_ways =
        b"clrg create a 1\nclrg create b 1\nclrg set a RG_dependencies b\nclrg set b RG_dependencies a".as_slice();
    expect_groups(&rt, a, both_ways, None)
}

/// Whether the text is taken as one more update, and how many have then changed the table of groups.
fn expect_added(
    rt: &impl Abort,
    alloc: Global,
    config: &mut Config,
    text: &[u8],
    wanted: bool,
    groups: u64,
) -> Result<(), Fail> {
    let taken = add(alloc, config, text)?;
    assert!(rt; taken == wanted);
    assert!(rt; config.generation(Table::Groups) == groups);
    Ok(())
}

pub fn add_one_more(rt: &impl Abort, a: Global, config: &mut Config) -> Result<(), Fail> {
    expect_added(rt, a, config, b"clrg create g 1,2", true, 1)?;
    expect_added(rt, a, config, b"clrg create g 1,2", false, 1)?;
    expect_added(rt, a, config, b"clrg set g RG_dependencies g", false, 1)?;
    expect_added(rt, a, config, b"clrg set g  Failback TRUE", false, 1)?;
    expect_added(rt, a, config, b"clrg status", false, 1)?;
    expect_added(rt, a, config, b"clrg set g Failback TRUE", true, 2)
}

#[test]
fn one_more_update(rt: HostRuntime) -> Result<(), Fail> {
    run(&rt, rt.alloc(), Case::AddOneMore)
}

/// Each of these lines is an update under the version, or none is.
fn expect_updates(
    rt: &impl Abort,
    alloc: Global,
    version: Version,
    lines: &str,
    wanted: bool,
) -> Result<(), Fail> {
    for line in lines.as_bytes().split(|b| *b == b'\n') {
        let found = is_update(alloc, version, line)?;
        assert_eq!(rt; found, wanted);
    }
    Ok(())
}

const UPDATES: &str = "clq disable node 2
clrg create g 1,2
clrs set r Retry_count 7";

/// The first is empty, the second ends with a space.
const NO_UPDATES: &str =
    "\nclrg create g 1,2 \nclrt register app obedient STOP,START\nclrg remaster g\nclq status\nccr types";

#[test]
fn texts_that_are_updates(rt: HostRuntime) -> Result<(), Fail> {
    let a = rt.alloc();
    expect_updates(&rt, a, Version::One, UPDATES, true)?;
    expect_updates(&rt, a, Version::Two, UPDATES, true)?;
    expect_updates(&rt, a, Version::One, NO_UPDATES, false)?;
    expect_updates(&rt, a, Version::Two, NO_UPDATES, false)?;
    expect_updates(&rt, a, Version::One, "clnode add 3", false)?;
    expect_updates(&rt, a, Version::Two, "clnode add 3", true)
}
