// What queries are answered, as it is printed.
use crate::cases::{Case, run};
use crate::fixture::change;
use ccr_tables::Config;
use ccr_text::{Row, TableRows, checksum};
use cl_base::{Bytes, DevSet, NodeSet, Table};
use query_lines::{quorum_lines, table_lines};
use status_report::{Entry, StatusEntry, print};
use std::alloc::Global;
use std::process::Abort;
use std::test::Fail;

fn add(alloc: Global, text: &mut Vec<u8>, entry: &Entry) -> Result<(), Fail> {
    let line = print(alloc, entry)?;
    Ok(text.extend_from_slice(line.as_slice())?)
}

/// The lines of the entries.
fn add_all(alloc: Global, text: &mut Vec<u8>, entries: Vec<StatusEntry>) -> Result<(), Fail> {
    for entry in entries {
        add(alloc, text, &Entry::Status(entry))?;
    }
    Ok(())
}

fn printed(alloc: Global, entries: Vec<StatusEntry>) -> Result<Vec<u8>, Fail> {
    let mut text = Vec::new(alloc);
    add_all(alloc, &mut text, entries)?;
    Ok(text)
}

/// How the votes stand with these members and devices held.
fn expect_votes(
    rt: &impl Abort,
    alloc: Global,
    config: &Config,
    members: NodeSet,
    held: DevSet,
    wanted: &str,
) -> Result<(), Fail> {
    let text = printed(alloc, quorum_lines(alloc, config.votes(), members, held)?)?;
    assert!(rt; text.as_slice() == wanted.as_bytes());
    Ok(())
}

const ALL_THERE: &str = "quorum votes 3 need 2
quorum node 1 1 member
quorum node 2 1 member
quorum device 1 1 held
";

const ALONE: &str = "quorum votes 3 need 2
quorum node 1 1 member
quorum node 2 1 absent
quorum device 1 1 lost
";

const WITHOUT_THE_DEVICE: &str = "quorum votes 2 need 2
quorum node 1 1 member
quorum node 2 1 member
quorum device 1 0 off
";

const WITHOUT_A_NODE: &str = "quorum votes 1 need 1
quorum node 1 1 absent
quorum node 2 0 member
quorum device 1 0 held
";

pub fn tell_votes(rt: &impl Abort, a: Global, config: &mut Config) -> Result<(), Fail> {
    let (both, second) = (NodeSet::from_bits(0b11), NodeSet::from_bits(0b10));
    let (device, no_device) = (DevSet::from_bits(0b1), DevSet::from_bits(0b0));
    expect_votes(rt, a, config, both, device, ALL_THERE)?;
    expect_votes(rt, a, config, NodeSet::from_bits(0b1), no_device, ALONE)?;
    change(rt, a, config, b"clq disable device 1")?;
    expect_votes(rt, a, config, both, device, WITHOUT_THE_DEVICE)?;
    expect_votes(rt, a, config, both, no_device, WITHOUT_THE_DEVICE)?;
    change(rt, a, config, b"clq enable device 1")?;
    change(rt, a, config, b"clq disable node 2")?;
    expect_votes(rt, a, config, second, device, WITHOUT_A_NODE)
}

#[test]
fn votes_stand(rt: HostRuntime) -> Result<(), Fail> {
    run(&rt, rt.alloc(), Case::TellVotes)
}

/// The text of the table.
fn expect_table(
    rt: &impl Abort,
    alloc: Global,
    config: &Config,
    table: Table,
    wanted: &str,
) -> Result<(), Fail> {
    let text = printed(alloc, table_lines(alloc, config, table)?)?;
    assert!(rt; text.as_slice() == wanted.as_bytes());
    Ok(())
}

/// The digest of no bytes.
const NO_TYPES: &str =
    "table ccr_gennum 0\ntable ccr_checksum e3b0c44298fc1c149afbf4c8996fb92427ae41e4649b934ca495991b7852b855\n";

const ONE_TYPE: &str =
    "table ccr_gennum 1\ntable ccr_checksum 2f22c28eb8c83086a23df1e0ee32f9d46e3c2ca797cd52569a070cd1424029d7\ntable app\tobedient START,STOP multi any\n";

const VOTES: &str =
    "table ccr_gennum 0\ntable ccr_checksum 15f59bf3f234ab440546a9885701fc1e5a0ff4ce19d51ffb0e9ba14d9597b1f1\ntable node.1\t1\ntable node.2\t1\ntable device.1\tenabled\n";

pub fn tell_tables(rt: &impl Abort, a: Global, config: &mut Config) -> Result<(), Fail> {
    expect_table(rt, a, config, Table::Infrastructure, VOTES)?;
    expect_table(rt, a, config, Table::Types, NO_TYPES)?;
    change(rt, a, config, b"clrt register app obedient START,STOP")?;
    expect_table(rt, a, config, Table::Types, ONE_TYPE)?;
    expect_table(rt, a, config, Table::Infrastructure, VOTES)
}

#[test]
fn texts_of_tables(rt: HostRuntime) -> Result<(), Fail> {
    run(&rt, rt.alloc(), Case::TellTables)
}

fn row(alloc: Global, key: &[u8], value: &[u8]) -> Result<Row, Fail> {
    Ok(Row {
        key: Bytes::new(key.to_vec(alloc)?),
        value: Bytes::new(value.to_vec(alloc)?),
    })
}

fn two_rows(alloc: Global) -> Result<TableRows, Fail> {
    let first = row(alloc, b"a", b"b")?;
    let second = row(alloc, b"c", b"")?;
    Ok(TableRows::new(vec![in alloc; first, second]?))
}

/// The digest of the seven bytes of two rows' lines: `a`, tab, `b`, newline; `c`, tab, newline.
const OF_TWO_ROWS: [u8; 32] = [
    0x6e, 0xf3, 0x4d, 0x93, 0x66, 0xc8, 0x27, 0x7a, 0x30, 0xea, 0x18, 0x70, 0x76, 0x72, 0x8e, 0x58,
    0x54, 0x5b, 0x93, 0xf3, 0x60, 0x4b, 0x8d, 0xa1, 0x4b, 0xa5, 0x3a, 0xeb, 0x7e, 0x39, 0xaf, 0x08,
];

#[test]
fn digests_of_rows(rt: HostRuntime) -> Result<(), Fail> {
    let a = rt.alloc();
    let rows = two_rows(a)?;
    assert!(rt; checksum(a, &rows)? == OF_TWO_ROWS);
    Ok(())
}
