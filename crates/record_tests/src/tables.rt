// The text of a table, read and printed.
ghost use Rattle.ccr_text.specs.TableText.{AreRows};

use crate::check::check;
use ccr_text::{Row, TableRows, TextError, print_table, read_table};
use std::alloc::Global;
use std::process::Abort;
use std::test::Fail;

const EMPTY: &[u8] = b"ccr_gennum 0
ccr_checksum e3b0c44298fc1c149afbf4c8996fb92427ae41e4649b934ca495991b7852b855
";

const TWO: &[u8] = b"ccr_gennum 7
ccr_checksum 1e180e703c5f9ec68069bc4fd6e7e26ddefd9397b755b6f26a6f66b116830013
node.1\t1
device.1\tenabled two
";

fn tell_word(text: &mut Vec<u8>, word: &[u8], end: u8) -> Result<(), Fail> {
    text.extend_from_slice(word)?;
    Ok(text.push(end)?)
}

/// The rows, each as its key, `=`, its value and `;`.
fn tell_rows(text: &mut Vec<u8>, rows: &[Row]) -> Result<(), Fail> {
    for row in rows {
        tell_word(text, row.key.items(), b'=')?;
        tell_word(text, row.value.items(), b';')?;
    }
    Ok(())
}

fn are_told(alloc: Global, rows: &[Row], wanted: &[u8]) -> Result<bool, Fail> {
    let mut text = Vec::new(alloc);
    tell_rows(&mut text, rows)?;
    Ok(text.as_slice() == wanted)
}

fn are_printed(alloc: Global, number: u64, rows: &TableRows, wanted: &[u8]) -> Result<bool, Fail>
    requires form { AreRows rows.now }
{
    let text = print_table(alloc, number, rows)?;
    Ok(text.as_slice() == wanted)
}

fn check_rows(
    rt: &impl Abort,
    alloc: Global,
    number: u64,
    rows: &TableRows,
    told: &[u8],
    text: &[u8],
) -> Result<(), Fail>
    requires form { AreRows rows.now }
{
    check(rt, are_told(alloc, rows.items(), told)?, 0, 1);
    check(rt, are_printed(alloc, number, rows, text)?, 0, 2);
    Ok(())
}

/// The text is that of a table with this number and these rows, as told, which is printed so again.
fn expect(
    rt: &impl Abort,
    alloc: Global,
    text: &[u8],
    wanted: u64,
    told: &[u8],
) -> Result<(), Fail> {
    let (number, rows) = read_table(alloc, text)?;
    check(rt, number == wanted, 0, 0);
    check_rows(rt, alloc, number, &rows, told, text)
}

fn no_rows_are_printed(alloc: Global, wanted: &[u8]) -> Result<bool, Fail> {
    let rows = TableRows::new(Vec::new(alloc));
    are_printed(alloc, 0, &rows, wanted)
}

#[test]
fn tables_there_and_back(rt: HostRuntime) -> Result<(), Fail> {
    expect(&rt, rt.alloc(), TWO, 7, b"node.1=1;device.1=enabled two;")?;
    expect(&rt, rt.alloc(), EMPTY, 0, b"")?;
    check(&rt, no_rows_are_printed(rt.alloc(), EMPTY)?, 0, 3);
    Ok(())
}

/// The number of the first line that the text may not have.
fn expect_bad_line(rt: &impl Abort, alloc: Global, text: &[u8], line: u64) {
    let found = read_table(alloc, text).err();
    check(rt, found == Some(TextError::BadLine(line)), 0, 0);
}

#[test]
fn lines_that_are_not_allowed(rt: HostRuntime) -> Result<(), Fail> {
    expect_bad_line(&rt, rt.alloc(), b"", 1);
    expect_bad_line(&rt, rt.alloc(), b"ccr_gennum 07\n", 1);
    expect_bad_line(&rt, rt.alloc(), b"ccr_gennum 18446744073709551616\n", 1);
    expect_bad_line(&rt, rt.alloc(), b"ccr_gennum 7\n", 2);
    expect_bad_line(&rt, rt.alloc(), b"ccr_gennum 7\nccr_checksum 00\n", 2);
    Ok(())
}
