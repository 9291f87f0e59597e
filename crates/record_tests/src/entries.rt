// The updates of a configuration as they are prepared and committed, and which of several nodes has the newest.
use crate::check::check;
use Step::{Commit, CommitPending, Prepare};
use ccr_commit::{Entries, Prepared, Summary, newest};
use cl_base::{Epoch, NodeId, NodeSet};
use std::alloc::Global;
use std::process::Abort;
use std::test::Fail;

/// What is done with entries, and its answer.
#[derive(Clone, Copy)]
enum Step {
    /// The text of this letter is prepared for the place.
    Prepare(u64, u8, Prepared),
    Commit(u64, bool),
    CommitPending,
}

fn holds(entries: &mut Entries, step: Step) -> Result<bool, Fail> {
    match step {
        Step::Prepare(place, letter, wanted) => {
            Ok(entries.prepare(place, [letter].as_slice())? == wanted)
        }
        Step::Commit(place, wanted) => Ok(entries.commit(place) == wanted),
        Step::CommitPending => {
            entries.commit_pending();
            Ok(true)
        }
    }
}

fn tell_committed(text: &mut Vec<u8>, entries: &Entries) -> Result<(), Fail> {
    for committed in entries.committed() {
        text.extend_from_slice(committed.items())?;
        text.push(b',')?;
    }
    Ok(())
}

/// A line of the texts, each committed one before a comma, and the pending one, if any, last.
fn tell(text: &mut Vec<u8>, entries: &Entries) -> Result<(), Fail> {
    tell_committed(text, entries)?;
    if let Some(pending) = entries.pending() {
        text.extend_from_slice(pending.items())?;
    }
    Ok(text.push(b'\n')?)
}

fn take_all(
    rt: &impl Abort,
    text: &mut Vec<u8>,
    entries: &mut Entries,
    steps: &[Step],
) -> Result<(), Fail> {
    for place in 0..steps.len() {
        check(rt, holds(entries, steps[place])?, 0, place);
        tell(text, entries)?;
    }
    Ok(())
}

const LIFE: &[Step] = &[
    Prepare(2, b'b', Prepared::Gap(1)),
    Prepare(1, b'a', Prepared::Taken),
    Prepare(1, b'z', Prepared::Already),
    Prepare(3, b'c', Prepared::Gap(2)),
    Commit(2, false),
    Prepare(2, b'b', Prepared::Taken),
    Commit(2, true),
    Commit(2, false),
    Prepare(3, b'c', Prepared::Taken),
    CommitPending,
    CommitPending,
];

// The texts after each of these steps.
const OF_LIFE: &[u8] = b"
a
a
a
a
a,b
a,b,
a,b,
a,b,c
a,b,c,
a,b,c,
";

fn live(rt: &impl Abort, alloc: Global, entries: &mut Entries) -> Result<(), Fail> {
    let mut text = Vec::new(alloc);
    take_all(rt, &mut text, entries, LIFE)?;
    check(rt, text.as_slice() == OF_LIFE, 1, 0);
    Ok(())
}

#[test]
fn entries_through_a_short_life(rt: HostRuntime) -> Result<(), Fail> {
    let mut entries = Entries::new(rt.alloc());
    live(&rt, rt.alloc(), &mut entries)
}

/// A node, the epoch that it installed, how many updates it has committed, how many it has in all, and the place of
/// the newest summary up to it.
type Row = (u64, u64, u64, u64, u64);

fn summary(row: Row) -> Result<Summary, Fail> {
    let (node, installed, committed, all, _) = row;
    Ok(Summary {
        node: NodeId::new(node)?,
        installed: Epoch::from_number(installed),
        members: NodeSet::empty(),
        committed,
        all,
    })
}

/// Of two that agree it is the first.
const HANDFUL: &[Row] = &[
    (1, 65, 9, 9, 0),
    (3, 129, 2, 3, 1),
    (4, 129, 3, 3, 2),
    (2, 129, 3, 3, 3),
    (2, 129, 3, 3, 3),
];

const ALIKE: &[Row] = &[(2, 129, 3, 3, 0), (2, 129, 3, 3, 0)];

fn expect_newest(rt: &impl Abort, alloc: Global, rows: &[Row]) -> Result<(), Fail> {
    let mut summaries = Vec::new(alloc);
    for place in 0..rows.len() {
        summaries.push(summary(rows[place])?)?;
        check(rt, newest(&summaries) == rows[place].4, 0, place);
    }
    Ok(())
}

#[test]
fn newest_of_a_handful(rt: HostRuntime) -> Result<(), Fail> {
    expect_newest(&rt, rt.alloc(), HANDFUL)?;
    expect_newest(&rt, rt.alloc(), ALIKE)
}
