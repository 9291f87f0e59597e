// A disk in memory through stops and crashes.
use crate::check::check;
use Step::{Crash, IsStopped, NoRead, Read, ReadTwo, Stop, Sync, Write};
use local_disk::{Choice, LocalDisk, MemDisk};
use std::alloc::Global;
use std::process::Abort;
use std::test::Fail;

/// What is done with a disk, or is so. A call succeeds or fails.
#[derive(Clone, Copy)]
enum Step {
    /// Two bytes are written at this place.
    Write(u8, [u8; 2], bool),
    Sync(bool),
    /// These two bytes stand at 10.
    ReadTwo([u8; 2]),
    /// These three bytes stand at 10.
    Read([u8; 3]),
    /// Reading fails.
    NoRead,
    /// After so many calls the next one is stopped.
    Stop(u8, Choice),
    IsStopped(bool),
    Crash,
}

fn has_two(disk: &mut MemDisk, wanted: [u8; 2]) -> bool {
    let mut read = [9; 2];
    disk.read_at(10, &mut read).is_ok() && read == wanted
}

fn has_three(disk: &mut MemDisk, wanted: [u8; 3]) -> bool {
    let mut read = [9; 3];
    disk.read_at(10, &mut read).is_ok() && read == wanted
}

fn stop(disk: &mut MemDisk, before: u8, choice: Choice) -> bool {
    disk.stop_after(u64::from(before) + 1, choice);
    true
}

fn crash(disk: &mut MemDisk) -> bool {
    disk.crash();
    true
}

fn holds(disk: &mut MemDisk, step: Step) -> bool {
    match step {
        Step::Write(place, bytes, ok) => disk.write_at(u64::from(place), &bytes).is_ok() == ok,
        Step::Sync(ok) => disk.sync().is_ok() == ok,
        Step::ReadTwo(wanted) => has_two(disk, wanted),
        Step::Read(wanted) => has_three(disk, wanted),
        Step::NoRead => disk.read_at(10, &mut [9; 3]).is_err(),
        Step::Stop(before, choice) => stop(disk, before, choice),
        Step::IsStopped(wanted) => disk.stopped() == wanted,
        Step::Crash => crash(disk),
    }
}

fn take_all(rt: &impl Abort, disk: &mut MemDisk, list: usize, steps: &[Step]) {
    for place in 0..steps.len() {
        check(rt, holds(disk, steps[place]), list, place);
    }
}

fn expect(rt: &impl Abort, alloc: Global, list: usize, steps: &[Step]) -> Result<(), Fail> {
    let mut disk = MemDisk::new(alloc)?;
    take_all(rt, &mut disk, list, steps);
    Ok(())
}

/// The steps of each list hold, one after the other, of an empty disk.
fn expect_each(rt: &impl Abort, alloc: Global, lists: &[&[Step]]) -> Result<(), Fail> {
    for list in 0..lists.len() {
        expect(rt, alloc, list, lists[list])?;
    }
    Ok(())
}

// Two bytes are synced at 10, and the write of two at 11 is stopped.
const OLD_WRITE: &[Step] = &[
    Write(10, [1, 2], true),
    Sync(true),
    Stop(0, Choice::Old),
    Write(11, [3, 4], false),
    IsStopped(true),
    NoRead,
    Crash,
    IsStopped(false),
    Read([1, 2, 0]),
];

const NEW_WRITE: &[Step] = &[
    Write(10, [1, 2], true),
    Sync(true),
    Stop(0, Choice::New),
    Write(11, [3, 4], false),
    IsStopped(true),
    NoRead,
    Crash,
    IsStopped(false),
    Read([1, 3, 4]),
];

const ZERO_WRITE: &[Step] = &[
    Write(10, [1, 2], true),
    Sync(true),
    Stop(0, Choice::Zero),
    Write(11, [3, 4], false),
    IsStopped(true),
    NoRead,
    Crash,
    IsStopped(false),
    Read([1, 0, 0]),
];

// The sync of two bytes at 10 is stopped.
const OLD_SYNC: &[Step] = &[
    Stop(1, Choice::Old),
    Write(10, [1, 2], true),
    Sync(false),
    Crash,
    ReadTwo([0, 0]),
];

const NEW_SYNC: &[Step] = &[
    Stop(1, Choice::New),
    Write(10, [1, 2], true),
    Sync(false),
    Crash,
    ReadTwo([1, 2]),
];

const ZERO_SYNC: &[Step] = &[
    Stop(1, Choice::Zero),
    Write(10, [1, 2], true),
    Sync(false),
    Crash,
    ReadTwo([0, 0]),
];

// An armed stop stays through a crash.
const STOP_AFTER_A_CRASH: &[Step] = &[
    Write(10, [1, 2], true),
    Stop(1, Choice::New),
    Crash,
    ReadTwo([1, 2]),
    Sync(false),
    Crash,
    Sync(true),
];

const STOPS: &[&[Step]] = &[
    OLD_WRITE,
    NEW_WRITE,
    ZERO_WRITE,
    OLD_SYNC,
    NEW_SYNC,
    ZERO_SYNC,
    STOP_AFTER_A_CRASH,
];

#[test]
fn stops(rt: HostRuntime) -> Result<(), Fail> {
    expect_each(&rt, rt.alloc(), STOPS)
}
