// Stops in each call of a save and of a mounting, under each choice.
ghost use Rattle.std.specs.Prelude.{◌≡◌, ◌≤◌, length, IfOk};
ghost use Rattle.local_disk.specs.Memory.{IsImage};
ghost use Rattle.record_store.specs.Store.{Mountable, Stands};

use crate::check::check;
use Case::{Longest, Mounting, SaveToFirst, SaveToSecond};
use local_disk::Choice::{New, Old, Zero};
use local_disk::{Choice, MemDisk};
use record_store::{MOST_BYTES, Store, StoreError, empty_disk_mounts};
use std::alloc::Global;
use std::process::Abort;
use std::test::Fail;

/// What is done with a disk that holds "old". After so many calls the next one is stopped.
#[derive(Clone, Copy)]
enum Case {
    /// The stop is in saving "new", and the new text is kept, or the old one.
    SaveToFirst(u8, Choice, bool),
    SaveToSecond(u8, Choice, bool),
    /// The stop is in a mounting after a save of "new", which is kept.
    Mounting(u8, Choice),
    /// The longest text is saved, and no longer one.
    Longest,
}

// The store of an empty disk, where "old" is saved: in the second slot, or after another save in the first.
fn with_old(alloc: Global, disk: &mut MemDisk, in_first: bool) -> Result<Store, Fail>
    requires { Mountable (IsImage disk.old.unsynced disk.old.reads) }
    ensures { IfOk result (λ store. Stands disk.new.reads (IsImage disk.new.unsynced disk.new.reads) store) }
{
    let (mut store, _) = Store::mount(alloc, disk)?;
    store.save(disk, b"old")?;
    if !in_first {
        return Ok(store);
    }
    store.save(disk, b"old")?;
    Ok(store)
}

fn word(is_new: bool) -> &'static [u8] {
    if is_new { b"new" } else { b"old" }
}

fn stop_save(
    alloc: Global,
    disk: &mut MemDisk,
    store: &mut Store,
    before: u8,
    choice: Choice,
    wanted: &[u8],
) -> Result<bool, Fail>
    requires { Stands disk.old.reads (IsImage disk.old.unsynced disk.old.reads) store.old }
{
    disk.stop_after(u64::from(before) + 1, choice);
    let saved = store.save(disk, b"new");
    disk.crash();
    let (_, text) = Store::mount(alloc, disk)?;
    Ok(saved == Err(StoreError::DiskFault) && text.as_slice() == wanted)
}

fn stop_mounting(
    alloc: Global,
    disk: &mut MemDisk,
    store: &mut Store,
    before: u8,
    choice: Choice,
) -> Result<bool, Fail>
    requires { Stands disk.old.reads (IsImage disk.old.unsynced disk.old.reads) store.old }
{
    store.save(disk, b"new")?;
    disk.stop_after(u64::from(before) + 1, choice);
    let failed = Store::mount(alloc, disk).is_err();
    disk.crash();
    let (_, text) = Store::mount(alloc, disk)?;
    Ok(failed && text.as_slice() == word(true))
}

fn keeps_longest(
    alloc: Global,
    disk: &mut MemDisk,
    store: &mut Store,
    longer: &[u8],
) -> Result<bool, Fail>
    requires stands { Stands disk.old.reads (IsImage disk.old.unsynced disk.old.reads) store.old }
    requires long { length longer.now ≡ 65537 }
{
    let refused = store.save(disk, longer);
    let saved = store.save(disk, &longer[1..]);
    let (_, text) = Store::mount(alloc, disk)?;
    let holds = refused == Err(StoreError::TooLong(65_537)) && saved == Ok(());
    Ok(holds && text.as_slice() == &longer[1..])
}

fn save_longest(alloc: Global, disk: &mut MemDisk, store: &mut Store) -> Result<bool, Fail>
    requires { Stands disk.old.reads (IsImage disk.old.unsynced disk.old.reads) store.old }
{
    let longer = vec![in alloc; 7; MOST_BYTES + 1]?;
    keeps_longest(alloc, disk, store, &longer)
}

fn holds(alloc: Global, disk: &mut MemDisk, store: &mut Store, case: Case) -> Result<bool, Fail>
    requires { Stands disk.old.reads (IsImage disk.old.unsynced disk.old.reads) store.old }
{
    match case {
        Case::SaveToFirst(before, choice, is_new) => {
            stop_save(alloc, disk, store, before, choice, word(is_new))
        }
        Case::SaveToSecond(before, choice, is_new) => {
            stop_save(alloc, disk, store, before, choice, word(is_new))
        }
        Case::Mounting(before, choice) => stop_mounting(alloc, disk, store, before, choice),
        Case::Longest => save_longest(alloc, disk, store),
    }
}

fn play(alloc: Global, disk: &mut MemDisk, case: Case) -> Result<bool, Fail>
    requires { Mountable (IsImage disk.old.unsynced disk.old.reads) }
{
    let mut store = with_old(alloc, disk, matches!(case, Case::SaveToSecond(..)))?;
    holds(alloc, disk, &mut store, case)
}

fn play_anew(alloc: Global, case: Case) -> Result<bool, Fail> {
    let mut disk = MemDisk::new(alloc)?;
    empty_disk_mounts();
    play(alloc, &mut disk, case)
}

/// Each case holds of a disk of its own.
fn expect(rt: &impl Abort, alloc: Global, cases: &[Case]) -> Result<(), Fail> {
    for place in 0..cases.len() {
        check(rt, play_anew(alloc, cases[place])?, 0, place);
    }
    Ok(())
}

const CASES: &[Case] = &[
    SaveToFirst(0, Old, false),
    SaveToFirst(0, New, false),
    SaveToFirst(0, Zero, false),
    SaveToFirst(1, Old, false),
    SaveToFirst(1, New, false),
    SaveToFirst(1, Zero, false),
    SaveToFirst(2, Old, false),
    SaveToFirst(2, New, true),
    SaveToFirst(2, Zero, true),
    SaveToFirst(3, Old, false),
    SaveToFirst(3, New, true),
    SaveToFirst(3, Zero, true),
    SaveToSecond(0, Old, false),
    SaveToSecond(0, New, false),
    SaveToSecond(0, Zero, false),
    SaveToSecond(1, Old, false),
    SaveToSecond(1, New, false),
    SaveToSecond(1, Zero, false),
    SaveToSecond(2, Old, false),
    SaveToSecond(2, New, true),
    SaveToSecond(2, Zero, false),
    SaveToSecond(3, Old, false),
    SaveToSecond(3, New, true),
    SaveToSecond(3, Zero, false),
    Longest,
    Mounting(0, Old),
    Mounting(0, New),
    Mounting(0, Zero),
    Mounting(1, Old),
    Mounting(1, New),
    Mounting(1, Zero),
    Mounting(2, Old),
    Mounting(2, New),
    Mounting(2, Zero),
    Mounting(3, Old),
    Mounting(3, New),
    Mounting(3, Zero),
];

#[test]
fn saves_and_mountings(rt: HostRuntime) -> Result<(), Fail> {
    expect(&rt, rt.alloc(), CASES)
}
