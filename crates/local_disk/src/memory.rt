// A disk in memory, which can be stopped in any of its calls and crashed.
ghost use Rattle.std.specs.Prelude.{◌↔◌, Some, IsTrue, ◌≡◌, ◌≤◌, ◌<◌, ◌+◌, ℕ, List, OnOk, OnErr, IfOk, length, replicate, true, false, is_ok, refl};
ghost use Rattle.local_disk.specs.LocalDisk.{bytes_at, overwritten, SameOutside, FollowsBy, Keeps, Only, HasCause, TakesCalls, disk_bytes};
ghost use Rattle.local_disk.specs.Memory.{empty_disk, armed, has_stopped, crashed, counted, passes, with_range, settled, written, after_sync, IsImage, IsWithin, next_stop, next_faults, calls_of, zeroed, left_by, choice_of, still_armed, left_now, spoiled, Spoils};

use crate::parts::{leave, mark, put, settle};
use crate::{DISK_BYTES, Failed, LocalDisk};
use std::alloc::{AllocError, Global};
use std::marker::Model;

const SIZE: usize = DISK_BYTES as usize;

/// What a crash leaves in the ranges that were not synced.
#[derive(Clone, Copy, Debug, PartialEq, Eq)]
pub enum Choice {
    /// The synced bytes.
    Old,
    /// The bytes as they were written.
    New,
    /// Zeros.
    Zero,
}

/// A stop that is armed, or that has come where no call is left.
#[derive(Clone, Copy, Debug, PartialEq, Eq)]
struct Stop {
    calls: u64,
    choice: Choice,
}

/// A local disk in memory. All its memory is taken by `new`: the synced bytes, the bytes as read and one mark a byte.
/// A read or a write costs as many steps as it has bytes; a sync and a crash cost as many as lie between the lowest
/// and the highest byte written since the last sync.
#[derive(Drop)]
pub struct MemDisk {
    synced: Vec<u8>,
    reads: Vec<u8>,
    unsynced: Vec<bool>,
    // every byte written since the last sync lies in low..high
    low: usize,
    high: usize,
    stop: Option<Stop>,
    faults: u64,
}

impl Model for MemDisk {
    ghost use Rattle.local_disk.specs.Memory.{State};

    ghost Value = { State };

    ghost use Rattle.local_disk.specs.MemoryInside.{IsKept};

    ghost view = { λ d. record { synced = d.synced.items; reads = d.reads.items; unsynced = d.unsynced.items; stop = d.stop; faults = d.faults } };

    ghost invariant = { IsKept };
}

impl MemDisk {
    /// An empty disk: all its bytes are zero and synced, and no stop is armed.
    #[tactic(auto, using(crate::specs::LocalDisk::disk_bytes_is))]
    pub fn new(alloc: Global) -> Result<MemDisk, AllocError>
        ensures empty { IfOk result (λ disk. disk ≡ empty_disk) }
        ensures only { IfOk result (λ disk. Only (replicate disk_bytes 0) (IsImage disk.unsynced disk.reads)) }
    {
        MemDisk::blank(alloc, SIZE)
    }

    fn blank(alloc: Global, size: usize) -> Result<MemDisk, AllocError>
        requires { size ≡ disk_bytes }
        ensures { IfOk result (λ disk. disk ≡ empty_disk) }
    {
        Ok(MemDisk {
            synced: vec![in alloc; 0; size]?,
            reads: vec![in alloc; 0; size]?,
            unsynced: vec![in alloc; false; size]?,
            low: 0,
            high: 0,
            stop: None,
            faults: 0,
        })
    }

    /// Arms a stop, in place of one that is armed: the `calls`-th next call, from 1, stops in that call and fails, and
    /// what a crash then leaves in the ranges not synced is the choice.
    pub fn stop_after(&mut self, calls: u64, choice: Choice)
        requires { 1 ≤ calls }
        ensures { self.new ≡ armed self.old calls choice }
    {
        self.stop = Some(Stop { calls, choice });
    }

    /// Whether a stop has come. From then on every call answers `Failed`, until `crash`.
    pub fn stopped(&self) -> bool
        ensures stopped { result ≡ has_stopped self.now.stop }
        ensures told { IsTrue result ↔ (calls_of self.now.stop ≡ Some 0) }
    {
        has_come(self.stop)
    }

    /// Leaves one image and syncs it: each byte that was not synced becomes what the choice of the stop says, and the
    /// synced byte where no stop is armed. A stop that has come is over; one that is still armed stays.
    pub fn crash(&mut self)
        ensures after { self.new ≡ crashed self.old }
        // what is left is an image that a crash could leave, and no further crash changes it
        ensures allowed { IsImage self.old.unsynced self.old.reads self.new.reads }
        ensures only { Only self.new.reads (IsImage self.new.unsynced self.new.reads) }
    {
        let choice = choice_now(self.stop);
        leave(
            choice,
            &mut self.synced,
            &mut self.reads,
            &mut self.unsynced,
            self.low,
            self.high,
        );
        self.low = 0;
        self.high = 0;
        self.stop = armed_still(self.stop);
    }

    // Counts a call, which fails where it takes the last that was left.
    fn count(&mut self) -> Result<(), Failed>
        ensures after { self.new ≡ counted self.old }
        ensures outcome { is_ok result ≡ passes self.old.stop }
        ensures cause { HasCause self.old.faults self.new.faults result }
        ensures one { IsImage self.old.unsynced self.old.reads (left_now self.old) }
    {
        count_call(&mut self.stop, &mut self.faults)
    }

    #[tactic(auto, using(crate::specs::LocalDisk::disk_bytes_is))]
    fn overwrite(&mut self, place: usize, bytes: &[u8])
        requires { place + length bytes.now ≤ DISK_BYTES }
        ensures after { self.new ≡ with_range self.old place bytes.now }
        ensures outside { SameOutside place (length bytes.now) self.old.reads self.new.reads }
        ensures images { FollowsBy (SameOutside place (length bytes.now)) (IsImage self.old.unsynced self.old.reads) (IsImage self.new.unsynced self.new.reads) }
        ensures one { IsImage self.old.unsynced self.old.reads (left_now self.old) }
        ensures left { left_now self.new ≡ spoiled (choice_of self.old.stop) place bytes.now (left_now self.old) }
    {
        put(&mut self.reads, place, bytes);
        mark(&mut self.unsynced, place, bytes.len());
        let (low, high) = widened(self.low, self.high, place, place + bytes.len());
        self.low = low;
        self.high = high;
    }

    fn settle(&mut self)
        ensures after { self.new ≡ settled self.old }
        ensures only { Only self.new.reads (IsImage self.new.unsynced self.new.reads) }
    {
        settle(
            &self.reads,
            &mut self.synced,
            &mut self.unsynced,
            self.low,
            self.high,
        );
        self.low = 0;
        self.high = 0;
    }
}

impl LocalDisk for MemDisk {
    ghost reads = { λ d. d.reads };

    ghost leaves = { λ d. IsImage d.unsynced d.reads };

    ghost faults = { λ d. d.faults };

    ghost fails_of_itself = { false };

    ghost calls_left = { λ d. calls_of d.stop };

    ghost choice = { λ d. choice_of d.stop };

    ghost left = { left_now };

    #[tactic(auto, using(crate::specs::LocalDisk::disk_bytes_is))]
    fn read_at(&mut self, place: u64, buf: &mut [u8]) -> Result<(), Failed>
        requires { place + length buf.old ≤ DISK_BYTES }
        ensures after { self.new ≡ counted self.old }
        ensures outcome { is_ok result ≡ passes self.old.stop }
        ensures bytes { OnOk result (buf.new ≡ bytes_at place (length buf.old) self.old.reads) }
        ensures reads { self.new.reads ≡ self.old.reads }
        ensures images { Keeps (IsImage self.old.unsynced self.old.reads) (IsImage self.new.unsynced self.new.reads) }
        ensures choice { choice_of self.new.stop ≡ choice_of self.old.stop }
        ensures cause { HasCause self.old.faults self.new.faults result }
        ensures calls { TakesCalls false 1 (calls_of self.old.stop) (calls_of self.new.stop) (is_ok result) }
    {
        self.count()?;
        let place = place as usize;
        buf.copy_from_slice(&self.reads[place..place + buf.len()]);
        Ok(())
    }

    fn write_at(&mut self, place: u64, bytes: &[u8]) -> Result<(), Failed>
        requires { place + length bytes.now ≤ DISK_BYTES }
        ensures after { self.new ≡ written self.old place bytes.now }
        ensures outcome { is_ok result ≡ passes self.old.stop }
        ensures written { OnOk result (self.new.reads ≡ overwritten self.old.reads place bytes.now) }
        ensures outside { SameOutside place (length bytes.now) self.old.reads self.new.reads }
        ensures images { FollowsBy (SameOutside place (length bytes.now)) (IsImage self.old.unsynced self.old.reads) (IsImage self.new.unsynced self.new.reads) }
        ensures choice { choice_of self.new.stop ≡ choice_of self.old.stop }
        ensures one { IsImage self.old.unsynced self.old.reads (left_now self.old) }
        ensures left { Spoils (calls_of self.old.stop) (choice_of self.old.stop) place bytes.now (left_now self.old) (left_now self.new) }
        ensures cause { HasCause self.old.faults self.new.faults result }
        ensures calls { TakesCalls false 1 (calls_of self.old.stop) (calls_of self.new.stop) (is_ok result) }
    {
        if self.stopped() {
            return self.count();
        }
        self.overwrite(place as usize, bytes);
        self.count()
    }

    fn sync(&mut self) -> Result<(), Failed>
        ensures after { self.new ≡ after_sync self.old }
        ensures outcome { is_ok result ≡ passes self.old.stop }
        ensures synced { OnOk result (Only self.new.reads (IsImage self.new.unsynced self.new.reads)) }
        ensures reads { self.new.reads ≡ self.old.reads }
        ensures images { Keeps (IsImage self.old.unsynced self.old.reads) (IsImage self.new.unsynced self.new.reads) }
        ensures choice { choice_of self.new.stop ≡ choice_of self.old.stop }
        ensures left { OnErr result (left_now self.new ≡ left_now self.old) }
        ensures cause { HasCause self.old.faults self.new.faults result }
        ensures calls { TakesCalls false 1 (calls_of self.old.stop) (calls_of self.new.stop) (is_ok result) }
    {
        self.count()?; // a sync that fails syncs nothing
        self.settle();
        Ok(())
    }

    ghost reads_is_left = { λ d. record { size = refl; kept = λ k unmarked. refl } };
}

fn has_come(stop: Option<Stop>) -> bool
    ensures { result ≡ has_stopped stop }
{
    match stop {
        None => false,
        Some(stop) => stop.calls == 0,
    }
}

fn choice_now(stop: Option<Stop>) -> Choice
    ensures { result ≡ choice_of stop }
{
    match stop {
        None => Choice::Old,
        Some(stop) => stop.choice,
    }
}

fn armed_still(stop: Option<Stop>) -> Option<Stop>
    ensures { result ≡ still_armed stop }
{
    match stop {
        None => None,
        Some(stop) if stop.calls == 0 => None,
        Some(stop) => Some(stop),
    }
}

fn count_call(stop: &mut Option<Stop>, faults: &mut u64) -> Result<(), Failed>
    ensures stop { stop.new ≡ next_stop stop.old }
    ensures faults { faults.new ≡ next_faults stop.old faults.old }
    ensures outcome { is_ok result ≡ passes stop.old }
    ensures cause { HasCause faults.old faults.new result }
{
    let Some(Stop { calls, choice }) = *stop else {
        return Ok(());
    };
    let calls_left = calls.saturating_sub(1);
    *stop = Some(Stop {
        calls: calls_left,
        choice,
    });
    if calls_left > 0 {
        return Ok(());
    }
    *faults = faults.saturating_add(1);
    Err(Failed)
}

// The least span with both in it, the first being empty where it begins at its end.
fn widened(low: usize, high: usize, from: usize, to: usize) -> (usize, usize)
    requires first { low ≤ high }
    requires second { from ≤ to }
    ensures ordered { result.0 ≤ result.1 }
    ensures within { (end : ℕ) → high ≤ end → to ≤ end → result.1 ≤ end }
    ensures second { (k : ℕ) → from ≤ k → k < to → (result.0 ≤ k) × (k < result.1) }
    ensures first { (k : ℕ) → low ≤ k → k < high → (result.0 ≤ k) × (k < result.1) }
{
    if low == high {
        (from, to)
    } else {
        (low.min(from), high.max(to))
    }
}
