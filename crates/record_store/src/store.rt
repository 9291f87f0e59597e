// A store keeps the text that it holds, and saves another in its place.
ghost use Rattle.std.specs.Prelude.{◌≡◌, ◌⊎◌, ◌↔◌, ◌≤◌, ◌<◌, ◌+◌, ◌++◌, length, IfOk, OnOk, IfErr, OnErr, IsErrOf, is_ok, true, false, vec_capacity, vec_len};
ghost use Rattle.std.specs.Int.{to_be_bytes, w32};
ghost use Rattle.local_disk.specs.LocalDisk.{Keeps, Rose, TakesCalls};
ghost use Rattle.record_store.specs.Images.{selected, text_of, spelling};
ghost use Rattle.record_store.specs.Store.{EachMountsTo, EachMountsToEither, LeavesBy, Mountable, Stands, replaced};
ghost use Rattle.record_store.specs.declared.store.StoreError.TheVariants.{DiskFault, TooLong, NoMemory};

use crate::Slot;
use crate::calls::{read, replace};
use local_disk::{Failed, LocalDisk};
use std::alloc::{AllocError, Global};
use std::marker::Model;
use thiserror::Error;

/// The greatest length of a text, in bytes.
pub const MOST_BYTES: usize = 65_536;

// a slot: four bytes of length, and the text
const SLOT_BYTES: usize = 4 + MOST_BYTES;

/// Why a text was not mounted or not saved.
#[derive(Clone, Copy, Debug, PartialEq, Eq, Error)]
pub enum StoreError {
    /// A call of the disk failed; the disk is to be mounted again.
    #[error("a call of the disk failed")]
    DiskFault,
    /// The text has so many bytes, more than 65,536.
    #[error("a text of {0} bytes is too long")]
    TooLong(u64),
    /// Memory ran out.
    #[error("out of memory")]
    NoMemory,
}

impl From<Failed> for StoreError {
    ghost from_gives = { λ _ e. e ≡ DiskFault };

    fn from(_: Failed) -> StoreError {
        StoreError::DiskFault
    }
}

impl From<AllocError> for StoreError {
    ghost from_gives = { λ _ e. e ≡ NoMemory };

    fn from(_: AllocError) -> StoreError {
        StoreError::NoMemory
    }
}

/// A mounted disk's text, and the slot that has it.
#[derive(Drop)]
pub struct Store {
    slot: Slot,
    // the slot's bytes, with room for any other's
    buffer: Vec<u8>,
}

impl Model for Store {
    ghost use Rattle.std.specs.Prelude.{◌≤◌, drop, vec_capacity};
    ghost use Rattle.record_store.specs.Store.{Held};

    ghost Value = { Held };

    ghost view = { λ s. record { slot = s.slot; text = drop 4 s.buffer.items } };

    ghost invariant = { λ s. 65540 ≤ vec_capacity s.buffer };
}

impl Store {
    /// The slot that has the text.
    pub fn slot(&self) -> Slot
        ensures { result ≡ self.now.slot }
    {
        self.slot
    }

    /// Mounts a disk that is empty or that stores alone have written, also after stops and crashes, by four calls:
    /// sync, the selector, the length, the text. All memory is taken before the first.
    pub fn mount<D: LocalDisk>(alloc: Global, disk: &mut D) -> Result<(Store, Vec<u8>), StoreError>
        requires { Mountable (D.leaves disk.old) }
        ensures text { IfOk result (λ mounted. mounted.1.items ≡ text_of (D.reads disk.old)) }
        ensures stands { IfOk result (λ mounted. Stands (D.reads disk.new) (D.leaves disk.new) mounted.0) }
        ensures each { IfOk result (λ mounted. EachMountsTo mounted.1.items (D.leaves disk.new)) }
        // also where it fails, it leaves no image that could not be left before, and the disk can be mounted again
        ensures images { Keeps (D.leaves disk.old) (D.leaves disk.new) }
        ensures mountable { Mountable (D.leaves disk.new) }
        ensures reads { D.reads disk.new ≡ D.reads disk.old }
        ensures errors { IfErr result (λ e. (e ≡ DiskFault) ⊎ (e ≡ NoMemory)) }
        ensures no_memory { IsErrOf result NoMemory → disk.new ≡ disk.old }
        ensures fault { IsErrOf result DiskFault → Rose (D.faults disk.old) (D.faults disk.new) }
        ensures later { D.faults disk.old ≤ D.faults disk.new }
        ensures choice { D.choice disk.new ≡ D.choice disk.old }
        ensures calls { OnOk result (TakesCalls D.fails_of_itself 4 (D.calls_left disk.old) (D.calls_left disk.new) true) }
        ensures calls_fault { IsErrOf result DiskFault → TakesCalls D.fails_of_itself 4 (D.calls_left disk.old) (D.calls_left disk.new) false }
    {
        let mut buffer = Vec::with_capacity(alloc, SLOT_BYTES)?;
        let mut text = zeros(alloc, MOST_BYTES)?;
        let (slot, length) = read(disk, &mut text)?;
        text.truncate(length);
        spell(&mut buffer, &text);
        Ok((Store { slot, buffer }, text))
    }

    /// Saves a text of at most 65,536 bytes in place of the one that the store holds, by four calls: the other slot,
    /// sync, the selector, sync. It takes no memory, and writes the text and five bytes more. After `DiskFault` the
    /// disk is to be mounted again; `TooLong` leaves all as it was.
    pub fn save<D: LocalDisk>(&mut self, disk: &mut D, text: &[u8]) -> Result<(), StoreError>
        requires { Stands (D.reads disk.old) (D.leaves disk.old) self.old }
        ensures stands { OnOk result (Stands (D.reads disk.new) (D.leaves disk.new) self.new) }
        ensures held { OnOk result (self.new ≡ replaced self.old text.now) }
        ensures each { OnOk result (EachMountsTo text.now (D.leaves disk.new)) }
        // a stop at any moment of the call is an exit from it, after which the disk can be mounted
        ensures stops { EachMountsToEither self.old.text text.now (D.leaves disk.new) }
        // and of a disk that tells its stop, what is left is known
        ensures left { length text.now ≤ 65536 → OnErr result (LeavesBy (D.calls_left disk.old) (D.choice disk.old) self.old (replaced self.old text.now) (D.left disk.new)) }
        ensures mountable { Mountable (D.leaves disk.new) }
        ensures errors { IfErr result (λ e. (e ≡ DiskFault) ⊎ (e ≡ TooLong (length text.now))) }
        ensures too_long { IsErrOf result (TooLong (length text.now)) ↔ (65536 < length text.now) }
        ensures nothing { 65536 < length text.now → (self.new ≡ self.old) × (disk.new ≡ disk.old) }
        ensures fault { IsErrOf result DiskFault → Rose (D.faults disk.old) (D.faults disk.new) }
        ensures later { D.faults disk.old ≤ D.faults disk.new }
        ensures choice { D.choice disk.new ≡ D.choice disk.old }
        ensures calls { length text.now ≤ 65536 → TakesCalls D.fails_of_itself 4 (D.calls_left disk.old) (D.calls_left disk.new) (is_ok result) }
    {
        if text.len() > MOST_BYTES {
            return Err(StoreError::TooLong(text.len() as u64));
        }
        spell(&mut self.buffer, text);
        let slot = self.slot.other();
        replace(disk, slot, &self.buffer)?;
        self.slot = slot;
        Ok(())
    }
}

fn zeros(alloc: Global, count: usize) -> Result<Vec<u8>, AllocError>
    ensures { IfOk result (λ zeros. vec_len zeros ≡ count) }
{
    Ok(vec![in alloc; 0; count]?)
}

// Makes the buffer what a slot has that holds the text, in the room that it has.
fn spell(buffer: &mut Vec<u8>, text: &[u8])
    requires room { 4 + length text.now ≤ vec_capacity buffer.old }
    requires most { length text.now ≤ 65536 }
    ensures spelled { buffer.new.items ≡ spelling text.now }
    ensures room { vec_capacity buffer.old ≤ vec_capacity buffer.new }
{
    let length = text.len() as u32;
    buffer.clear();
    buffer.extend_from_slice(&length.to_be_bytes()).unwrap();
    buffer.extend_from_slice(text).unwrap();
}
