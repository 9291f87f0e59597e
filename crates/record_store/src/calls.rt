// The disk calls of a save and of a mounting.
ghost use Rattle.std.specs.Prelude.{◌≡◌, ◌≤◌, ◌+◌, length, take, drop, IfOk, OnOk, OnErr, is_ok};
ghost use Rattle.local_disk.specs.LocalDisk.{HasCause, Keeps, Only, TakesCalls};
ghost use Rattle.record_store.specs.Images.{selected, text_of, spelling, other_slot, MountsTo};
ghost use Rattle.record_store.specs.Store.{EachMountsToEither, LeavesBy, Mountable, Stands};

use crate::Slot;
use local_disk::{Failed, LocalDisk};

/// Writes bytes into a slot that the selector does not name, and has the selector name it: four calls.
pub fn replace<D: LocalDisk>(disk: &mut D, slot: Slot, bytes: &[u8]) -> Result<(), Failed>
    requires synced { Only (D.reads disk.old) (D.leaves disk.old) }
    requires mounts { MountsTo (text_of (D.reads disk.old)) (D.reads disk.old) }
    requires slot { selected (D.reads disk.old) ≡ other_slot slot }
    requires spelled { bytes.now ≡ spelling (drop 4 bytes.now) }
    requires most { length bytes.now ≤ 65540 }
    ensures ok { OnOk result (Stands (D.reads disk.new) (D.leaves disk.new) (record { slot = slot; text = drop 4 bytes.now })) }
    ensures stops { EachMountsToEither (text_of (D.reads disk.old)) (drop 4 bytes.now) (D.leaves disk.new) }
    ensures left { OnErr result (LeavesBy (D.calls_left disk.old) (D.choice disk.old) (record { slot = other_slot slot; text = text_of (D.reads disk.old) }) (record { slot = slot; text = drop 4 bytes.now }) (D.left disk.new)) }
    ensures choice { D.choice disk.new ≡ D.choice disk.old }
    ensures cause { HasCause (D.faults disk.old) (D.faults disk.new) result }
    ensures calls { TakesCalls D.fails_of_itself 4 (D.calls_left disk.old) (D.calls_left disk.new) (is_ok result) }
{
    disk.write_at(slot.place(), bytes)?;
    disk.sync()?;
    disk.write_at(0, &[slot.selector()])?;
    disk.sync()
}

/// Reads the text of the slot that the selector names into the front of `room`, and tells the slot and the length of
/// the text: four calls.
pub fn read<D: LocalDisk>(disk: &mut D, room: &mut [u8]) -> Result<(Slot, usize), Failed>
    requires mountable { Mountable (D.leaves disk.old) }
    requires room { length room.old ≡ 65536 }
    ensures slot { IfOk result (λ found. found.0 ≡ selected (D.reads disk.old)) }
    ensures length { IfOk result (λ found. found.1 ≤ 65536) }
    ensures text { IfOk result (λ found. take found.1 room.new ≡ text_of (D.reads disk.old)) }
    ensures synced { OnOk result (Only (D.reads disk.new) (D.leaves disk.new)) }
    ensures reads { D.reads disk.new ≡ D.reads disk.old }
    ensures images { Keeps (D.leaves disk.old) (D.leaves disk.new) }
    ensures choice { D.choice disk.new ≡ D.choice disk.old }
    ensures cause { HasCause (D.faults disk.old) (D.faults disk.new) result }
    ensures calls { TakesCalls D.fails_of_itself 4 (D.calls_left disk.old) (D.calls_left disk.new) (is_ok result) }
{
    disk.sync()?;
    let mut selector = [0];
    disk.read_at(0, &mut selector)?;
    let slot = Slot::named(selector[0]);
    let mut length = [0; 4];
    disk.read_at(slot.place(), &mut length)?;
    let length = u32::from_be_bytes(length) as usize;
    disk.read_at(slot.place() + 4, &mut room[..length])?;
    Ok((slot, length))
}
