// The disk calls of a mounting and of a save.
ghost use Rattle.std.specs.Prelude.{◌≡◌, ◌⊎◌, ◌≤◌, true, false, length, IfOk, OnOk, OnErr, IsErrOf, MatchResult, if◌then◌else◌};
ghost use Rattle.local_disk.specs.LocalDisk.{Only};
ghost use Rattle.local_disk.specs.Memory.{has_stopped, left_now, still_armed};
ghost use Rattle.record_store.specs.Images.{text_of, other_slot};
ghost use Rattle.record_store.specs.Store.{Stands, Gives, replaced};
ghost use Rattle.record_disk.specs.declared.error.Loss.TheVariants.{Stopped, Fault};
ghost use Rattle.record_disk.specs.declared.error.DiskError.TheVariants.{Lost, NoMemory};
ghost use Rattle.record_disk.specs.Disks.{after_four, stops_in_four, stands_after};
ghost use Rattle.record_disk.specs.Images.{IsSettled, images};

use crate::{DiskError, Loss};
use local_disk::MemDisk;
use record_store::{Store, StoreError};
use std::alloc::Global;

/// Mounts the disk by four calls. Where one fails, the disk is crashed.
pub fn read(alloc: Global, disk: &mut MemDisk) -> Result<(Store, Vec<u8>), DiskError>
    requires settled { IsSettled disk.old }
    ensures settled { IsSettled disk.new }
    ensures reads { disk.new.reads ≡ disk.old.reads }
    ensures text { IfOk result (λ found. found.1.items ≡ text_of disk.old.reads) }
    ensures stands { IfOk result (λ found. Stands disk.new.reads (images disk.new) found.0) }
    ensures when { MatchResult result (λ found. stops_in_four disk.old.stop ≡ false) (λ e. (e ≡ NoMemory) ⊎ ((e ≡ Lost Stopped) × (stops_in_four disk.old.stop ≡ true))) }
    ensures stop { OnOk result (disk.new.stop ≡ after_four disk.old.stop) }
    ensures stopped { IsErrOf result (Lost Stopped) → disk.new.stop ≡ after_four disk.old.stop }
{
    match Store::mount(alloc, disk) {
        Ok(mounted) => Ok(mounted),
        Err(StoreError::NoMemory) => Err(DiskError::NoMemory),
        Err(StoreError::DiskFault) => Err(DiskError::Lost(crash(disk))),
        Err(StoreError::TooLong(_)) => unreachable!(),
    }
}

/// Saves the text by four calls. Where one fails, the disk is crashed.
pub fn write(disk: &mut MemDisk, store: &mut Store, text: &[u8]) -> Result<(), Loss>
    requires stands { Stands disk.old.reads (images disk.old) store.old }
    requires most { length text.now ≤ 65536 }
    ensures settled { IsSettled disk.new }
    ensures stands { OnOk result (Stands disk.new.reads (images disk.new) store.new) }
    ensures held { OnOk result (store.new ≡ replaced store.old text.now) }
    ensures left { OnErr result (Gives (if stands_after disk.old.stop (other_slot store.old.slot) then replaced store.old text.now else store.old) disk.new.reads) }
    ensures when { MatchResult result (λ _. stops_in_four disk.old.stop ≡ false) (λ loss. (loss ≡ Stopped) × (stops_in_four disk.old.stop ≡ true)) }
    ensures stop { disk.new.stop ≡ after_four disk.old.stop }
{
    match store.save(disk, text) {
        Ok(()) => Ok(()),
        Err(_) => Err(crash(disk)),
    }
}

// Crashes a disk one of whose calls has failed.
fn crash(disk: &mut MemDisk) -> Loss
    ensures loss { result ≡ (if has_stopped disk.old.stop then Stopped else Fault) }
    ensures stop { disk.new.stop ≡ still_armed disk.old.stop }
    ensures left { disk.new.reads ≡ left_now disk.old }
    ensures allowed { images disk.old disk.new.reads }
    ensures only { Only disk.new.reads (images disk.new) }
{
    let loss = loss_on(disk);
    disk.crash();
    loss
}

fn loss_on(disk: &MemDisk) -> Loss
    ensures { result ≡ (if has_stopped disk.now.stop then Stopped else Fault) }
{
    if disk.stopped() {
        Loss::Stopped
    } else {
        Loss::Fault
    }
}
