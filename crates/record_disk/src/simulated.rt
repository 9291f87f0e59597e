// A record on a local disk in memory.
ghost use Rattle.std.specs.Prelude.{◌≡◌, ◌≢◌, ◌≤◌, ℕ, [], None, IfOk, OnOk, IfErr};
ghost use Rattle.cmm_member.specs.Nodes.{booted};
ghost use Rattle.cmm_member.specs.Records.{NodeRecord, IsRecordText};
ghost use Rattle.cmm_member.specs.Views.{kept as record_of};
ghost use Rattle.record_disk.specs.Disks.{empty_disk, armed, mounting, saving};
ghost use Rattle.record_disk.specs.Images.{IsFirst, IsTextFor};
ghost use Rattle.record_disk.specs.Laws.{done_keeps, lost_keeps, mount_keeps};
ghost use Rattle.record_disk.specs.Savings.{IsLostBy};

use crate::calls::{read, write};
use crate::texts::{copy_record, first_record, table_of, text_for};
use crate::{DiskError, Loss, RecordDisk};
use cl_base::DevSet;
use cmm_member::{DownNode, FormingNode, Record};
use local_disk::{Choice, MemDisk};
use record_store::{Slot, Store, empty_disk_mounts};
use std::alloc::{AllocError, Global};
use std::marker::Model;

// A record and the number of its save.
#[derive(Drop)]
struct Saved {
    durable: Record,
    saves: u64,
}

// A record that was to be saved to a slot.
#[derive(Drop)]
struct Tried {
    saved: Saved,
    slot: Slot,
}

/// A simulated local disk with a node's record on it. Contracts see it as a `DiskState`.
#[derive(Drop)]
pub struct SimulatedDisk {
    disk: MemDisk,
    // none until the disk is mounted, and after a call of it failed
    store: Option<Store>,
    // what was read or saved last
    last: Saved,
    // what was to be saved after it and may stand on the disk, since a call failed
    tried: Option<Tried>,
}

impl Model for SimulatedDisk {
    ghost use Rattle.record_disk.specs.Disks.{DiskState};

    ghost Value = { DiskState };

    ghost use Rattle.record_store.specs.Images.{selected};
    ghost use Rattle.record_disk.specs.Inside.{IsTied, seen, standing};

    ghost view = { λ d. seen d.disk d.store (standing (selected d.disk.reads) d.last d.tried) };

    ghost invariant = { λ d. IsTied d.disk d.store d.last d.tried };
}

impl SimulatedDisk {
    /// An empty disk, which keeps the first record of a node to which these devices are valid. It is not mounted.
    pub fn new(alloc: Global, first_valid: DevSet) -> Result<SimulatedDisk, AllocError>
        ensures value { IfOk result (λ disk. disk ≡ empty_disk first_valid) }
    {
        empty_disk_mounts();
        Ok(SimulatedDisk {
            disk: MemDisk::new(alloc)?,
            store: None,
            last: Saved {
                durable: first_record(alloc, first_valid),
                saves: 0,
            },
            tried: None,
        })
    }

    /// Arms a stop, in place of one that is armed: the `calls`-th next call of the disk, from 1, stops in that call,
    /// and the choice says what is left of what was not synced.
    pub fn stop_after(&mut self, calls: u64, choice: Choice)
        requires { 1 ≤ calls }
        ensures after { self.new ≡ armed self.old calls choice }
    {
        self.disk.stop_after(calls, choice);
    }
}

impl RecordDisk for SimulatedDisk {
    ghost kept = { λ d. d.kept };

    ghost saving = { saving };

    ghost mounting = { mounting };

    fn mount(&mut self, alloc: Global, down: DownNode) -> Result<FormingNode, DiskError> {
        self.store = None;
        let (store, text) = read(alloc, &mut self.disk)?;
        let (node, saves) = boot(alloc, down, text, &self.last)?;
        let durable = copy_record(alloc, node.record())?;
        self.store = Some(store);
        self.last = Saved { durable, saves };
        self.tried = None;
        Ok(node)
    }

    fn save(&mut self, alloc: Global, durable: &Record) -> Result<(), DiskError> {
        let saves = self.last.saves.saturating_add(1);
        let Some(text) = text_for(alloc, saves, durable)? else {
            return Err(DiskError::Lost(Loss::Fault));
        };
        let durable = copy_record(alloc, durable)?;
        let next = Saved { durable, saves };
        let Some(store) = &mut self.store else {
            return Err(DiskError::Lost(Loss::Fault));
        };
        let slot = store.slot().other();
        if let Err(loss) = write(&mut self.disk, store, text.as_slice()) {
            self.store = None;
            self.tried = Some(Tried { saved: next, slot });
            return Err(DiskError::Lost(loss));
        }
        self.last = next;
        Ok(())
    }

    ghost done_keeps = { done_keeps };

    ghost lost_keeps = { lost_keeps };

    ghost mount_keeps = { mount_keeps };
}

// The node comes up from the text. Where there is none, the disk keeps its first record, which is the last one. It is
// read off its table, for the node's own first record may be another.
fn boot(
    alloc: Global,
    down: DownNode,
    text: Vec<u8>,
    last: &Saved,
) -> Result<(FormingNode, u64), AllocError>
    requires first { text.items ≡ [] → IsFirst last.now.saves (record_of last.now.durable) }
    requires table { text.items ≢ [] → IsRecordText text.items }
    ensures first { IfOk result (λ up. text.items ≡ [] → (up.0 ≡ booted down (record_of last.now.durable)) × (up.1 ≡ last.now.saves)) }
    ensures table { IfOk result (λ up. (saves : ℕ) (r : NodeRecord) → IsTextFor text.items saves r → (up.0 ≡ booted down r) × (up.1 ≡ saves)) }
{
    if text.is_empty() {
        let first = table_of(alloc, last.saves, &last.durable)?;
        return down.boot(alloc, first.as_slice());
    }
    down.boot(alloc, text.as_slice())
}
