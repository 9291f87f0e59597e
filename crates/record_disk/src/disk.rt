ghost use Rattle.std.specs.Prelude.{◌≡◌, ◌⊎◌, None, IfOk, OnOk, IfErr};
ghost use Rattle.cmm_member.specs.Records.{NodeRecord};
ghost use Rattle.cmm_member.specs.Nodes.{booted};
ghost use Rattle.cmm_member.specs.Views.{kept as record_of};
ghost use Rattle.record_disk.specs.Savings.{Saving, IsLostBy};

use crate::DiskError;
use cmm_member::{DownNode, FormingNode, Record};
use std::alloc::Global;

/// The durable record of one node. What a call comes to is a function of the disk, where memory suffices.
pub trait RecordDisk {
    /// The record that a boot would read.
    ghost kept: { Self → NodeRecord };

    /// What a save of a record comes to.
    ghost saving: { Self → NodeRecord → Saving Self };

    /// What a mounting comes to.
    ghost mounting: { Self → Saving Self };

    /// The node comes up with the record that the disk keeps.
    fn mount(&mut self, alloc: Global, down: DownNode) -> Result<FormingNode, DiskError>
        ensures up { IfOk result (λ up. up ≡ booted down (kept self.old)) }
        ensures ok { OnOk result ((mounting self.old).lost ≡ None) }
        ensures after { OnOk result (self.new ≡ (mounting self.old).after) }
        ensures lost { IfErr result (IsLostBy (mounting self.old) self.new) };

    /// Saves a record in place of the one that the disk keeps. After `Lost` the old one is kept or the new one; the
    /// disk is to be mounted before the next save.
    fn save(&mut self, alloc: Global, durable: &Record) -> Result<(), DiskError>
        ensures ok { OnOk result ((saving self.old (record_of durable.now)).lost ≡ None) }
        ensures after { OnOk result (self.new ≡ (saving self.old (record_of durable.now)).after) }
        ensures lost { IfErr result (IsLostBy (saving self.old (record_of durable.now)) self.new) };

    /// A save that is not lost keeps its record.
    ghost done_keeps: { (disk : Self) (r : NodeRecord) → (saving disk r).lost ≡ None → kept (saving disk r).after ≡ r };

    /// Any save keeps its record or the old one.
    ghost lost_keeps: { (disk : Self) (r : NodeRecord) → (kept (saving disk r).after ≡ kept disk) ⊎ (kept (saving disk r).after ≡ r) };

    /// A mounting keeps the record.
    ghost mount_keeps: { (disk : Self) → kept (mounting disk).after ≡ kept disk };
}
