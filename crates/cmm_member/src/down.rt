ghost use Rattle.std.specs.Prelude.{◌≡◌, ◌≤◌, ◌⊎◌, ℕ, [], IfOk};
ghost use Rattle.ccr_text.specs.TableText.{IsTable};
ghost use Rattle.membership_machine.specs.State.{Node};
ghost use Rattle.cmm_member.specs.Records.{NodeRecord, IsRecord, IsRecordText, first_record, rows_of};
ghost use Rattle.cmm_member.specs.Nodes.{booted};
ghost use Rattle.cmm_member.specs.Machine.{ShowsDown, ShowsForming};
ghost use Rattle.cmm_member.specs.Views.{kept};

use crate::forming::FormingNode;
use crate::halted::HaltedNode;
use crate::reading::read_record;
use crate::running::{Record, Running};
use ccr_commit::Entries;
use ccr_text::{TextError, read_table};
use cl_base::{DevSet, Epoch, NodeId, NodeSet, Panic};
use std::alloc::{AllocError, Global};
use std::marker::Model;

/// A node that is down: it has its number and its local disk. Contracts see it as a `DownState`.
#[derive(Debug, Drop)]
pub struct DownNode {
    me: NodeId,
    first_valid: DevSet,
}

impl Model for DownNode {
    ghost use Rattle.cmm_member.specs.Nodes.{DownState};

    ghost Value = { DownState };

    ghost view = { λ d. record { me = d.me; first_valid = d.first_valid } };
}

impl DownNode {
    /// The node `me`. Before its first record the devices in `first_valid` are valid to it. This takes
    /// no memory.
    pub fn new(me: NodeId, first_valid: DevSet) -> DownNode
        ensures value { result ≡ record { me = me; first_valid = first_valid } }
    {
        DownNode { me, first_valid }
    }

    /// The node comes up with the record whose table has this text, in no session; and the number of
    /// saves that the table tells. An empty text stands for the first record, which no save wrote.
    pub fn boot(self, alloc: Global, text: &[u8]) -> Result<(FormingNode, u64), AllocError>
        requires text { (text.now ≡ []) ⊎ IsRecordText text.now }
        ensures first { IfOk result (λ up. text.now ≡ [] → up.0 ≡ booted self (first_record self.first_valid)) }
        ensures none_saved { IfOk result (λ up. text.now ≡ [] → up.1 ≡ 0) }
        ensures read { IfOk result (λ up. (saves : ℕ) (r : NodeRecord) → IsRecord r → IsTable text.now saves (rows_of r) → up.0 ≡ booted self r) }
        ensures saves { IfOk result (λ up. (saves : ℕ) (r : NodeRecord) → IsRecord r → IsTable text.now saves (rows_of r) → up.1 ≡ saves) }
        ensures machine { IfOk result (λ up. (n : Node) → ShowsDown up.0.saved n → ShowsForming up.0 n) }
    {
        let found = record_at(alloc, text, self.first_valid)?;
        let node = FormingNode::new(Running {
            me: self.me,
            first_valid: self.first_valid,
            durable: found.record,
            session: Epoch::zero(),
            joined: DevSet::empty(),
        });
        Ok((node, found.saves))
    }

    /// The node panics before it has come up, as where its disk does not let it read its record. This
    /// takes no memory.
    pub fn halt(self, cause: Panic) -> HaltedNode
        ensures after { result ≡ record { me = self.me; first_valid = self.first_valid; cause = cause } }
    {
        HaltedNode::new(self.me, self.first_valid, cause)
    }
}

// A record, and how many saves its table tells.
#[derive(Drop)]
struct Found {
    record: Record,
    saves: u64,
}

// The record that a disk with this text stands for.
fn record_at(alloc: Global, text: &[u8], first_valid: DevSet) -> Result<Found, AllocError>
    requires { (text.now ≡ []) ⊎ IsRecordText text.now }
    ensures order { IfOk result (λ found. found.record.installed ≤ found.record.promised) }
    ensures first { IfOk result (λ found. text.now ≡ [] → kept found.record ≡ first_record first_valid) }
    ensures none_saved { IfOk result (λ found. text.now ≡ [] → found.saves ≡ 0) }
    ensures read { IfOk result (λ found. (saves : ℕ) (r : NodeRecord) → IsRecord r → IsTable text.now saves (rows_of r) → kept found.record ≡ r) }
    ensures saves { IfOk result (λ found. (saves : ℕ) (r : NodeRecord) → IsRecord r → IsTable text.now saves (rows_of r) → found.saves ≡ saves) }
{
    if text.is_empty() {
        let record = first_record(alloc, first_valid);
        return Ok(Found { record, saves: 0 });
    }
    record_of(alloc, text)
}

fn first_record(alloc: Global, valid: DevSet) -> Record
    ensures { kept result ≡ first_record valid }
{
    Record {
        promised: Epoch::zero(),
        installed: Epoch::zero(),
        members: NodeSet::empty(),
        valid,
        entries: Entries::new(alloc),
    }
}

// The record whose table has this text.
fn record_of(alloc: Global, text: &[u8]) -> Result<Found, AllocError>
    requires { IsRecordText text.now }
    ensures order { IfOk result (λ found. found.record.installed ≤ found.record.promised) }
    ensures read { IfOk result (λ found. (saves : ℕ) (r : NodeRecord) → IsRecord r → IsTable text.now saves (rows_of r) → kept found.record ≡ r) }
    ensures saves { IfOk result (λ found. (saves : ℕ) (r : NodeRecord) → IsRecord r → IsTable text.now saves (rows_of r) → found.saves ≡ saves) }
{
    let (saves, rows) = match read_table(alloc, text) {
        Ok((saves, rows)) => (saves, rows),
        Err(TextError::NoMemory) => return Err(AllocError),
        Err(TextError::BadLine(_)) => unreachable!(),
        Err(TextError::BadChecksum { .. }) => unreachable!(),
    };
    let Some(record) = read_record(alloc, rows.items())? else {
        unreachable!()
    };
    Ok(Found { record, saves })
}
