ghost use Rattle.std.specs.Prelude.{◌≡◌, ◌≢◌, ◌≤◌, ◌<◌, ◌+◌, ◌↔◌, Bool, true, false, if◌then◌else◌, IfOk, IfErr, OnErr, IsTrue, IsSome, MatchResult, All, length};
ghost use Rattle.cl_base.specs.Sets.{has, set_without};
ghost use Rattle.ccr_commit.specs.Entries.{texts_of, answer_for, left_by, all_committed};
ghost use Rattle.ccr_commit.specs.declared.entries.Prepared.TheVariants.{Taken};
ghost use Rattle.ccr_text.specs.TableText.{AreRows};
ghost use Rattle.membership_machine.specs.State.{Node};
ghost use Rattle.membership_machine.specs.Steps.{promising, appending, committing, crashing};
ghost use Rattle.cmm_member.specs.Records.{IsRecord, IsRowText, rows_of};
ghost use Rattle.cmm_member.specs.Nodes.{IsMember, down_of, halted_by, promised_to, with_entries, with_joined, with_valid};
ghost use Rattle.cmm_member.specs.Machine.{ShowsDown, ShowsForming, ShowsMember};
ghost use Rattle.cmm_member.specs.Views.{kept, seen};

use crate::down::DownNode;
use crate::error::NotHeld;
use crate::forming::FormingNode;
use crate::halted::HaltedNode;
use crate::rows::record_rows;
use crate::running::{Record, Running};
use ccr_commit::{Entries, Prepared};
use ccr_text::TableRows;
use cl_base::{DevId, DevSet, Epoch, NodeSet, Panic};
use std::alloc::{AllocError, Global};
use std::marker::Model;

/// A member of a membership that has started. Contracts see it as a `NodeState`.
#[derive(Debug, Drop)]
pub struct MemberNode {
    running: Running,
}

impl Model for MemberNode {
    ghost use Rattle.cmm_member.specs.Nodes.{NodeState, IsMember};
    ghost use Rattle.cmm_member.specs.Views.{seen};

    ghost Value = { NodeState };

    ghost view = { λ n. seen n.running };

    ghost invariant = { λ n. IsMember (seen n.running) };
}

impl MemberNode {
    // A member that keeps this.
    pub(crate) fn new(running: Running) -> MemberNode
        requires { IsMember (seen running) }
        ensures { result ≡ seen running }
    {
        MemberNode { running }
    }

    /// The greatest epoch that the node promised, which is that of its membership. This takes no
    /// memory.
    pub fn promised(&self) -> Epoch
        ensures value { result ≡ self.now.saved.promised }
        ensures some { 0 < result }
    {
        self.running.durable.promised
    }

    /// The node's session, which is its promise. This takes no memory.
    pub fn session(&self) -> Epoch
        ensures value { result ≡ self.now.session }
        ensures of_promise { result ≡ self.now.saved.promised }
    {
        self.running.session
    }

    /// The epoch that the node installed last, which is its promise. This takes no memory.
    pub fn installed(&self) -> Epoch
        ensures value { result ≡ self.now.saved.installed }
        ensures of_promise { result ≡ self.now.saved.promised }
    {
        self.running.durable.installed
    }

    /// The members of its membership. This takes no memory.
    pub fn members(&self) -> NodeSet
        ensures value { result ≡ self.now.saved.members }
    {
        self.running.durable.members
    }

    /// The devices that are valid to the node. This takes no memory.
    pub fn valid(&self) -> DevSet
        ensures value { result ≡ self.now.saved.valid }
    {
        self.running.durable.valid
    }

    /// The devices that the node has joined in this membership. This takes no memory.
    pub fn joined_devices(&self) -> DevSet
        ensures value { result ≡ self.now.joined }
    {
        self.running.joined
    }

    /// The updates of the configuration that the node has. This takes no memory.
    pub fn entries(&self) -> &Entries
        ensures value { result.now ≡ self.now.saved.entries }
    {
        &self.running.durable.entries
    }

    /// The node's record, to be saved. This takes no memory.
    pub fn record(&self) -> &Record
        ensures value { kept result.now ≡ self.now.saved }
    {
        &self.running.durable
    }

    /// The rows of the node's record. They are those of a table where each update fits a row.
    pub fn record_rows(&self, alloc: Global) -> Result<TableRows, AllocError>
        ensures rows { IfOk result (λ rows. rows ≡ rows_of self.now.saved) }
        ensures is_record { IfOk result (λ rows. IsRecord self.now.saved) }
        ensures table { IfOk result (λ rows. All IsRowText (texts_of self.now.saved.entries) → AreRows rows) }
    {
        let rows = record_rows(alloc, &self.running.durable)?;
        Ok(rows)
    }

    /// The node promises p, enters its session, and is a member no longer. Refused where its promise
    /// is p or more: the node as it was, and its promise. This takes no memory.
    pub fn promise(self, p: Epoch) -> Result<FormingNode, (MemberNode, Epoch)>
        ensures when { MatchResult result (λ node. self.saved.promised < p) (λ back. p ≤ self.saved.promised) }
        ensures ok { IfOk result (λ node. node ≡ promised_to self p) }
        ensures refused { IfErr result (λ back. (back.0 ≡ self) × (back.1 ≡ self.saved.promised)) }
        ensures machine { IfOk result (λ node. (n : Node) (seeks : Bool) → ShowsMember self n → ShowsForming node (promising n p seeks)) }
    {
        let promised = self.promised();
        if p <= promised {
            return Err((self, promised));
        }
        Ok(FormingNode::new(self.running.promise(p)))
    }

    /// The membership under which the node may write to the device, exactly where it has joined the
    /// device in this membership. This takes no memory.
    pub fn may_write(&self, d: DevId) -> Result<Epoch, NotHeld>
        ensures when { MatchResult result (λ e. has self.now.joined d ≡ true) (λ _. has self.now.joined d ≡ false) }
        ensures ok { IfOk result (λ e. e ≡ self.now.session) }
    {
        if self.running.joined.has(d) {
            Ok(self.running.session)
        } else {
            Err(NotHeld)
        }
    }

    /// The node takes the update for this place: exactly at the place after its last one it becomes
    /// the pending one, and one that was pending before it is committed. Where memory runs out,
    /// nothing has changed.
    pub fn prepare(&mut self, place: u64, text: &[u8]) -> Result<Prepared, AllocError>
        ensures answer { IfOk result (λ p. p ≡ answer_for (length (texts_of self.old.saved.entries)) place) }
        ensures after { IfOk result (λ p. self.new ≡ with_entries self.old (left_by p self.old.saved.entries text.now)) }
        ensures no_memory { OnErr result (self.new ≡ self.old) }
        ensures wanted { OnErr result (place ≡ length (texts_of self.old.saved.entries) + 1) }
        ensures machine { IfOk result (λ p. p ≡ Taken → (n : Node) → ShowsMember self.old n → ShowsMember self.new (appending n self.old.session text.now)) }
        ensures machine_stays { IfOk result (λ p. p ≢ Taken → self.new ≡ self.old) }
    {
        self.running.durable.entries.prepare(place, text)
    }

    /// Commits the pending update where this is its place. Answers whether it did; else nothing
    /// changes. This takes no memory.
    pub fn commit(&mut self, place: u64) -> bool
        ensures answer { IsTrue result ↔ (IsSome self.old.saved.entries.pending × (place ≡ length self.old.saved.entries.committed + 1)) }
        ensures after { self.new ≡ (if result then with_entries self.old (all_committed self.old.saved.entries) else self.old) }
        ensures machine { IsTrue result → (n : Node) → ShowsMember self.old n → ShowsMember self.new (committing n) }
    {
        self.running.durable.entries.commit(place)
    }

    /// The device is valid to the node no longer. This takes no memory.
    pub fn invalidate(&mut self, d: DevId)
        ensures after { self.new ≡ with_valid self.old (set_without self.old.saved.valid d) }
        ensures machine { (n : Node) → ShowsMember self.old n → ShowsMember self.new n }
    {
        self.running.durable.valid = self.running.durable.valid.without(d);
    }

    /// The node has joined the device, which is valid to it from now on. This takes no memory.
    pub fn joined(&mut self, d: DevId)
        ensures after { self.new ≡ with_joined self.old d }
        ensures machine { (n : Node) → ShowsMember self.old n → ShowsMember self.new n }
    {
        self.running.durable.valid = self.running.durable.valid.with(d);
        self.running.joined = self.running.joined.with(d);
    }

    /// The node panics. This takes no memory.
    pub fn halt(self, cause: Panic) -> HaltedNode
        ensures after { result ≡ halted_by self cause }
        ensures machine { (n : Node) → ShowsMember self n → ShowsDown self.saved (crashing n) }
    {
        self.running.halt(cause)
    }

    /// The node goes down, and loses all but its record. This takes no memory.
    pub fn crash(self) -> DownNode
        ensures after { result ≡ down_of self }
        ensures machine { (n : Node) → ShowsMember self n → ShowsDown self.saved (crashing n) }
    {
        self.running.crash()
    }
}
