ghost use Rattle.std.specs.Prelude.{◌≡◌, ◌≢◌, ◌≤◌, ◌<◌, ◌⊎◌, ◌↔◌, Bool, IfOk, IfErr, IsTrue, IsSome, MatchResult, All, length};
ghost use Rattle.cl_base.specs.Sets.{set_without};
ghost use Rattle.ccr_commit.specs.Entries.{texts_of};
ghost use Rattle.ccr_text.specs.TableText.{AreRows};
ghost use Rattle.membership_machine.specs.State.{Node};
ghost use Rattle.membership_machine.specs.Steps.{promising, installing, joining, crashing};
ghost use Rattle.cmm_member.specs.Records.{IsRecord, IsRowText, rows_of};
ghost use Rattle.cmm_member.specs.Nodes.{IsRunning, down_of, halted_by, promised_to, installed_with, entries_of, started, with_valid, with_joined};
ghost use Rattle.cmm_member.specs.Machine.{ShowsDown, ShowsForming, ShowsMember};
ghost use Rattle.cmm_member.specs.Views.{kept, seen};
ghost use Rattle.cmm_member.specs.declared.error.InstallError.TheVariants.{Refused, NoMemory};

use crate::down::DownNode;
use crate::entry_list::entries_from;
use crate::error::InstallError;
use crate::halted::HaltedNode;
use crate::joining::join_devices;
use crate::member::MemberNode;
use crate::rows::record_rows;
use crate::running::{Record, Running};
use ccr_commit::Entries;
use ccr_text::TableRows;
use cl_base::{DevId, DevSet, Epoch, NodeSet, Panic};
use std::alloc::{AllocError, Global};
use std::marker::Model;
use wire::Install;

/// A node after an install.
#[derive(Debug, Drop)]
pub struct Installed {
    /// The node.
    pub node: FormingNode,
    /// Whether its record changed: not where it had installed this already.
    pub changed: bool,
}

/// A node that has become a member.
#[derive(Debug, Drop)]
pub struct Started {
    /// The node.
    pub node: MemberNode,
    /// Whether its record changed: where an update was pending, which is committed now.
    pub changed: bool,
}

/// A running node that is no member. Contracts see it as a `NodeState`.
#[derive(Debug, Drop)]
pub struct FormingNode {
    running: Running,
}

impl Model for FormingNode {
    ghost use Rattle.cmm_member.specs.Nodes.{NodeState, IsRunning};
    ghost use Rattle.cmm_member.specs.Views.{seen};

    ghost Value = { NodeState };

    ghost view = { λ n. seen n.running };

    ghost invariant = { λ n. IsRunning (seen n.running) };
}

impl FormingNode {
    // A node that keeps this.
    pub(crate) fn new(running: Running) -> FormingNode
        requires { IsRunning (seen running) }
        ensures { result ≡ seen running }
    {
        FormingNode { running }
    }

    /// The greatest epoch that the node promised. This takes no memory.
    pub fn promised(&self) -> Epoch
        ensures value { result ≡ self.now.saved.promised }
    {
        self.running.durable.promised
    }

    /// The epoch of the node's last promise since it came up, or zero: it is in no session then. This
    /// takes no memory.
    pub fn session(&self) -> Epoch
        ensures value { result ≡ self.now.session }
        ensures of_promise { (result ≡ 0) ⊎ (result ≡ self.now.saved.promised) }
    {
        self.running.session
    }

    /// The epoch that the node installed last, or zero. This takes no memory.
    pub fn installed(&self) -> Epoch
        ensures value { result ≡ self.now.saved.installed }
        ensures was_promised { result ≤ self.now.saved.promised }
    {
        self.running.durable.installed
    }

    /// The members of the attempt that it installed last. This takes no memory.
    pub fn members(&self) -> NodeSet
        ensures value { result ≡ self.now.saved.members }
    {
        self.running.durable.members
    }

    /// The devices that are valid to the node. This takes no memory.
    pub fn valid(&self) -> DevSet
        ensures value { result ≡ self.now.saved.valid }
    {
        self.running.durable.valid
    }

    /// The devices that the node has joined in its session. This takes no memory.
    pub fn joined_devices(&self) -> DevSet
        ensures value { result ≡ self.now.joined }
    {
        self.running.joined
    }

    /// The updates of the configuration that the node has. This takes no memory.
    pub fn entries(&self) -> &Entries
        ensures value { result.now ≡ self.now.saved.entries }
    {
        &self.running.durable.entries
    }

    /// The node's record, to be saved. This takes no memory.
    pub fn record(&self) -> &Record
        ensures value { kept result.now ≡ self.now.saved }
    {
        &self.running.durable
    }

    /// The rows of the node's record. They are those of a table where each update fits a row.
    pub fn record_rows(&self, alloc: Global) -> Result<TableRows, AllocError>
        ensures rows { IfOk result (λ rows. rows ≡ rows_of self.now.saved) }
        ensures is_record { IfOk result (λ rows. IsRecord self.now.saved) }
        ensures table { IfOk result (λ rows. All IsRowText (texts_of self.now.saved.entries) → AreRows rows) }
    {
        let rows = record_rows(alloc, &self.running.durable)?;
        Ok(rows)
    }

    /// The node promises p and enters its session. Refused where its promise is p or more: the node as
    /// it was, and its promise. This takes no memory.
    pub fn promise(self, p: Epoch) -> Result<FormingNode, (FormingNode, Epoch)>
        ensures when { MatchResult result (λ node. self.saved.promised < p) (λ back. p ≤ self.saved.promised) }
        ensures ok { IfOk result (λ node. node ≡ promised_to self p) }
        ensures refused { IfErr result (λ back. (back.0 ≡ self) × (back.1 ≡ self.saved.promised)) }
        ensures machine { IfOk result (λ node. (n : Node) (seeks : Bool) → ShowsForming self n → ShowsForming node (promising n p seeks)) }
    {
        let promised = self.promised();
        if p <= promised {
            return Err((self, promised));
        }
        Ok(FormingNode::new(self.running.promise(p)))
    }

    /// The node installs what came with the attempt of its session: its record has the members and
    /// the updates, and of the devices that were read those are valid and joined that it seized, and
    /// those that were valid to it and show its key. Where it has installed this already, nothing
    /// changes. Refused outside the session: the node as it was, and its promise. Where memory runs
    /// out the node is gone; its record is on its disk.
    pub fn install(self, alloc: Global, i: &Install) -> Result<Installed, InstallError>
        ensures when { MatchResult result (λ done. (i.now.epoch ≢ 0) × (self.session ≡ i.now.epoch)) (λ e. (e ≡ NoMemory) ⊎ (i.now.epoch ≡ 0) ⊎ (self.session ≢ i.now.epoch)) }
        ensures first { self.saved.installed ≢ i.now.epoch → IfOk result (λ done. done.node ≡ installed_with self i.now) }
        ensures repeated { self.saved.installed ≡ i.now.epoch → IfOk result (λ done. done.node ≡ self) }
        ensures changed { IfOk result (λ done. IsTrue done.changed ↔ (self.saved.installed ≢ i.now.epoch)) }
        ensures refused { IfErr result (λ e. (e ≡ NoMemory) ⊎ (e ≡ Refused self self.saved.promised)) }
        ensures machine { self.saved.installed ≢ i.now.epoch → IfOk result (λ done. (n : Node) → ShowsForming self n → ShowsForming done.node (installing n i.now.epoch (texts_of (entries_of i.now)) (length i.now.committed))) }
    {
        if i.epoch == Epoch::zero() || self.running.session != i.epoch {
            let promised = self.promised();
            return Err(InstallError::Refused(self, promised));
        }
        if self.running.durable.installed == i.epoch {
            return Ok(Installed {
                node: self,
                changed: false,
            });
        }
        let entries = entries_from(alloc, i.committed.items(), &i.pending)?;
        let mut running = self.running;
        running.durable.installed = i.epoch;
        running.durable.members = i.members;
        running.durable.entries = entries;
        running.joined = DevSet::empty();
        join_devices(&mut running, i.readings.items());
        Ok(Installed {
            node: FormingNode { running },
            changed: true,
        })
    }

    /// The node becomes a member of the membership that it installed in its session p, and commits
    /// the pending update. Refused where it has not installed p in session p: the node as it was.
    /// This takes no memory.
    pub fn start(self, p: Epoch) -> Result<Started, FormingNode>
        ensures when { MatchResult result (λ done. (p ≢ 0) × (self.session ≡ p) × (self.saved.installed ≡ p)) (λ back. (p ≡ 0) ⊎ (self.session ≢ p) ⊎ (self.saved.installed ≢ p)) }
        ensures ok { IfOk result (λ done. done.node ≡ started self) }
        ensures changed { IfOk result (λ done. IsTrue done.changed ↔ IsSome self.saved.entries.pending) }
        ensures refused { IfErr result (λ back. back ≡ self) }
        ensures machine { IfOk result (λ done. (n : Node) → ShowsForming self n → ShowsMember done.node (joining n)) }
    {
        if p == Epoch::zero() || self.running.session != p || self.running.durable.installed != p {
            return Err(self);
        }
        let mut running = self.running;
        let changed = running.durable.entries.pending().is_some();
        running.durable.entries.commit_pending();
        let node = MemberNode::new(running);
        Ok(Started { node, changed })
    }

    /// The device is valid to the node no longer. This takes no memory.
    pub fn invalidate(&mut self, d: DevId)
        ensures after { self.new ≡ with_valid self.old (set_without self.old.saved.valid d) }
        ensures machine { (n : Node) → ShowsForming self.old n → ShowsForming self.new n }
    {
        self.running.durable.valid = self.running.durable.valid.without(d);
    }

    /// The node has joined the device, which is valid to it from now on. This takes no memory.
    pub fn joined(&mut self, d: DevId)
        ensures after { self.new ≡ with_joined self.old d }
        ensures machine { (n : Node) → ShowsForming self.old n → ShowsForming self.new n }
    {
        self.running.durable.valid = self.running.durable.valid.with(d);
        self.running.joined = self.running.joined.with(d);
    }

    /// The node panics. This takes no memory.
    pub fn halt(self, cause: Panic) -> HaltedNode
        ensures after { result ≡ halted_by self cause }
        ensures machine { (n : Node) → ShowsForming self n → ShowsDown self.saved (crashing n) }
    {
        self.running.halt(cause)
    }

    /// The node goes down, and loses all but its record. This takes no memory.
    pub fn crash(self) -> DownNode
        ensures after { result ≡ down_of self }
        ensures machine { (n : Node) → ShowsForming self n → ShowsDown self.saved (crashing n) }
    {
        self.running.crash()
    }
}
