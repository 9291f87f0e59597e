ghost use Rattle.std.specs.Prelude.{◌≡◌, ◌<◌, ◌==◌, length, None, Some};
ghost use Rattle.pgr_device.specs.Device.{fresh, with_keys};
ghost use Rattle.pgr_device.specs.Registered.{registered_key};
ghost use Rattle.pgr_device.specs.Replies.{answer_of};
ghost use Rattle.pgr_device.specs.Seen.{seen};
ghost use Rattle.pgr_device.specs.Spc.{answers, good, with_key, registering, reserving, releasing, cleared, registered_only, is_holders, preempting, reservation_of, reading, may_read, may_write, carried_out, released_by, shows_key};
ghost use Rattle.pgr_device.specs.declared.command.Reply.TheVariants as reply;
ghost use Rattle.pgr_device.specs.declared.command.PrCommand.TheVariants as command;

use crate::command::{PrCommand, Reply};
use crate::kind::PrKind;
use crate::registration::{self, Registration, Registrations, Reservation};
use arrayvec::ArrayVec;
use cl_base::{NodeId, NodeSet};

/// What a device holds.
#[derive(Drop)]
pub(crate) struct State {
    pub(crate) paths: NodeSet,
    pub(crate) registrations: Registrations,
    pub(crate) reservation: Option<Reservation>,
    pub(crate) word: u64,
    pub(crate) value: u64,
}

impl State {
    pub(crate) fn new(paths: NodeSet) -> State
        ensures { seen result ≡ fresh paths }
    {
        State {
            paths,
            registrations: ArrayVec::new(),
            reservation: None,
            word: 0,
            value: 0,
        }
    }

    pub(crate) fn with_keys(paths: NodeSet, nodes: NodeSet, cluster: u32) -> State
        ensures { seen result ≡ with_keys paths nodes cluster }
    {
        State {
            registrations: registration::first_keys(paths, nodes, cluster),
            ..State::new(paths)
        }
    }

    /// Carries out the command of a node that has a path. An unregistered node finds room.
    pub(crate) fn carry_out(&mut self, from: NodeId, command: PrCommand) -> Reply
        requires { registered_key self.old.registrations.items from ≡ None → length self.old.registrations.items < 32 }
        ensures after { seen self.new ≡ (carried_out (seen self.old) from command).after }
        ensures answer { answer_of (seen self.new) result ≡ (carried_out (seen self.old) from command).answer }
    {
        match command {
            PrCommand::Register { key, new } => self.register(from, key, new),
            PrCommand::Ignore { new } => self.set_key(from, new),
            PrCommand::Reserve { kind, key } => self.reserve(from, kind, key),
            PrCommand::Release { kind, key } => self.release(from, kind, key),
            PrCommand::Clear { key } => self.clear(from, key),
            PrCommand::Preempt { kind, key, victim } => self.preempt(from, kind, key, victim),
            PrCommand::Keys => Reply::Keys,
            PrCommand::Holder => Reply::Holder(self.holder()),
            PrCommand::Read => self.read(from, Reply::Value(self.value)),
            PrCommand::Word => self.read(from, Reply::Word(self.word)),
            PrCommand::Write { value } => self.write(from, value),
            PrCommand::Swap { expect, new } => self.swap(from, expect, new),
        }
    }

    fn registered_key(&self, node: NodeId) -> Option<u64>
        ensures { result ≡ registered_key self.now.registrations.items node }
    {
        registration::registered_key(self.registrations.as_slice(), node)
    }

    fn register(&mut self, from: NodeId, shown: u64, new: u64) -> Reply
        requires { registered_key self.old.registrations.items from ≡ None → length self.old.registrations.items < 32 }
        ensures after { seen self.new ≡ (registering (seen self.old) from shown new (registered_key self.old.registrations.items from)).after }
        ensures answer { answer_of (seen self.new) result ≡ (registering (seen self.old) from shown new (registered_key self.old.registrations.items from)).answer }
    {
        if shown != self.registered_key(from).unwrap_or(0) {
            return Reply::Conflict;
        }
        self.set_key(from, new)
    }

    fn set_key(&mut self, from: NodeId, new: u64) -> Reply
        requires { registered_key self.old.registrations.items from ≡ None → length self.old.registrations.items < 32 }
        ensures after { seen self.new ≡ with_key (seen self.old) from new (registered_key self.old.registrations.items from) }
        ensures answer { result ≡ reply.Good }
    {
        match self.registered_key(from) {
            None if new == 0 => {}
            None => self.registrations.push(Registration {
                node: from,
                key: new,
            }),
            Some(_) if new == 0 => self.unregister(from),
            Some(_) => registration::rekey(self.registrations.as_mut_slice(), from, new),
        }
        Reply::Good
    }

    fn unregister(&mut self, node: NodeId)
        ensures { seen self.new ≡ with_key (seen self.old) node 0 (Some 0) }
    {
        registration::remove_node(&mut self.registrations, node);
        self.reservation = released(self.reservation, node);
    }

    /// Whether a registered node shows its key.
    fn shows_key(&self, node: NodeId, shown: u64) -> bool
        ensures { result ≡ shows_key (registered_key self.now.registrations.items node) shown }
    {
        match self.registered_key(node) {
            None => false,
            Some(key) => key == shown,
        }
    }

    fn reserve(&mut self, from: NodeId, kind: PrKind, key: u64) -> Reply
        ensures after { seen self.new ≡ (registered_only (seen self.old) from key (reserving (seen self.old) from kind self.old.reservation)).after }
        ensures answer { answer_of (seen self.new) result ≡ (registered_only (seen self.old) from key (reserving (seen self.old) from kind self.old.reservation)).answer }
    {
        if !self.shows_key(from, key) {
            return Reply::Conflict;
        }
        let reservation = self.reservation;
        match reservation {
            None => {
                self.reservation = Some(Reservation { holder: from, kind });
                Reply::Good
            }
            Some(held) if held.holder == from && held.kind == kind => Reply::Good,
            Some(_) => Reply::Conflict,
        }
    }

    fn release(&mut self, from: NodeId, kind: PrKind, key: u64) -> Reply
        ensures after { seen self.new ≡ (registered_only (seen self.old) from key (releasing (seen self.old) from kind self.old.reservation)).after }
        ensures answer { answer_of (seen self.new) result ≡ (registered_only (seen self.old) from key (releasing (seen self.old) from kind self.old.reservation)).answer }
    {
        if !self.shows_key(from, key) {
            return Reply::Conflict;
        }
        let reservation = self.reservation;
        match reservation {
            Some(held) if held.holder == from => {
                if held.kind != kind {
                    return Reply::InvalidRelease;
                }
                self.reservation = None;
                Reply::Good
            }
            _ => Reply::Good,
        }
    }

    fn clear(&mut self, from: NodeId, key: u64) -> Reply
        ensures after { seen self.new ≡ (registered_only (seen self.old) from key (good (cleared (seen self.old)))).after }
        ensures answer { answer_of (seen self.new) result ≡ (registered_only (seen self.old) from key (good (cleared (seen self.old)))).answer }
    {
        if !self.shows_key(from, key) {
            return Reply::Conflict;
        }
        self.registrations.clear();
        self.reservation = None;
        Reply::Good
    }

    fn preempt(&mut self, from: NodeId, kind: PrKind, key: u64, victim: u64) -> Reply
        ensures after { seen self.new ≡ (registered_only (seen self.old) from key (preempting (seen self.old) from kind victim)).after }
        ensures answer { answer_of (seen self.new) result ≡ (registered_only (seen self.old) from key (preempting (seen self.old) from kind victim)).answer }
    {
        if !self.shows_key(from, key) {
            return Reply::Conflict;
        }
        if !registration::has_key(self.registrations.as_slice(), victim) {
            return Reply::Conflict;
        }
        if self.is_holders(victim) {
            self.reservation = Some(Reservation { holder: from, kind });
        }
        registration::remove_key(&mut self.registrations, victim);
        Reply::Good
    }

    /// Whether the reservation's holder has this key.
    fn is_holders(&self, key: u64) -> bool
        ensures { result ≡ is_holders self.now.registrations.items key self.now.reservation }
    {
        match self.reservation {
            None => false,
            Some(held) => self.shows_key(held.holder, key),
        }
    }

    /// The holder's key and the reservation's type.
    fn holder(&self) -> Option<(u64, PrKind)>
        ensures { result ≡ reservation_of self.now.registrations.items self.now.reservation }
    {
        let held = self.reservation?;
        self.registered_key(held.holder).map(|key| (key, held.kind))
    }

    fn may_read(&self, node: NodeId) -> bool
        ensures { result ≡ may_read self.now.registrations.items node self.now.reservation }
    {
        let Some(held) = self.reservation else {
            return true;
        };
        let registered = registration::is_registered(self.registrations.as_slice(), node);
        held.kind.allows_read(held.holder == node, registered)
    }

    fn may_write(&self, node: NodeId) -> bool
        ensures { result ≡ may_write self.now.registrations.items node self.now.reservation }
    {
        let Some(held) = self.reservation else {
            return true;
        };
        let registered = registration::is_registered(self.registrations.as_slice(), node);
        held.kind.allows_write(held.holder == node, registered)
    }

    /// This reply, or a conflict where the node may not read.
    fn read(&self, from: NodeId, reply: Reply) -> Reply
        ensures { answer_of (seen self.now) result ≡ (reading (seen self.now) from (answers (seen self.now) (answer_of (seen self.now) reply))).answer }
    {
        if !self.may_read(from) {
            return Reply::Conflict;
        }
        reply
    }

    fn write(&mut self, from: NodeId, value: u64) -> Reply
        ensures after { seen self.new ≡ (carried_out (seen self.old) from (command.Write value)).after }
        ensures answer { answer_of (seen self.new) result ≡ (carried_out (seen self.old) from (command.Write value)).answer }
    {
        if !self.may_write(from) {
            return Reply::Conflict;
        }
        self.value = value;
        Reply::Good
    }

    fn swap(&mut self, from: NodeId, expect: u64, new: u64) -> Reply
        ensures after { seen self.new ≡ (carried_out (seen self.old) from (command.Swap expect new)).after }
        ensures answer { answer_of (seen self.new) result ≡ (carried_out (seen self.old) from (command.Swap expect new)).answer }
    {
        if !self.may_write(from) {
            return Reply::Conflict;
        }
        if self.word != expect {
            return Reply::Miscompare(self.word);
        }
        self.word = new;
        Reply::Good
    }
}

/// The reservation after the node unregistered.
fn released(reservation: Option<Reservation>, node: NodeId) -> Option<Reservation>
    ensures { result ≡ released_by node reservation }
{
    let held = reservation?;
    if held.holder == node {
        None
    } else {
        Some(held)
    }
}
