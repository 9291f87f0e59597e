ghost use Rattle.std.specs.Prelude.{◌≡◌, ◌≤◌, length};
ghost use Rattle.pgr_device.specs.Allowed.{IsAllowed};
ghost use Rattle.pgr_device.specs.Device.{Device, fresh, with_keys};
ghost use Rattle.pgr_device.specs.Keys.{HasNoZeroKey};
ghost use Rattle.pgr_device.specs.Registered.{keys_of};
ghost use Rattle.pgr_device.specs.Replies.{answer_of};
ghost use Rattle.pgr_device.specs.Spc.{step};

use crate::command::{PrAnswer, PrCommand, Reply};
use crate::key_list::KeyList;
use crate::registration::{self, Registration};
use crate::state::State;
use cl_base::{NodeId, NodeSet};
use std::marker::Model;

/// A shared device. Contracts see it as a `Device`: its paths, its registrations in order, its
/// reservation, its word and its data.
#[derive(Drop)]
pub struct Pgr {
    state: State,
}

impl Model for Pgr {
    ghost use Rattle.pgr_device.specs.Device.{Device};

    ghost Value = { Device };

    ghost use Rattle.pgr_device.specs.Seen.{seen};
    ghost use Rattle.pgr_device.specs.Kept.{IsDevice};

    ghost view = { λ p. seen p.state };

    ghost invariant = { λ p. IsDevice (seen p.state) };
}

impl Pgr {
    /// The device that these nodes have a path to, with no registration and no reservation. Its
    /// word and its data are 0.
    pub fn new(paths: NodeSet) -> Pgr
        ensures { result ≡ fresh paths }
    {
        Pgr {
            state: State::new(paths),
        }
    }

    /// The same device, but that those of these nodes that have a path are registered, in ascending
    /// order, each by its key in the cluster: the cluster's id times 2^32, and the node's number.
    pub fn with_keys(paths: NodeSet, nodes: NodeSet, cluster: u32) -> Pgr
        ensures { result ≡ with_keys paths nodes cluster }
    {
        Pgr {
            state: State::with_keys(paths, nodes, cluster),
        }
    }

    /// Carries out a command, as SPC-3 has it. The sender of a `Preempt` names a victim's key that
    /// is neither zero nor its own.
    pub fn execute(&mut self, from: NodeId, command: PrCommand) -> PrAnswer
        requires { IsAllowed command }
        ensures after { self.new ≡ (step self.old from command).after }
        ensures answer { result ≡ (step self.old from command).answer }
        ensures keys { HasNoZeroKey result }
    {
        match self.reply(from, command) {
            Reply::Good => PrAnswer::Good,
            Reply::Conflict => PrAnswer::Conflict,
            Reply::InvalidRelease => PrAnswer::InvalidRelease,
            Reply::NoPath => PrAnswer::NoPath,
            Reply::Keys => PrAnswer::Keys(self.keys()),
            Reply::Holder(held) => PrAnswer::Holder(held),
            Reply::Word(word) => PrAnswer::Word(word),
            Reply::Value(value) => PrAnswer::Value(value),
            Reply::Miscompare(word) => PrAnswer::Miscompare(word),
        }
    }

    /// The same, but that the keys that a command asks for stay with the device: an answer that may
    /// hold them is large.
    #[inline]
    pub fn reply(&mut self, from: NodeId, command: PrCommand) -> Reply
        requires { IsAllowed command }
        ensures after { self.new ≡ (step self.old from command).after }
        ensures answer { answer_of self.new result ≡ (step self.old from command).answer }
        ensures keys { HasNoZeroKey (answer_of self.new result) }
    {
        if !self.state.paths.has(from) {
            return Reply::NoPath;
        }
        self.state.carry_out(from, command)
    }

    /// The registered keys, in order of registration.
    pub fn keys(&self) -> KeyList
        ensures { result ≡ keys_of self.now.registrations }
    {
        registration::keys_of(self.registrations())
    }

    /// The registrations, in order.
    pub fn registrations(&self) -> &[Registration]
        ensures value { result.now ≡ self.now.registrations }
        ensures most { length result.now ≤ 32 }
    {
        self.state.registrations.as_slice()
    }

    /// The device loses its power and comes back: nothing changes, since registrations and the
    /// reservation persist (APTPL is set).
    pub fn power_loss(&mut self)
        ensures { self.new ≡ self.old }
    {}
}
