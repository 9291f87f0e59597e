ghost use Rattle.std.specs.Prelude.{◌≡◌, true, IfSome, IfOk, OnErr, IsSome};
ghost use Rattle.cl_base.specs.Sets.{has};
ghost use Rattle.device_machine.specs.Initiator.{Initiator, seizing};
ghost use Rattle.pgr_device.specs.Allowed.{IsAllowed};
ghost use Rattle.pgr_device.specs.Keys.{HasNoZeroKey};
ghost use Rattle.seize.specs.Seizing.{begun, command_of, result_of, taken, next_step, checked, compared, swapped, looked, confirmed, own_key};
ghost use Rattle.seize.specs.Shows.{Shows, is_vote, answered, lost};
ghost use Rattle.seize.specs.declared.kind.SeizeKind.TheVariants.{Vote};

use crate::answer::{self, Answer};
use crate::key;
use crate::kind::{SeizeKind, SeizeResult};
use crate::step::SeizeStep;
use cl_base::{Epoch, NodeId, NodeSet};
use pgr_device::{Failed, KeyList, PrAnswer, PrCommand, PrKind};
use std::marker::Model;

/// The reading running after which no key is preempted any more.
const LAST_READING: u64 = 64;

/// One node seizes one device for a membership attempt. Contracts see what the seizing was begun
/// with, and how far it has come.
#[derive(Clone, Copy, Debug, PartialEq, Eq)]
pub struct Seize {
    kind: SeizeKind,
    epoch: Epoch,
    members: NodeSet,
    me: NodeId,
    cluster: u32,
    valid: bool,
    step: SeizeStep,
}

impl Model for Seize {
    ghost use Rattle.seize.specs.Seizing.{SeizeState};

    ghost Value = { SeizeState };

    ghost use Rattle.seize.specs.SeizeKept.{IsSeizing};

    ghost view = { λ s. record { kind = s.kind; epoch = s.epoch; members = s.members; me = s.me; cluster = s.cluster; valid = s.valid; step = s.step } };

    ghost invariant = { λ s. IsSeizing (record { kind = s.kind; epoch = s.epoch; members = s.members; me = s.me; cluster = s.cluster; valid = s.valid; step = s.step }) };

    ghost inverse = { λ s. record { kind = s.kind; epoch = s.epoch; members = s.members; me = s.me; cluster = s.cluster; valid = s.valid; step = s.step } };
}

impl Seize {
    /// Begins to seize a device for the attempt `epoch` of these members, of which the node is one.
    /// `valid` tells whether the node's record calls its key on the device validated.
    pub fn begin(
        kind: SeizeKind,
        epoch: Epoch,
        members: NodeSet,
        me: NodeId,
        cluster: u32,
        valid: bool,
    ) -> Seize
        requires member { has members me ≡ true }
        ensures value { result ≡ begun kind epoch members me cluster valid }
        ensures shows { (v : Initiator) → v.session ≡ epoch → (kind ≡ Vote → v.valid ≡ valid) → Shows result (seizing v (is_vote kind)) }
    {
        let step = match kind {
            SeizeKind::Vote => SeizeStep::Check,
            SeizeKind::Plain => SeizeStep::Register,
        };
        Seize {
            kind,
            epoch,
            members,
            me,
            cluster,
            valid,
            step,
        }
    }

    /// The command that is due, until there is a result. Where the device is seized without votes,
    /// it is the caller's part to save, before the first command and in the same event, that the
    /// own key is not validated.
    pub fn next_command(&self) -> Option<PrCommand>
        ensures value { result ≡ command_of self.now }
        ensures allowed { IfSome result IsAllowed }
    {
        let kind = PrKind::WriteExclusiveRegistrantsOnly;
        let key = self.own_key();
        match self.step {
            SeizeStep::Check | SeizeStep::ReadKeys { .. } => Some(PrCommand::Keys),
            SeizeStep::Register => Some(PrCommand::Ignore { new: key }),
            SeizeStep::ReadWord | SeizeStep::Confirm { .. } => Some(PrCommand::Word),
            SeizeStep::Swap { expected } => Some(PrCommand::Swap {
                expect: expected,
                new: self.epoch.number(),
            }),
            SeizeStep::Reserve => Some(PrCommand::Reserve { kind, key }),
            SeizeStep::Preempt { victim, .. } => Some(PrCommand::Preempt { kind, key, victim }),
            SeizeStep::Ended(_) => None,
        }
    }

    /// Takes the answer to the command that is due. An answer that the device never gives to it, a
    /// missing path and a conflict to the reading of the word count as failures.
    pub fn take_answer(&mut self, answer: Result<PrAnswer, Failed>)
        requires due { IsSome (command_of self.old) }
        requires keys { IfOk answer HasNoZeroKey }
        ensures value { self.new ≡ taken self.old answer }
        ensures shows { (v : Initiator) → Shows self.old v → Shows self.new (answered self.old self.old.step answer v) }
        ensures lost { OnErr answer ((v : Initiator) → Shows self.old v → Shows self.new (lost self.old.step v)) }
    {
        self.step = self.step_after(answer);
    }

    /// The result, once there is one: then no command is due any more.
    pub fn result(&self) -> Option<SeizeResult>
        ensures value { result ≡ result_of self.now }
    {
        match self.step {
            SeizeStep::Ended(result) => Some(result),
            _ => None,
        }
    }

    fn own_key(&self) -> u64
        ensures { result ≡ own_key self.now }
    {
        key::key_of(self.cluster, self.me)
    }

    fn step_after(&self, answer: Answer) -> SeizeStep
        ensures { result ≡ next_step self.now self.now.step answer }
    {
        let tried = answer::is_good(&answer) || answer::is_conflict(&answer);
        match self.step {
            SeizeStep::Check => self.checked(answer::keys_told(answer)),
            SeizeStep::Register if answer::is_good(&answer) => SeizeStep::ReadWord,
            SeizeStep::ReadWord => self.compared(answer::word_told(answer)),
            SeizeStep::Swap { expected } => self.swapped(expected, answer),
            SeizeStep::Reserve if tried => SeizeStep::ReadKeys { reading: 1 },
            SeizeStep::ReadKeys { reading } => self.looked(reading, answer::keys_told(answer)),
            SeizeStep::Preempt { reading, .. } if tried => SeizeStep::ReadKeys {
                reading: reading + 1,
            },
            SeizeStep::Confirm { keys } => self.confirmed(keys, answer::word_told(answer)),
            SeizeStep::Ended(result) => SeizeStep::Ended(result),
            _ => SeizeStep::Ended(SeizeResult::Fault),
        }
    }

    /// The step after the first keys: the own one must be there, and validated.
    fn checked(&self, told: Option<KeyList>) -> SeizeStep
        ensures { result ≡ checked self.now told }
    {
        let Some(keys) = told else {
            return SeizeStep::Ended(SeizeResult::Fault);
        };
        if key::has_key(self.own_key(), keys.keys()) && self.valid {
            return SeizeStep::ReadWord;
        }
        SeizeStep::Ended(SeizeResult::NotRegistered(keys))
    }

    /// The step after the word: a smaller one is to be raised to the epoch.
    fn compared(&self, told: Option<u64>) -> SeizeStep
        ensures { result ≡ compared self.now told }
    {
        let Some(word) = told else {
            return SeizeStep::Ended(SeizeResult::Fault);
        };
        if word < self.epoch.number() {
            return SeizeStep::Swap { expected: word };
        }
        if word == self.epoch.number() {
            return SeizeStep::Reserve;
        }
        SeizeStep::Ended(SeizeResult::Greater(word))
    }

    /// The step after the swap.
    fn swapped(&self, expected: u64, answer: Answer) -> SeizeStep
        ensures { result ≡ swapped self.now expected answer }
    {
        if answer::is_good(&answer) {
            return SeizeStep::Reserve;
        }
        if answer::is_conflict(&answer) {
            return SeizeStep::Ended(SeizeResult::Expelled);
        }
        self.compared(answer::word_found(expected, answer))
    }

    /// The step after the keys that were read since the reservation.
    fn looked(&self, reading: u64, told: Option<KeyList>) -> SeizeStep
        ensures { result ≡ looked self.now reading told }
    {
        let Some(keys) = told else {
            return SeizeStep::Ended(SeizeResult::Fault);
        };
        if !key::has_key(self.own_key(), keys.keys()) {
            return SeizeStep::Ended(SeizeResult::Expelled);
        }
        match key::first_stranger(self.cluster, self.members, keys.keys()) {
            None => SeizeStep::Confirm { keys },
            Some(victim) if reading < LAST_READING => SeizeStep::Preempt { victim, reading },
            Some(key) => SeizeStep::Ended(SeizeResult::Contended(key)),
        }
    }

    /// The step after the last reading of the word.
    fn confirmed(&self, keys: KeyList, told: Option<u64>) -> SeizeStep
        ensures { result ≡ confirmed self.now keys told }
    {
        match told {
            None => SeizeStep::Ended(SeizeResult::Fault),
            Some(word) if word == self.epoch.number() => SeizeStep::Ended(SeizeResult::Held(keys)),
            Some(word) => SeizeStep::Ended(SeizeResult::Greater(word)),
        }
    }
}
