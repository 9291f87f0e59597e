ghost use Rattle.std.specs.Prelude.{◌≡◌, IfSome, IfOk, IsSome};
ghost use Rattle.device_machine.specs.Initiator.{Initiator, joining};
ghost use Rattle.pgr_device.specs.Allowed.{IsAllowed};
ghost use Rattle.pgr_device.specs.Keys.{HasNoZeroKey};
ghost use Rattle.seize.specs.Joining.{begun, command_of, result_of, taken, next_step, compared};
ghost use Rattle.seize.specs.Shows.{ShowsJoin, join_arrived};

use crate::answer::{self, Answer};
use crate::key;
use crate::kind::JoinResult;
use crate::step::JoinStep;
use cl_base::{Epoch, NodeId};
use pgr_device::{Failed, PrAnswer, PrCommand};
use std::marker::Model;

/// One node joins one device in the membership that it has installed. Contracts see what the
/// joining was begun with, and how far it has come.
#[derive(Clone, Copy, Debug, PartialEq, Eq)]
pub struct Join {
    epoch: Epoch,
    me: NodeId,
    cluster: u32,
    step: JoinStep,
}

impl Model for Join {
    ghost use Rattle.seize.specs.Joining.{JoinState};

    ghost Value = { JoinState };

    ghost view = { λ s. record { epoch = s.epoch; me = s.me; cluster = s.cluster; step = s.step } };

    ghost inverse = { λ s. record { epoch = s.epoch; me = s.me; cluster = s.cluster; step = s.step } };
}

impl Join {
    /// Begins to join a device in the membership `epoch`.
    pub fn begin(epoch: Epoch, me: NodeId, cluster: u32) -> Join
        ensures value { result ≡ begun epoch me cluster }
        ensures shows { (v : Initiator) → v.session ≡ epoch → ShowsJoin result (joining v) }
    {
        Join {
            epoch,
            me,
            cluster,
            step: JoinStep::Register,
        }
    }

    /// The command that is due, until there is a result.
    pub fn next_command(&self) -> Option<PrCommand>
        ensures value { result ≡ command_of self.now }
        ensures allowed { IfSome result IsAllowed }
    {
        match self.step {
            JoinStep::Register => Some(PrCommand::Ignore {
                new: key::key_of(self.cluster, self.me),
            }),
            JoinStep::ReadWord => Some(PrCommand::Word),
            JoinStep::Ended(_) => None,
        }
    }

    /// Takes the answer to the command that is due. An answer that the device never gives to it, a
    /// missing path and a conflict to the reading of the word count as failures.
    pub fn take_answer(&mut self, answer: Result<PrAnswer, Failed>)
        requires due { IsSome (command_of self.old) }
        requires keys { IfOk answer HasNoZeroKey }
        ensures value { self.new ≡ taken self.old answer }
        ensures shows { (v : Initiator) → ShowsJoin self.old v → ShowsJoin self.new (join_arrived self.new.step v) }
    {
        self.step = self.step_after(answer);
    }

    /// The result, once there is one: then no command is due any more.
    pub fn result(&self) -> Option<JoinResult>
        ensures value { result ≡ result_of self.now }
    {
        match self.step {
            JoinStep::Ended(result) => Some(result),
            _ => None,
        }
    }

    fn step_after(&self, answer: Answer) -> JoinStep
        ensures { result ≡ next_step self.now self.now.step answer }
    {
        match self.step {
            JoinStep::Register if answer::is_good(&answer) => JoinStep::ReadWord,
            JoinStep::Register => JoinStep::Ended(JoinResult::Fault),
            JoinStep::ReadWord => JoinStep::Ended(self.compared(answer::word_told(answer))),
            JoinStep::Ended(result) => JoinStep::Ended(result),
        }
    }

    /// The result of the word, read after the own key was registered.
    fn compared(&self, told: Option<u64>) -> JoinResult
        ensures { result ≡ compared self.now told }
    {
        match told {
            None => JoinResult::Fault,
            Some(word) if word == self.epoch.number() => JoinResult::Joined,
            Some(word) => JoinResult::Late(word),
        }
    }
}
