ghost use Rattle.std.specs.Prelude.{◌≡◌, false, IfOk, IfSome, IsSome};
ghost use Rattle.pgr_device.specs.Allowed.{IsAllowed};
ghost use Rattle.pgr_device.specs.Keys.{HasNoZeroKey};
ghost use Rattle.seize.specs.Joining as Joining;
ghost use Rattle.seize.specs.Seizing.{command_of, taken};
ghost use Rattle.device_queue.specs.Tasks.{answered, command_in, is_join_of, is_joining, is_over, is_seizure_of, progress_of, registers_first, result_in};

use crate::progress::Progress;
use cl_base::DevId;
use pgr_device::{Failed, PrAnswer, PrCommand};
use seize::{Join, JoinResult, Seize, SeizeResult};

/// What is done at a device.
#[derive(Clone, Copy)]
pub enum Work {
    /// It is seized.
    Seizing(Seize),
    /// It is joined.
    Joining(Join),
}

/// A task of a node.
#[derive(Clone, Copy)]
pub struct Task {
    /// At which device.
    pub device: DevId,
    /// What is done there, and how far it has come.
    pub work: Work,
}

impl Task {
    /// The command that is due, until the task is over.
    pub(crate) fn command(&self) -> Option<PrCommand>
        ensures value { result ≡ command_in self.now.work }
        ensures allowed { IfSome result IsAllowed }
    {
        match self.work {
            Work::Seizing(seizing) => seizing.next_command(),
            Work::Joining(joining) => joining.next_command(),
        }
    }

    pub(crate) fn is_over(&self) -> bool
        ensures { result ≡ is_over self.now }
    {
        match self.work {
            Work::Seizing(seizing) => seizing.result().is_some(),
            Work::Joining(joining) => joining.result().is_some(),
        }
    }

    /// How the seizing ended, where the task is one that is over.
    pub(crate) fn result(&self) -> Option<SeizeResult>
        ensures { result ≡ result_in self.now.work }
    {
        match self.work {
            Work::Seizing(seizing) => seizing.result(),
            Work::Joining(_) => None,
        }
    }

    /// Whether the task is to seize this device.
    pub(crate) fn is_seizure_of(&self, device: DevId) -> bool
        ensures { result ≡ is_seizure_of device self.now }
    {
        self.device == device && matches!(self.work, Work::Seizing(_))
    }

    /// Whether the task is to join this device.
    pub(crate) fn is_join_of(&self, device: DevId) -> bool
        ensures { result ≡ is_join_of device self.now }
    {
        self.device == device && self.is_joining()
    }

    pub(crate) fn is_joining(&self) -> bool
        ensures { result ≡ is_joining self.now.work }
    {
        matches!(self.work, Work::Joining(_))
    }

    /// Whether the next command is the first of a plain seizing, which registers the own key.
    pub(crate) fn registers_first(&self) -> bool
        ensures { result ≡ registers_first self.now.work }
    {
        match self.work {
            Work::Seizing(seizing) => {
                matches!(seizing.next_command(), Some(PrCommand::Ignore { .. }))
            }
            Work::Joining(_) => false,
        }
    }

    /// The task, after the answer to the command that is due.
    pub(crate) fn answered(&self, answer: Result<PrAnswer, Failed>) -> Task
        requires due { is_over self.now ≡ false }
        requires keys { IfOk answer HasNoZeroKey }
        ensures { result ≡ answered answer self.now }
    {
        match self.work {
            Work::Seizing(seizing) => Task {
                device: self.device,
                work: Work::Seizing(seizing_answered(seizing, answer)),
            },
            Work::Joining(joining) => Task {
                device: self.device,
                work: Work::Joining(joining_answered(joining, answer)),
            },
        }
    }

    /// What the task has come to.
    pub(crate) fn progress(&self) -> Progress
        ensures { result ≡ progress_of self.now }
    {
        let device = self.device;
        match self.work {
            Work::Seizing(seizing) => match seizing.result() {
                Some(result) => Progress::Seized { device, result },
                None => Progress::GoesOn,
            },
            Work::Joining(joining) => match joining.result() {
                Some(result) => Progress::Joined { device, result },
                None => Progress::GoesOn,
            },
        }
    }
}

fn seizing_answered(mut seizing: Seize, answer: Result<PrAnswer, Failed>) -> Seize
    requires due { IsSome (command_of seizing) }
    requires keys { IfOk answer HasNoZeroKey }
    ensures { result ≡ taken seizing answer }
{
    seizing.take_answer(answer);
    seizing
}

fn joining_answered(mut joining: Join, answer: Result<PrAnswer, Failed>) -> Join
    requires due { IsSome (Joining.command_of joining) }
    requires keys { IfOk answer HasNoZeroKey }
    ensures { result ≡ Joining.taken joining answer }
{
    joining.take_answer(answer);
    joining
}
