ghost use Rattle.std.specs.Prelude.{◌≡◌, ◌↔◌, [], IfOk, IfSome, IsNone, OnOk, OnErr, true};
ghost use Rattle.std.specs.List.{position};
ghost use Rattle.pgr_device.specs.Allowed.{IsAllowed};
ghost use Rattle.pgr_device.specs.Keys.{HasNoZeroKey};
ghost use Rattle.device_queue.specs.Queue.{after_answer, after_join, after_seize, asked_again, asked_of, begins_join, begins_plainly, due_device, first_of, is_idle, join_of, joins, kept_of, next_of, progress_after, seizure_of};
ghost use Rattle.device_queue.specs.Tasks.{is_queued};
ghost use Rattle.device_queue.specs.declared.progress.Asked.TheVariants.{Begun};

use crate::progress::{Asked, Progress};
use crate::task::{Task, Work};
use cl_base::DevId;
use pgr_device::{Failed, PrAnswer, PrCommand};
use seize::{Join, Seize, SeizeResult};
use std::alloc::{AllocError, Global};
use std::marker::Model;

/// The device tasks of a node in its session, in the order in which they were begun. Those that are
/// not over are its queue, of which the first one is served; the others keep how they ended, so that
/// a repeated request is answered by it. Contracts see the list of all of them.
#[derive(Drop)]
pub struct DeviceQueue {
    tasks: Vec<Task>,
}

impl Model for DeviceQueue {
    ghost use Rattle.std.specs.Prelude.{List};
    ghost use Rattle.device_queue.specs.declared.task.Task.{Task};

    ghost Value = { List Task };

    ghost view = { λ q. q.tasks.items };
}

impl DeviceQueue {
    /// No task. This takes no memory.
    pub fn new(alloc: Global) -> DeviceQueue
        ensures value { result ≡ [] }
    {
        DeviceQueue {
            tasks: Vec::new(alloc),
        }
    }

    /// All tasks go, with what was kept of those that are over: at a promise, at an attempt of the
    /// node's own, and where it goes down.
    pub fn clear(&mut self)
        ensures after { self.new ≡ [] }
    {
        self.tasks.clear();
    }

    /// A request to seize the device. Of each device one seizing is begun at most: it is put at the
    /// end of the queue, and every later request finds it there, or gets what is kept of it. Where
    /// memory runs out, which only a seizing that would be begun can meet, nothing has changed.
    pub fn seize(&mut self, device: DevId, seizing: Seize) -> Result<Asked, AllocError>
        ensures answer { IfOk result (λ asked. asked ≡ asked_of self.old device) }
        ensures after { OnOk result (self.new ≡ after_seize self.old device seizing) }
        ensures no_memory { OnErr result (self.new ≡ self.old) }
        ensures wanted { OnErr result (asked_of self.old device ≡ Begun) }
    {
        if let Some(task) = self.seizure(device) {
            return Ok(asked_again(task.result()));
        }
        self.tasks.push(Task {
            device,
            work: Work::Seizing(seizing),
        })?;
        Ok(Asked::Begun)
    }

    /// The device is to be joined. Of each device one joining is begun at most: it is put at the end
    /// of the queue, and the answer tells whether it was. Where memory runs out, which only a joining
    /// that would be begun can meet, nothing has changed.
    pub fn join(&mut self, device: DevId, joining: Join) -> Result<bool, AllocError>
        ensures answer { IfOk result (λ begun. begun ≡ begins_join self.old device) }
        ensures after { OnOk result (self.new ≡ after_join self.old device joining) }
        ensures no_memory { OnErr result (self.new ≡ self.old) }
        ensures wanted { OnErr result (begins_join self.old device ≡ true) }
    {
        if self.joining(device).is_some() {
            return Ok(false);
        }
        self.tasks.push(Task {
            device,
            work: Work::Joining(joining),
        })?;
        Ok(true)
    }

    /// The command that is due, of the first task of the queue; none exactly where the queue is empty.
    pub fn next_command(&self) -> Option<PrCommand>
        ensures value { result ≡ next_of self.now }
        ensures none { IsNone result ↔ (is_idle self.now ≡ true) }
        ensures allowed { IfSome result IsAllowed }
    {
        let Some(task) = self.first() else {
            return None;
        };
        task.command()
    }

    /// The device of the command that is due; none exactly where the queue is empty.
    pub fn due_device(&self) -> Option<DevId>
        ensures value { result ≡ due_device self.now }
    {
        let Some(task) = self.first() else {
            return None;
        };
        Some(task.device)
    }

    /// The device, exactly where the command that is due is the first of a plain seizing. In the event
    /// of that command the node's record first calls its key on the device not validated.
    pub fn begins_plainly(&self) -> Option<DevId>
        ensures value { result ≡ begins_plainly self.now }
    {
        let Some(task) = self.first() else {
            return None;
        };
        if task.registers_first() {
            Some(task.device)
        } else {
            None
        }
    }

    /// The answer to the command that is due, and what the first task of the queue has come to by it.
    /// A task that is over leaves the queue. An answer that the device never gives to the command
    /// counts as a failure. Where the queue is empty, nothing changes. This takes no memory.
    pub fn take_answer(&mut self, answer: Result<PrAnswer, Failed>) -> Progress
        requires keys { IfOk answer HasNoZeroKey }
        ensures answer { result ≡ progress_after self.old answer }
        ensures after { self.new ≡ after_answer self.old answer }
    {
        let Some(place) = self.first_place() else {
            return Progress::GoesOn;
        };
        let task = self.tasks[place].answered(answer);
        self.tasks[place] = task;
        task.progress()
    }

    /// How the seizing of the device ended, if one did.
    pub fn seized(&self, device: DevId) -> Option<SeizeResult>
        ensures value { result ≡ kept_of self.now device }
    {
        let Some(task) = self.seizure(device) else {
            return None;
        };
        task.result()
    }

    /// Whether a joining is queued.
    pub fn joins(&self) -> bool
        ensures value { result ≡ joins self.now }
    {
        self.tasks
            .iter()
            .any(|task| task.is_joining() && !task.is_over())
    }

    /// Whether no task is queued.
    pub fn is_empty(&self) -> bool
        ensures value { result ≡ is_idle self.now }
    {
        self.tasks.iter().all(|task| task.is_over())
    }

    /// The place of the first task of the queue.
    fn first_place(&self) -> Option<usize>
        ensures { result ≡ position is_queued self.now }
    {
        self.tasks.iter().position(|task| !task.is_over())
    }

    /// The first task of the queue.
    fn first(&self) -> Option<Task>
        ensures { result ≡ first_of self.now }
    {
        self.tasks.iter().copied().find(|task| !task.is_over())
    }

    /// The seizing of the device.
    fn seizure(&self, device: DevId) -> Option<Task>
        ensures { result ≡ seizure_of self.now device }
    {
        self.tasks
            .iter()
            .copied()
            .find(|task| task.is_seizure_of(device))
    }

    /// The joining of the device.
    fn joining(&self, device: DevId) -> Option<Task>
        ensures { result ≡ join_of self.now device }
    {
        self.tasks
            .iter()
            .copied()
            .find(|task| task.is_join_of(device))
    }
}

/// What becomes of a request where the device's seizing has ended so, or has not ended.
fn asked_again(kept: Option<SeizeResult>) -> Asked
    ensures { result ≡ asked_again kept }
{
    match kept {
        Some(result) => Asked::Kept(result),
        None => Asked::UnderWay,
    }
}
