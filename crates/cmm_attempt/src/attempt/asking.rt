ghost use Rattle.std.specs.Prelude.{◌≡◌, IfOk, Some, map, find};
ghost use Rattle.std.specs.Option.{option_copied};
ghost use Rattle.cmm_attempt.specs.Seizings.{awaits, with_result, with_next};
ghost use Rattle.cmm_attempt.specs.Attempts.{with_steps, seizing_others, proceeding, answering_in, answering, asked_next, settled, FitsKeys};

use super::Attempt;
use crate::counting::plain_seizings;
use crate::phase::Phase;
use crate::seizing::{Seizing, are_settled, request};
use crate::sending::requests;
use crate::step::Steps;
use cl_base::{DevId, NodeId};
use pgr_device::KeyList;
use seize::{SeizeKind, SeizeResult};
use std::alloc::{AllocError, Global};
use wire::SeizedResult;

impl Attempt {
    /// Begins to seize the devices that have no votes.
    #[tactic(auto, unfolding(crate::specs::Attempts::seizing_others))]
    pub(super) fn seize_others(&mut self) -> Result<Steps, AllocError>
        ensures turn { IfOk result (λ steps. with_steps self.new steps ≡ seizing_others self.old) }
    {
        let more = plain_seizings(self.alloc(), &self.plan, self.devices.as_slice())?;
        if more.is_empty() {
            return self.install();
        }
        let asked = requests(self.alloc(), &self.plan, more.as_slice())?;
        self.devices.extend_from_slice(more.as_slice())?;
        self.enter(Phase::SeizingOthers);
        Ok(Steps::new(asked))
    }

    /// Goes on where all seizings of the phase have ended.
    #[tactic(auto, unfolding(crate::specs::Attempts::proceeding))]
    pub(super) fn proceed(&mut self) -> Result<Steps, AllocError>
        ensures turn { IfOk result (λ steps. with_steps self.new steps ≡ proceeding self.old) }
    {
        if !are_settled(self.devices.as_slice()) {
            return Ok(self.no_steps());
        }
        match self.phase {
            Phase::SeizingVotes => self.count(),
            Phase::SeizingOthers => self.install(),
            Phase::Collecting | Phase::Choosing | Phase::Installing | Phase::Over => {
                Ok(self.no_steps())
            }
        }
    }

    /// Takes the node's answer on the device, where it is awaited.
    pub(super) fn take_result(
        &mut self,
        d: DevId,
        from: NodeId,
        r: SeizeResult,
    ) -> Result<Steps, AllocError>
        ensures turn { IfOk result (λ steps. with_steps self.new steps ≡ answering_in self.old d from r self.old.phase) }
    {
        match self.phase {
            Phase::SeizingVotes | Phase::SeizingOthers => self.answer(d, from, r),
            Phase::Collecting | Phase::Choosing | Phase::Installing | Phase::Over => {
                Ok(self.no_steps())
            }
        }
    }

    #[tactic(auto, unfolding(crate::specs::Attempts::answering))]
    pub(super) fn answer(
        &mut self,
        d: DevId,
        from: NodeId,
        r: SeizeResult,
    ) -> Result<Steps, AllocError>
        ensures turn { IfOk result (λ steps. with_steps self.new steps ≡ answering self.old d from r) }
    {
        let Some(e) = awaited_entry(self.devices.as_slice(), d, from) else {
            return Ok(self.no_steps());
        };
        let kind = e.kind;
        match e.next_after(&self.plan, self.promises.as_slice(), &r) {
            Some(n) => self.ask_next(d, kind, n),
            None => self.settle(d, r),
        }
    }

    /// Asks this member next to seize the device.
    #[tactic(auto, unfolding(crate::specs::Attempts::asked_next))]
    pub(super) fn ask_next(
        &mut self,
        d: DevId,
        kind: SeizeKind,
        n: NodeId,
    ) -> Result<Steps, AllocError>
        ensures turn { IfOk result (λ steps. with_steps self.new steps ≡ asked_next self.old d kind n) }
    {
        self.devices = asked_entries(self.alloc(), self.devices.as_slice(), d, n)?;
        self.ticks = 0;
        self.one_step(request(&self.plan, kind, d, n))
    }

    #[tactic(auto, unfolding(crate::specs::Attempts::settled))]
    pub(super) fn settle(&mut self, d: DevId, r: SeizeResult) -> Result<Steps, AllocError>
        ensures turn { IfOk result (λ steps. with_steps self.new steps ≡ settled self.old d r) }
    {
        self.devices = ended_entries(self.alloc(), self.devices.as_slice(), d, r)?;
        self.proceed()
    }
}

fn awaited_entry(devices: &[Seizing], d: DevId, n: NodeId) -> Option<&Seizing>
    ensures { option_copied result ≡ find (awaits d n) devices.now }
{
    devices.iter().find(|e| e.awaits(d, n))
}

fn ended_entries(
    alloc: Global,
    devices: &[Seizing],
    d: DevId,
    r: SeizeResult,
) -> Result<Vec<Seizing>, AllocError>
    ensures { IfOk result (λ ended. ended.items ≡ map (with_result d r) devices.now) }
{
    devices.iter().map(|e| e.ended(d, r)).collect(alloc)
}

fn asked_entries(
    alloc: Global,
    devices: &[Seizing],
    d: DevId,
    n: NodeId,
) -> Result<Vec<Seizing>, AllocError>
    ensures { IfOk result (λ asked. asked.items ≡ map (with_next d n) devices.now) }
{
    devices.iter().map(|e| e.asking(d, n)).collect(alloc)
}

/// How the seizing ended by the word of a Seized.
pub(super) fn read_result(outcome: &SeizedResult) -> SeizeResult
    requires { FitsKeys outcome.now }
    ensures { result ≡ outcome.now }
{
    match outcome {
        SeizedResult::Held(keys) => SeizeResult::Held(KeyList::new(keys.items())),
        SeizedResult::NotRegistered(keys) => {
            SeizeResult::NotRegistered(KeyList::new(keys.items()))
        }
        SeizedResult::Greater(word) => SeizeResult::Greater(*word),
        SeizedResult::Expelled => SeizeResult::Expelled,
        SeizedResult::Contended(key) => SeizeResult::Contended(*key),
        SeizedResult::Fault => SeizeResult::Fault,
    }
}
