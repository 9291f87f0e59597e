ghost use Rattle.std.specs.Prelude.{◌≡◌, IfOk, find};
ghost use Rattle.std.specs.List.{list_any};
ghost use Rattle.cmm_attempt.specs.Seizings.{awaits_from};
ghost use Rattle.cmm_attempt.specs.Attempts.{with_steps, is_missing, silent_others, again_in, ticked};

use super::Attempt;
use crate::phase::Phase;
use crate::promised::has_promise;
use crate::seizing::Seizing;
use crate::sending::requests_again;
use crate::step::{AttemptEnd, Step, Steps};
use cl_base::NodeId;
use std::alloc::AllocError;

impl Attempt {
    /// Whether the node's answer is missing.
    pub(super) fn is_missing(&self, n: NodeId) -> bool
        ensures { result ≡ is_missing self.now n }
    {
        match self.phase {
            Phase::Collecting => !has_promise(self.promises.as_slice(), n),
            Phase::SeizingVotes | Phase::SeizingOthers => { is_awaited(self.devices.as_slice(), n) }
            Phase::Installing => self.is_unready(n),
            Phase::Choosing | Phase::Over => false,
        }
    }

    /// The other members whose answer is missing, ascending.
    pub(super) fn silent_others(&self) -> Result<Vec<NodeId>, AllocError>
        ensures { IfOk result (λ nodes. nodes.items ≡ silent_others self.now) }
    {
        let nodes = self.plan.nodes.items().iter().copied();
        nodes
            .filter(|n| *n != self.plan.coordinator && self.is_missing(*n))
            .collect(self.alloc())
    }

    /// The least member whose answer is missing.
    pub(super) fn first_silent(&self) -> Option<NodeId>
        ensures { result ≡ find (is_missing self.now) self.now.plan.nodes }
    {
        let nodes = self.plan.nodes.items();
        nodes.iter().copied().find(|n| self.is_missing(*n))
    }

    /// The phase's message to each other member that has not answered.
    pub(super) fn again(&self) -> Result<Vec<Step>, AllocError>
        ensures { IfOk result (λ steps. steps.items ≡ again_in self.now self.now.phase) }
    {
        match self.phase {
            Phase::Collecting => self.collects(),
            Phase::SeizingVotes | Phase::SeizingOthers => {
                requests_again(self.alloc(), &self.plan, self.devices.as_slice())
            }
            Phase::Installing => {
                let i = self.make_install()?;
                self.installs(&i)
            }
            Phase::Choosing | Phase::Over => Ok(Vec::new(self.alloc())),
        }
    }

    pub(super) fn ticked(&mut self) -> Result<Steps, AllocError>
        ensures turn { IfOk result (λ steps. with_steps self.new steps ≡ ticked self.old) }
    {
        if self.ticks >= 8 {
            return match self.first_silent() {
                Some(m) => self.end(AttemptEnd::Silent(m)),
                None => Ok(self.no_steps()),
            };
        }
        if self.ticks == 4 {
            return Ok(Steps::new(self.again()?));
        }
        Ok(self.no_steps())
    }
}

fn is_awaited(devices: &[Seizing], n: NodeId) -> bool
    ensures { result ≡ list_any (awaits_from n) devices.now }
{
    devices.iter().any(|e| e.awaits_from(n))
}
