ghost use Rattle.std.specs.Prelude.{◌≡◌, IfOk, find};
ghost use Rattle.cmm_attempt.specs.Promises.{newest_shown, is_left_out, first_left_out};
ghost use Rattle.cmm_attempt.specs.Seizings.{held_set};
ghost use Rattle.cmm_attempt.specs.Counts.{first_foreign};
ghost use Rattle.cmm_attempt.specs.Attempts.{with_steps, voting, knowing, voted, vote_entries, seizing_votes, asked_votes, shortage, counting};

use super::Attempt;
use crate::counting::{BothVotes, reached_of, vote_seizings, votes_ended};
use crate::phase::Phase;
use crate::promised::{Promised, Shown, is_excluded, newest_of};
use crate::seizing::{Seizing, are_settled, held_of};
use crate::sending::requests;
use crate::step::{AttemptEnd, Steps};
use cl_base::{DevSet, NodeId};
use std::alloc::AllocError;

impl Attempt {
    #[tactic(auto, unfolding(crate::specs::Attempts::voting))]
    pub(super) fn take_votes(&mut self, both: BothVotes) -> Result<Steps, AllocError>
        ensures turn { IfOk result (λ steps. with_steps self.new steps ≡ voting self.old both) }
    {
        let foreign = first_foreign(&both, self.plan.nodes.items());
        self.votes = Some(both);
        self.devices = Vec::new(self.alloc());
        self.enter(Phase::SeizingVotes);
        match foreign {
            Some(m) => self.end(AttemptEnd::Foreign(m)),
            None => self.admit(),
        }
    }

    /// Ends the attempt where the newest record left a member out.
    #[tactic(auto, unfolding(crate::specs::Attempts::knowing))]
    fn admit(&mut self) -> Result<Steps, AllocError>
        ensures turn { IfOk result (λ steps. with_steps self.new steps ≡ knowing self.old) }
    {
        match self.first_left_out()? {
            Some(m) => self.end(AttemptEnd::Excluded(m)),
            None => self.vote(),
        }
    }

    /// The least member that the newest record left out.
    fn first_left_out(&self) -> Result<Option<NodeId>, AllocError>
        ensures { IfOk result (λ m. m ≡ first_left_out self.now.promises self.now.plan.nodes (newest_shown self.now.promises)) }
    {
        let promises = self.promises.as_slice();
        match newest_of(self.alloc(), promises)? {
            Some(newest) => Ok(first_excluded(&newest, promises, self.plan.nodes.items())),
            None => Ok(None),
        }
    }

    /// Whether the votes are enough with every device that a member reaches.
    fn vote(&mut self) -> Result<Steps, AllocError>
        ensures turn { IfOk result (λ steps. with_steps self.new steps ≡ voted self.old) }
    {
        let reached = reached_of(&self.plan);
        match self.shortage(reached)? {
            Some(end) => self.end(end),
            None => self.seize_votes(),
        }
    }

    /// Begins to seize the quorum devices.
    #[tactic(auto, unfolding(crate::specs::Attempts::seizing_votes))]
    pub(super) fn seize_votes(&mut self) -> Result<Steps, AllocError>
        ensures turn { IfOk result (λ steps. with_steps self.new steps ≡ seizing_votes self.old) }
    {
        self.devices = self.vote_entries()?;
        self.ask_votes()
    }

    /// The seizings of the quorum devices, each with the member asked first.
    pub(super) fn vote_entries(&self) -> Result<Vec<Seizing>, AllocError>
        ensures { IfOk result (λ devices. devices.items ≡ vote_entries self.now) }
    {
        match &self.votes {
            Some(both) => {
                let promises = self.promises.as_slice();
                vote_seizings(self.alloc(), &self.plan, promises, both)
            }
            None => Ok(Vec::new(self.alloc())),
        }
    }

    #[tactic(auto, unfolding(crate::specs::Attempts::asked_votes))]
    pub(super) fn ask_votes(&mut self) -> Result<Steps, AllocError>
        ensures turn { IfOk result (λ steps. with_steps self.new steps ≡ asked_votes self.old) }
    {
        if are_settled(self.devices.as_slice()) {
            return self.count();
        }
        let asked = requests(self.alloc(), &self.plan, self.devices.as_slice())?;
        Ok(Steps::new(asked))
    }

    /// Counts the votes of the members and of the devices held.
    #[tactic(auto, unfolding(crate::specs::Attempts::counting))]
    pub(super) fn count(&mut self) -> Result<Steps, AllocError>
        ensures turn { IfOk result (λ steps. with_steps self.new steps ≡ counting self.old) }
    {
        let held = held_of(self.devices.as_slice());
        match self.shortage(held)? {
            Some(end) => self.end(end),
            None => {
                self.counted = held;
                self.seize_others()
            }
        }
    }

    /// The end for want of votes where these devices are held.
    pub(super) fn shortage(&self, held: DevSet) -> Result<Option<AttemptEnd>, AllocError>
        ensures { IfOk result (λ end. end ≡ shortage self.now held) }
    {
        let Some(both) = &self.votes else {
            return Ok(None);
        };
        match both.first_short(self.plan.members, held) {
            Some(v) => {
                let devices = self.devices.as_slice();
                let end = votes_ended(self.alloc(), v, &self.plan, devices, held)?;
                Ok(Some(end))
            }
            None => Ok(None),
        }
    }
}

/// The least of these nodes that is not configured.
fn first_foreign(both: &BothVotes, nodes: &[NodeId]) -> Option<NodeId>
    ensures { result ≡ first_foreign both.now nodes.now }
{
    nodes.iter().copied().find(|n| both.is_foreign(*n))
}

fn first_excluded(newest: &Shown, promises: &[Promised], nodes: &[NodeId]) -> Option<NodeId>
    ensures { result ≡ find (is_left_out newest.now promises.now) nodes.now }
{
    nodes
        .iter()
        .copied()
        .find(|n| is_excluded(newest, promises, *n))
}
