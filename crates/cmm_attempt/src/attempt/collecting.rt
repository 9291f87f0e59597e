ghost use Rattle.std.specs.Prelude.{◌≡◌, IfOk, Some, not, map, ◌==◌};
ghost use Rattle.std.specs.List.{list_any};
ghost use Rattle.cmm_attempt.specs.Promises.{promised_by, shown_by};
ghost use Rattle.cmm_attempt.specs.Attempts.{with_steps, all_promised, begun, collects, gathered, awaits_promise, promising, choosing, chosen, promises_of};

use super::{Attempt, is_listed};
use crate::phase::Phase;
use crate::promised::{Promised, Shown, has_promise, keep_promise, newest_of};
use crate::sending::send_collects;
use crate::step::{Step, Steps};
use cl_base::NodeId;
use std::alloc::{AllocError, Global};
use wire::{Message, copy_promise};

impl Attempt {
    pub(super) fn has_all_promises(&self) -> bool
        ensures { result ≡ all_promised self.now }
    {
        let promises = self.promises.as_slice();
        self.plan
            .nodes
            .items()
            .iter()
            .all(|n| has_promise(promises, *n))
    }

    pub(super) fn begun(&mut self) -> Result<Steps, AllocError>
        ensures turn { IfOk result (λ steps. with_steps self.new steps ≡ begun self.old) }
    {
        if self.has_all_promises() {
            return self.choose();
        }
        Ok(Steps::new(self.collects()?))
    }

    /// Collect to the other members that have not promised.
    pub(super) fn collects(&self) -> Result<Vec<Step>, AllocError>
        ensures { IfOk result (λ steps. steps.items ≡ collects self.now) }
    {
        let to = self.silent_others()?;
        send_collects(self.alloc(), &self.plan, to.as_slice())
    }

    pub(super) fn awaits_promise(&self, n: NodeId) -> bool
        ensures { result ≡ awaits_promise self.now n self.now.phase }
    {
        self.phase == Phase::Collecting
            && is_listed(self.plan.nodes.items(), n)
            && !has_promise(self.promises.as_slice(), n)
    }

    #[tactic(auto, unfolding(crate::specs::Attempts::promising))]
    pub(super) fn take_promise(&mut self, from: NodeId, m: &Message) -> Result<Steps, AllocError>
        ensures turn { IfOk result (λ steps. with_steps self.new steps ≡ promising self.old from m.now) }
    {
        if !self.awaits_promise(from) {
            return Ok(self.no_steps());
        }
        match kept_promise(self.alloc(), from, m)? {
            Some(p) => {
                self.promises.push(p)?;
                self.gather()
            }
            None => Ok(self.no_steps()),
        }
    }

    /// Goes on where every member has promised.
    pub(super) fn gather(&mut self) -> Result<Steps, AllocError>
        ensures turn { IfOk result (λ steps. with_steps self.new steps ≡ gathered self.old) }
    {
        if self.has_all_promises() {
            self.choose()
        } else {
            Ok(self.no_steps())
        }
    }

    /// Chooses the newest record, with every Promise in hand.
    #[tactic(auto, unfolding(crate::specs::Attempts::choosing))]
    pub(super) fn choose(&mut self) -> Result<Steps, AllocError>
        ensures turn { IfOk result (λ steps. with_steps self.new steps ≡ choosing self.old) }
    {
        match newest_of(self.alloc(), self.promises.as_slice())? {
            Some(newest) => self.choose_by(&newest),
            None => Ok(self.no_steps()),
        }
    }

    fn choose_by(&mut self, newest: &Shown) -> Result<Steps, AllocError>
        ensures turn { IfOk result (λ steps. with_steps self.new steps ≡ chosen self.old newest.now) }
    {
        self.newest = newest.summary.node;
        self.enter(Phase::Choosing);
        let newest = self.newest;
        self.one_step(Step::NeedVotes { newest })
    }
}

pub(super) fn first_promises(
    alloc: Global,
    own: NodeId,
    m: Message,
) -> Result<Vec<Promised>, AllocError>
    ensures { IfOk result (λ promises. promises.items ≡ promises_of (promised_by m (shown_by own m.body))) }
{
    match keep_promise(own, m) {
        Some(p) => Ok(vec![in alloc; p]?),
        None => Ok(Vec::new(alloc)),
    }
}

fn kept_promise(alloc: Global, from: NodeId, m: &Message) -> Result<Option<Promised>, AllocError>
    ensures { IfOk result (λ p. p ≡ promised_by m.now (shown_by from m.now.body)) }
{
    match copy_promise(alloc, m)? {
        Some(copy) => Ok(keep_promise(from, copy)),
        None => Ok(None),
    }
}
