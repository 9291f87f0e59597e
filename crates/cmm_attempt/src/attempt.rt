ghost use Rattle.std.specs.Prelude.{◌≡◌, ◌↔◌, IsTrue, ◌%◌, ◌==◌, ◌∷◌, [], true, IfOk};
ghost use Rattle.std.specs.List.{list_any};
ghost use Rattle.std.specs.Option.{option_copied};
ghost use Rattle.cl_base.specs.Sets.{has};
ghost use Rattle.cmm_attempt.specs.Seizings.{held_set};
ghost use Rattle.cmm_attempt.specs.declared.phase.Phase.TheVariants.{Choosing, Over};
ghost use Rattle.cmm_attempt.specs.declared.counting.BothVotes.{BothVotes};
ghost use Rattle.cmm_attempt.specs.Attempts.{with_steps, ends, in_phase, beginning, taking, voting, own_answering, own_readying, ticking, is_of, IsPromiseOf, HasFewKeys, newest_installed, newest_promise, promise_from, ready_from};

mod asking;
mod collecting;
mod installing;
mod ticking;
mod voting;

use crate::attached::AttachedDevices;
use crate::counting::BothVotes;
use crate::phase::{Phase, Readied};
use crate::plan::{Nodes, Plan};
use crate::promised::Promised;
use crate::seizing::{Seizing, held_of};
use crate::sending::promise_from;
use crate::step::{AttemptEnd, Step, Steps};
use asking::read_result;
use cl_base::{DevId, DevSet, Epoch, NodeId, NodeSet};
use collecting::first_promises;
use installing::ready_by;
use quorum_votes::Votes;
use seize::SeizeResult;
use std::alloc::{AllocError, Global};
use std::marker::Model;
use wire::{Body, Message};

/// An attempt to form a membership, as its coordinator has it. Contracts see an `AttemptState`.
pub struct Attempt {
    plan: Plan,
    promises: Vec<Promised>,
    newest: NodeId,
    votes: Option<BothVotes>,
    devices: Vec<Seizing>,
    // The devices that were held when the votes were found enough.
    counted: DevSet,
    readies: Vec<Readied>,
    own_ready: bool,
    phase: Phase,
    // 8 stands for more, too.
    ticks: u8,
}

impl Drop for Attempt {
    fn drop(self) {
        let Attempt {
            plan: _,
            promises: _,
            newest: _,
            votes: _,
            devices: _,
            counted: _,
            readies: _,
            own_ready: _,
            phase: _,
            ticks: _,
        } = self;
    }
}

impl Model for Attempt {
    ghost use Rattle.cmm_attempt.specs.Attempts.{AttemptState};

    ghost Value = { AttemptState };

    ghost view = { λ a. record { plan = a.plan; promises = a.promises.items; newest = a.newest; votes = a.votes; devices = a.devices.items; counted = a.counted; readies = a.readies.items; own_ready = a.own_ready; phase = a.phase; ticks = a.ticks } };
}

impl Attempt {
    /// An attempt of epoch `p` begins: its first steps are the Collects, or where the coordinator
    /// is alone those of the next phase. The coordinator is one of the members, and `own` is its
    /// Promise of `p`.
    #[tactic(auto, unfolding(crate::specs::Attempts::beginning))]
    pub fn begin(
        alloc: Global,
        p: Epoch,
        members: NodeSet,
        own: Message,
        attached: AttachedDevices,
        cluster: u32,
    ) -> Result<(Attempt, Steps), AllocError>
        requires coordinator { has members (p % 64) ≡ true }
        requires own { IsPromiseOf p own }
        ensures turn { IfOk result (λ r. with_steps r.0 r.1 ≡ beginning p members own attached cluster) }
    {
        let coordinator = own.sender;
        let plan = Plan {
            epoch: p,
            coordinator,
            members,
            nodes: Nodes::new(members.nodes(alloc)?),
            attached,
            cluster,
        };
        let mut attempt = Attempt {
            plan,
            promises: first_promises(alloc, coordinator, own)?,
            newest: coordinator,
            votes: None,
            devices: Vec::new(alloc),
            counted: DevSet::empty(),
            readies: Vec::new(alloc),
            own_ready: false,
            phase: Phase::Collecting,
            ticks: 0,
        };
        let steps = attempt.begun()?;
        Ok((attempt, steps))
    }

    /// Takes a message of this node. A Seized has at most 32 keys.
    #[tactic(auto, unfolding(crate::specs::Attempts::taking))]
    pub fn take(&mut self, from: NodeId, m: &Message) -> Result<Steps, AllocError>
        requires { HasFewKeys m.now.body }
        ensures turn { IfOk result (λ steps. with_steps self.new steps ≡ taking self.old from m.now) }
    {
        if self.phase == Phase::Over || !is_of(self.plan.epoch, &m.body) {
            return Ok(self.no_steps());
        }
        match &m.body {
            Body::Promise { .. } => self.take_promise(from, m),
            Body::Nack { promised, .. } => self.end(AttemptEnd::Superseded(*promised)),
            Body::Seized {
                device,
                outcome,
                ..
            } => self.take_result(*device, from, read_result(outcome)),
            Body::Ready { .. } => self.take_ready(from, m),
            _ => Ok(self.no_steps()),
        }
    }

    /// Takes the votes under the newest record: those under its committed updates, and those with
    /// its pending one. The last step given was `NeedVotes`.
    pub fn with_votes(
        &mut self,
        committed: Votes,
        pending: Option<Votes>,
    ) -> Result<Steps, AllocError>
        requires { self.old.phase ≡ Choosing }
        ensures turn { IfOk result (λ steps. with_steps self.new steps ≡ voting self.old (record { committed = committed; pending = pending })) }
    {
        self.take_votes(BothVotes { committed, pending })
    }

    /// Whether the votes under the newest record are wanted: `NeedVotes` was the last step given.
    pub fn needs_votes(&self) -> bool
        ensures value { IsTrue result ↔ (self.now.phase ≡ Choosing) }
    {
        self.phase == Phase::Choosing
    }

    /// The coordinator's own seizing of the device has ended so.
    #[tactic(auto, unfolding(crate::specs::Attempts::own_answering))]
    pub fn own_seized(&mut self, d: DevId, r: SeizeResult) -> Result<Steps, AllocError>
        ensures turn { IfOk result (λ steps. with_steps self.new steps ≡ own_answering self.old d r) }
    {
        self.take_result(d, self.plan.coordinator, r)
    }

    /// The coordinator has installed the membership and has done its own joining.
    #[tactic(auto, unfolding(crate::specs::Attempts::own_readying))]
    pub fn own_ready(&mut self) -> Result<Steps, AllocError>
        ensures turn { IfOk result (λ steps. with_steps self.new steps ≡ own_readying self.old) }
    {
        if self.phase != Phase::Installing {
            return Ok(self.no_steps());
        }
        self.own_ready = true;
        self.start()
    }

    /// A tick of the coordinator.
    #[tactic(auto, unfolding(crate::specs::Attempts::ticking))]
    pub fn tick(&mut self) -> Result<Steps, AllocError>
        ensures turn { IfOk result (λ steps. with_steps self.new steps ≡ ticking self.old) }
    {
        if self.phase == Phase::Over {
            return Ok(self.no_steps());
        }
        self.ticks = if self.ticks >= 8 { 8 } else { self.ticks + 1 };
        self.ticked()
    }

    /// The attempt's epoch.
    pub fn epoch(&self) -> Epoch
        ensures value { result ≡ self.now.plan.epoch }
    {
        self.plan.epoch
    }

    /// The members of the membership that it is to form.
    pub fn members(&self) -> NodeSet
        ensures value { result ≡ self.now.plan.members }
    {
        self.plan.members
    }

    /// The devices that are held.
    pub fn held_devices(&self) -> DevSet
        ensures value { result ≡ held_set self.now.devices }
    {
        held_of(self.devices.as_slice())
    }

    /// The installed epoch of the newest record; until all have promised, of the coordinator's own.
    pub fn newest_installed(&self) -> Option<Epoch>
        ensures value { result ≡ newest_installed self.now }
    {
        let newest = promise_from(self.promises.as_slice(), self.newest)?;
        Some(newest.shown.summary.installed)
    }

    /// The Promise with the newest record; until all have promised, the coordinator's own.
    pub fn newest_promise(&self) -> Option<&Message>
        ensures value { option_copied result ≡ newest_promise self.now }
    {
        promise_from(self.promises.as_slice(), self.newest).map(|p| &p.message)
    }

    /// Whether it has ended, or the membership starts: no call does anything then.
    pub fn is_over(&self) -> bool
        ensures value { IsTrue result ↔ (self.now.phase ≡ Over) }
    {
        self.phase == Phase::Over
    }

    /// The Promise that was taken from this node.
    pub fn promise_of(&self, n: NodeId) -> Option<&Message>
        ensures value { option_copied result ≡ promise_from self.now n }
    {
        promise_from(self.promises.as_slice(), n).map(|p| &p.message)
    }

    /// The Ready that was taken from this node.
    pub fn ready_of(&self, n: NodeId) -> Option<&Message>
        ensures value { option_copied result ≡ ready_from self.now n }
    {
        ready_by(self.readies.as_slice(), n).map(|r| &r.message)
    }

    fn alloc(&self) -> Global {
        *self.promises.allocator()
    }

    fn no_steps(&self) -> Steps
        ensures { result ≡ [] }
    {
        Steps::new(Vec::new(self.alloc()))
    }

    fn one_step(&self, step: Step) -> Result<Steps, AllocError>
        ensures { IfOk result (λ steps. steps ≡ step ∷ []) }
    {
        Ok(Steps::new(vec![in self.alloc(); step]?))
    }

    fn end(&mut self, end: AttemptEnd) -> Result<Steps, AllocError>
        ensures turn { IfOk result (λ steps. with_steps self.new steps ≡ ends self.old end) }
    {
        self.phase = Phase::Over;
        self.one_step(Step::Ended(end))
    }

    fn enter(&mut self, phase: Phase)
        ensures { self.new ≡ in_phase self.old phase }
    {
        self.phase = phase;
        self.ticks = 0;
    }
}

/// This step before the others.
fn led_by(alloc: Global, first: Step, mut more: Vec<Step>) -> Result<Steps, AllocError>
    ensures { IfOk result (λ steps. steps ≡ first ∷ more.items) }
{
    let mut steps = vec![in alloc; first]?;
    steps.append(&mut more)?;
    Ok(Steps::new(steps))
}

fn is_listed(nodes: &[NodeId], n: NodeId) -> bool
    ensures { result ≡ list_any (λ m. m == n) nodes.now }
{
    nodes.iter().any(|m| *m == n)
}

/// Whether the message is of this attempt.
fn is_of(epoch: Epoch, body: &Body) -> bool
    ensures { result ≡ is_of epoch body.now }
{
    match body {
        Body::Promise { epoch: p, .. }
        | Body::Nack { epoch: p, .. }
        | Body::Seized { epoch: p, .. }
        | Body::Ready { epoch: p, .. } => *p == epoch,
        _ => false,
    }
}
