ghost use Rattle.std.specs.Prelude.{◌≡◌, IfOk, Some, find, ◌==◌};
ghost use Rattle.std.specs.List.{list_any};
ghost use Rattle.std.specs.Option.{option_copied};
ghost use Rattle.cmm_attempt.specs.Attempts.{with_steps, has_readied, is_unready, all_ready, starting, install_in, installs, installed, installing, awaits_ready, readying, own_readying};

use super::{Attempt, is_listed, led_by};
use crate::phase::{Phase, Readied};
use crate::sending::{make_install, send_installs, send_starts};
use crate::step::{Step, Steps};
use cl_base::NodeId;
use std::alloc::AllocError;
use wire::{Install, Message, copy_ready};

impl Attempt {
    /// Whether the node's Ready is missing, or the coordinator's own part.
    pub(super) fn is_unready(&self, n: NodeId) -> bool
        ensures { result ≡ is_unready self.now n }
    {
        if n == self.plan.coordinator {
            !self.own_ready
        } else {
            !has_ready(self.readies.as_slice(), n)
        }
    }

    pub(super) fn are_all_ready(&self) -> bool
        ensures { result ≡ all_ready self.now }
    {
        let readies = self.readies.as_slice();
        let mut nodes = self.plan.nodes.items().iter();
        nodes.all(|n| *n == self.plan.coordinator || has_ready(readies, *n))
    }

    /// Starts the membership where every member is ready.
    #[tactic(auto, unfolding(crate::specs::Attempts::starting))]
    pub(super) fn start(&mut self) -> Result<Steps, AllocError>
        ensures turn { IfOk result (λ steps. with_steps self.new steps ≡ starting self.old) }
    {
        if !self.own_ready || !self.are_all_ready() {
            return Ok(self.no_steps());
        }
        self.phase = Phase::Over;
        let starts = send_starts(self.alloc(), &self.plan)?;
        led_by(self.alloc(), Step::StartHere, starts)
    }

    pub(super) fn make_install(&self) -> Result<Install, AllocError>
        ensures { IfOk result (λ i. i ≡ install_in self.now) }
    {
        make_install(
            self.alloc(),
            &self.plan,
            self.promises.as_slice(),
            self.newest,
            self.devices.as_slice(),
        )
    }

    /// Install to the other members that are not ready.
    pub(super) fn installs(&self, i: &Install) -> Result<Vec<Step>, AllocError>
        requires { i.now ≡ install_in self.now }
        ensures { IfOk result (λ steps. steps.items ≡ installs self.now) }
    {
        let to = self.silent_others()?;
        send_installs(self.alloc(), &self.plan, i, to.as_slice())
    }

    #[tactic(auto, unfolding(crate::specs::Attempts::installing))]
    pub(super) fn install(&mut self) -> Result<Steps, AllocError>
        ensures turn { IfOk result (λ steps. with_steps self.new steps ≡ installing self.old) }
    {
        self.enter(Phase::Installing);
        self.first_installs()
    }

    pub(super) fn first_installs(&self) -> Result<Steps, AllocError>
        ensures { IfOk result (λ steps. steps ≡ (installed self.now).steps) }
    {
        let i = self.make_install()?;
        let sends = self.installs(&i)?;
        led_by(self.alloc(), Step::InstallHere(i), sends)
    }

    pub(super) fn awaits_ready(&self, n: NodeId) -> bool
        ensures { result ≡ awaits_ready self.now n self.now.phase }
    {
        self.phase == Phase::Installing
            && is_listed(self.plan.nodes.items(), n)
            && n != self.plan.coordinator
            && !has_ready(self.readies.as_slice(), n)
    }

    #[tactic(auto, unfolding(crate::specs::Attempts::readying))]
    pub(super) fn take_ready(&mut self, from: NodeId, m: &Message) -> Result<Steps, AllocError>
        ensures turn { IfOk result (λ steps. with_steps self.new steps ≡ readying self.old from m.now) }
    {
        if !self.awaits_ready(from) {
            return Ok(self.no_steps());
        }
        match copy_ready(self.alloc(), m)? {
            Some(message) => {
                let node = from;
                self.readies.push(Readied { node, message })?;
                self.start()
            }
            None => Ok(self.no_steps()),
        }
    }
}

fn has_ready(readies: &[Readied], n: NodeId) -> bool
    ensures { result ≡ has_readied readies.now n }
{
    readies.iter().any(|r| r.node == n)
}

pub(super) fn ready_by(readies: &[Readied], n: NodeId) -> Option<&Readied>
    ensures { option_copied result ≡ find (λ r. r.node == n) readies.now }
{
    readies.iter().find(|r| r.node == n)
}
