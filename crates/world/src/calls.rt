// How the methods end that nodes call.
ghost use Rattle.std.specs.Prelude.{◌≡◌, ◌==◌, position, IfOk, OnOk};
ghost use Rattle.cl_base.specs.Methods.{place_of};
ghost use Rattle.world_model.specs.Calls.{ended, ended_so, fits};
ghost use Rattle.world_model.specs.Sends.{due_in};

use crate::world::World;
use cl_base::{Call, Method, Name, NodeId, Outcome};
use node::{Input, call_due};
use rgm_member::Due;
use std::alloc::{AllocError, Global};
use world_model::Scripted;

impl World {
    /// The call that the node is to make where this happens to it, if it is to make one.
    pub(crate) fn call_due(
        &mut self,
        alloc: Global,
        me: NodeId,
        input: &Input,
    ) -> Result<Option<Due>, AllocError>
        ensures value { IfOk result (λ due. due ≡ due_in self.old me input.now) }
        ensures same { self.new ≡ self.old }
    {
        let place = me.number() as usize - 1;
        if place >= self.nodes.len() {
            return Ok(None);
        }
        let node = &mut self.nodes[place];
        call_due(alloc, &self.cluster, me, self.clock, node, input)
    }

    /// How the method ends that the node calls where this happens to it. It is not asked for, if it calls
    /// none.
    pub(crate) fn call(
        &mut self,
        alloc: Global,
        me: NodeId,
        input: &Input,
    ) -> Result<Outcome, AllocError>
        ensures outcome { IfOk result (λ outcome. outcome ≡ (ended self.old (due_in self.old me input.now)).outcome) }
        ensures after { OnOk result (self.new ≡ (ended self.old (due_in self.old me input.now)).world) }
    {
        match self.call_due(alloc, me, input)? {
            Some(Due { agent, call }) => Ok(self.end_call(agent, &call)),
            None => Ok(Outcome::Failure),
        }
    }

    /// The call ends: as was queued for it, or else as this agent makes it end. Without one it is a
    /// failure.
    fn end_call(&mut self, agent: Option<Name>, call: &Call) -> Outcome
        ensures outcome { result ≡ (ended_so self.old (record { agent = agent; call = call.now }) (position (fits call.now) self.old.script)).outcome }
        ensures after { self.new ≡ (ended_so self.old (record { agent = agent; call = call.now }) (position (fits call.now) self.old.script)).world }
    {
        if let Some(place) = queued_for(&self.script, call) {
            return self.script.remove(place).outcome;
        }
        match agent {
            Some(name) => self.agents.call(&name, call),
            None => Outcome::Failure,
        }
    }
}

/// The place of the first outcome that is queued for such a call.
fn queued_for(script: &[Scripted], call: &Call) -> Option<usize>
    ensures value { result ≡ position (fits call.now) script.now }
{
    script.iter().position(|queued| fits(call, queued))
}

/// Whether the outcome was queued for such a call.
fn fits(call: &Call, queued: &Scripted) -> bool
    ensures value { result ≡ fits call.now queued.now }
{
    queued.node == call.node
        && queued.resource.bytes() == call.resource.bytes()
        && is_same(queued.method, call.method)
}

fn is_same(one: Method, other: Method) -> bool
    ensures value { result ≡ (place_of one == place_of other) }
{
    one == other
}
