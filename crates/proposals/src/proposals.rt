ghost use Rattle.std.specs.Prelude.{◌≡◌, ◌<◌, ◌^◌, length, IfOk, OnOk, OnErr};
ghost use Rattle.std.specs.List.{list_any};
ghost use Rattle.std.specs.Option.{option_map};
ghost use Rattle.proposals.specs.declared.arrived.Arrival.TheVariants.{New};
ghost use Rattle.proposals.specs.State.{first_in, kept_at, nothing_yet};
ghost use Rattle.proposals.specs.Arrivals.{after_kept, answered, arrival_of, is_from, waits_or_is_new, with_arrival};
ghost use Rattle.proposals.specs.Proposing.{goes_again, is_prepared, prepared_by, proposing, ticked};

use crate::arrived::{Arrival, Arrived, Kept, Proposed};
use cl_base::{Bytes, NodeId, NodeSet};
use std::alloc::{AllocError, Global};
use std::marker::Model;

/// How many nodes there may be.
const NODES: usize = 32;

/// At which tick after they were sent Prepares go again.
const AGAIN: u64 = 4;

/// What the president of a membership has in hand. Contracts see it as a `State`.
#[derive(Drop)]
pub struct Proposals {
    arrived: Vec<Arrived>,
    proposed: Option<Proposed>,
    age: u64,
    answers: Vec<Option<Kept>>,
}

impl Model for Proposals {
    ghost use Rattle.proposals.specs.State.{State};

    ghost Value = { State };

    ghost use Rattle.std.specs.Prelude.{◌≡◌, ◌<◌, length};

    ghost view = { λ p. record { arrived = p.arrived.items; proposed = p.proposed; age = p.age; answers = p.answers.items } };

    ghost invariant = { λ p. (p.age < 4) × (length p.answers.items ≡ 32) };
}

impl Proposals {
    /// Nothing has come in this membership.
    pub fn new(alloc: Global) -> Result<Proposals, AllocError>
        ensures value { IfOk result (λ made. made ≡ nothing_yet) }
    {
        let mut answers = Vec::with_capacity(alloc, NODES)?;
        for _ in 0..NODES {
            answers.push(None)?;
        }
        Ok(Proposals {
            arrived: Vec::new(alloc),
            proposed: None,
            age: 0,
            answers,
        })
    }

    /// A request comes. One that is new waits behind the others; any other changes nothing. A node has
    /// one that waits at most. Memory is
    /// wanted by a new one alone, and without it nothing is changed.
    pub fn arrive(&mut self, request: Arrived) -> Result<Arrival, AllocError>
        ensures value { IfOk result (λ arrival. arrival ≡ arrival_of self.old request.from request.number) }
        ensures after { OnOk result (self.new ≡ with_arrival self.old request (arrival_of self.old request.from request.number)) }
        ensures err { OnErr result (self.new ≡ self.old) }
        ensures wanted { OnErr result (arrival_of self.old request.from request.number ≡ New) }
    {
        let arrival = self.arrival(request.from, request.number);
        if arrival == Arrival::New {
            self.arrived.push(request)?;
        }
        Ok(arrival)
    }

    /// What a request of this number is, if it comes now.
    pub fn arrival(&self, from: NodeId, number: u64) -> Arrival
        ensures value { result ≡ arrival_of self.now from number }
    {
        after_kept(self.answer_to(from), number, self.waits(from))
    }

    /// Whether a request of this node waits or is being handled.
    fn waits(&self, from: NodeId) -> bool
        ensures { result ≡ list_any (is_from from) self.now.arrived }
    {
        self.arrived.iter().any(|a| is_from(a, from))
    }

    /// The last answer to the node in this membership.
    pub fn answer_to(&self, n: NodeId) -> Option<&Kept>
        ensures value { option_map (λ k. k.now) result ≡ kept_at self.now.answers n }
    {
        self.answers[n.number() as usize - 1].as_ref()
    }

    /// The request that is being handled, or is next.
    pub fn first(&self) -> Option<&Arrived>
        ensures value { option_map (λ a. a.now) result ≡ first_in self.now.arrived }
    {
        self.arrived.first()
    }

    /// How many requests there are.
    pub fn len(&self) -> usize
        ensures value { result ≡ length self.now.arrived }
        ensures most { result < 2 ^ 63 }
    {
        self.arrived.len()
    }

    /// The update that is proposed.
    pub fn proposed(&self) -> Option<Proposed>
        ensures value { result ≡ self.now.proposed }
    {
        self.proposed
    }

    /// An update is proposed for the first request at this place; these members are to prepare it.
    pub fn propose(&mut self, place: u64, missing: NodeSet)
        ensures after { self.new ≡ proposing self.old place missing }
    {
        self.proposed = Some(Proposed { place, missing });
        self.age = 0;
    }

    /// The node has prepared what is proposed at this place.
    pub fn prepared(&mut self, n: NodeId, place: u64)
        ensures after { self.new ≡ prepared_by self.old n place }
    {
        match self.proposed {
            Some(p) if p.place == place => {
                let missing = p.missing.without(n);
                self.proposed = Some(Proposed { place, missing });
            }
            _ => {}
        }
    }

    /// Whether all members have prepared what is proposed.
    pub fn is_prepared(&self) -> bool
        ensures value { result ≡ is_prepared self.now }
    {
        match self.proposed {
            Some(p) => p.missing == NodeSet::empty(),
            None => false,
        }
    }

    /// A tick of the president. Whether the Prepares are to go again to those that are missing: at the
    /// fourth tick after they were sent.
    pub fn tick(&mut self) -> bool
        ensures value { result ≡ goes_again self.old }
        ensures after { self.new ≡ ticked self.old }
    {
        if self.proposed.is_none() {
            self.age = 0;
            return false;
        }
        let due = self.age + 1 >= AGAIN;
        self.age = if due { 0 } else { self.age + 1 };
        due
    }

    /// The first request is answered so. Nothing is proposed for it any more, and the answer is kept in
    /// place of the last one to its node. None, and nothing is changed, exactly where no request waits.
    pub fn answer(&mut self, text: Bytes) -> Option<Arrived>
        ensures value { result ≡ first_in self.old.arrived }
        ensures after { self.new ≡ answered self.old text }
    {
        if self.arrived.is_empty() {
            return None;
        }
        let first = self.arrived.remove(0);
        self.answers[first.from.number() as usize - 1] = Some(Kept {
            number: first.number,
            text,
        });
        self.proposed = None;
        self.age = 0;
        Some(first)
    }
}

fn is_from(a: &Arrived, from: NodeId) -> bool
    ensures { result ≡ is_from from a.now }
{
    a.from == from
}

/// What a request is, by the last answer to its node.
fn after_kept(kept: Option<&Kept>, number: u64, waits: bool) -> Arrival
    ensures { result ≡ after_kept (option_map (λ k. k.now) kept.entry) number waits }
{
    match kept {
        Some(kept) if number < kept.number => Arrival::Past,
        Some(kept) if number == kept.number => Arrival::Answered,
        _ => waits_or_is_new(waits),
    }
}

fn waits_or_is_new(waits: bool) -> Arrival
    ensures { result ≡ waits_or_is_new waits }
{
    if waits { Arrival::Waits } else { Arrival::New }
}
