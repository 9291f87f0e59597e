ghost use Rattle.std.specs.Prelude.{◌≡◌, ◌<◌, [], IfOk, OnErr};
ghost use Rattle.indexmap.specs.IndexMap.{spare};
ghost use Rattle.rg_props.specs.Words.{name_in};
ghost use Rattle.rgm_member.specs.Orders.{IsNew, after_order, answer_to};
ghost use Rattle.rgm_member.specs.Outcomes.{groups_after, resources_after, resources_cleared, with_failure};
ghost use Rattle.rgm_member.specs.State.{new_worker};

use crate::carried::Carried;
use crate::memory::NoMemory;
use crate::names::name_of;
use crate::outcomes::{is_start_failure, marks_after};
use crate::past::Past;
use crate::settings::charged;
use crate::tables::{keep_outcome, make_room, marks_of, past_of, put};
use ccr_tables::Config;
use cl_base::{Epoch, Method, Name, NodeId, Outcome, Seconds};
use indexmap::IndexMap;
use std::alloc::Global;
use std::marker::Model;
use wire::{Marks, Order};

/// A member's side of the resource groups. Contracts see it as a `WorkerState`.
pub struct Worker {
    pub(crate) me: NodeId,
    pub(crate) epoch: Epoch,
    /// The outcome of each order of the membership that was carried out, by its number.
    pub(crate) outcomes: IndexMap<u64, Outcome>,
    pub(crate) resources: IndexMap<Name, Marks>,
    pub(crate) groups: IndexMap<Name, Past>,
    pub(crate) restarts: IndexMap<Name, Seconds>,
}

impl Drop for Worker {
    fn drop(self) {
        let Worker {
            me: _,
            epoch: _,
            outcomes: _,
            resources: _,
            groups: _,
            restarts: _,
        } = self;
    }
}

impl Model for Worker {
    ghost use Rattle.rgm_member.specs.State.{WorkerState};

    ghost Value = { WorkerState };

    ghost view = { λ w. record { me = w.me; epoch = w.epoch; outcomes = w.outcomes.entries; resources = w.resources.entries; groups = w.groups.entries; restarts = w.restarts.entries } };
}

impl Worker {
    /// A node that is a member of nothing, and of whose resources and groups nothing is known.
    pub fn new(alloc: Global, me: NodeId) -> Worker
        ensures value { result ≡ new_worker me }
    {
        Worker {
            me,
            epoch: Epoch::zero(),
            outcomes: IndexMap::new(alloc),
            resources: IndexMap::new(alloc),
            groups: IndexMap::new(alloc),
            restarts: IndexMap::new(alloc),
        }
    }

    /// Becomes a member of the membership `e`. The outcomes that were kept in another one go.
    pub fn enter(&mut self, e: Epoch)
        ensures value { self.new ≡ record self.old { epoch = e; outcomes = [] } }
    {
        self.epoch = e;
        self.outcomes.clear();
    }

    /// Carries out an order at the second `now`, once. `outcome` is how its method ends, where one is
    /// called: `due` says which call that is. Where a method that brings down fails under HARD the mark
    /// is set too; the panic is the caller's.
    pub fn carry_out(
        &mut self,
        o: &Order,
        c: &Config,
        outcome: Outcome,
        now: u64,
    ) -> Result<Carried, NoMemory>
        ensures answer { IfOk result (λ carried. carried ≡ answer_to self.old o.now outcome) }
        ensures after { IfOk result (λ carried. self.new ≡ after_order self.old c.now o.now now carried) }
        ensures err { OnErr result (self.new ≡ self.old) }
        ensures wanted { OnErr result (IsNew self.old o.now) }
    {
        if o.epoch != self.epoch {
            return Ok(Carried::Old);
        }
        if let Some(outcome) = self.outcomes.get(&o.number) {
            return Ok(Carried::Kept(*outcome));
        }
        // All memory is taken before anything is changed.
        self.outcomes.reserve(1)?;
        make_room(&mut self.resources)?;
        make_room(&mut self.groups)?;
        let text = o.resource.items();
        let Some(method) = o.method else {
            clear(&mut self.resources, text);
            keep_outcome(&mut self.outcomes, o.number, Outcome::Success);
            return Ok(Carried::Cleared);
        };
        end_call(&mut self.resources, c, text, method, outcome);
        end_start(&mut self.groups, c, text, method, outcome, now);
        keep_outcome(&mut self.outcomes, o.number, outcome);
        Ok(Carried::Called(outcome))
    }
}

/// Clears the stop-failed mark of the resource that the text names.
fn clear(resources: &mut IndexMap<Name, Marks>, text: &[u8])
    requires { 0 < spare resources.old }
    ensures { resources.new.entries ≡ resources_cleared (name_in text.now) resources.old.entries }
{
    if let Some(r) = name_of(text) {
        let marks = marks_of(resources, &r);
        put(
            resources,
            r,
            Marks {
                stop_failed: false,
                ..marks
            },
        );
    }
}

/// Sets and clears what the outcome of the method leaves of the resource's flags and marks.
fn end_call(
    resources: &mut IndexMap<Name, Marks>,
    c: &Config,
    text: &[u8],
    method: Method,
    outcome: Outcome,
)
    requires { 0 < spare resources.old }
    ensures { resources.new.entries ≡ resources_after c.now (name_in text.now) method outcome resources.old.entries }
{
    if let Some(r) = name_of(text) {
        let marks = marks_of(resources, &r);
        put(resources, r, marks_after(c, &r, method, outcome, marks));
    }
}

/// Keeps a start failure at the second `now`, where the outcome of the method is one.
fn end_start(
    groups: &mut IndexMap<Name, Past>,
    c: &Config,
    text: &[u8],
    method: Method,
    outcome: Outcome,
    now: u64,
)
    requires { 0 < spare groups.old }
    ensures { groups.new.entries ≡ groups_after c.now (name_in text.now) method outcome now groups.old.entries }
{
    if let Some(r) = name_of(text) {
        if is_start_failure(c, &r, method, outcome) {
            add_failure(groups, charged(c, &r), now);
        }
    }
}

/// Keeps a start failure of the group at the second `now`.
fn add_failure(groups: &mut IndexMap<Name, Past>, group: Option<Name>, now: u64)
    requires { 0 < spare groups.old }
    ensures { groups.new.entries ≡ with_failure groups.old.entries now group }
{
    if let Some(g) = group {
        let past = past_of(groups, &g);
        put(groups, g, past.with_failure(now));
    }
}
