ghost use Rattle.std.specs.Prelude.{◌≡◌, ◌<◌, ◌-◌, ◌^◌, None, IfOk, OnOk};
ghost use Rattle.rg_view.specs.Orders.{order_of};
ghost use Rattle.rgm_state.specs.Outcomes.{is_due};
ghost use Rattle.rgm_president.specs.Acts.{HasRoom, order_asked, president_of, with_ask, with_done, with_update};
ghost use Rattle.rgm_president.specs.State.{next_order, with_order};

use ccr_tables::{Config, Update};
use cl_base::{Ask, Bytes, Epoch, Method, Name, NodeId, NodeSet, Outcome};
use config_cache::Basis;
use rg_view::{GroupView, Outstanding};
use rgm_state::{NoMemory, adopt, end_order, take_up, update};
use std::alloc::Global;
use std::marker::Model;
use wire::{Order, Report};

/// The president of a membership. Contracts see it as a `PresidentState`: what is remembered of
/// decisions that changed nothing changes no answer.
pub struct President {
    pub(crate) epoch: Epoch,
    /// How many orders it has given.
    pub(crate) given: u64,
    pub(crate) view: GroupView,
    /// The updates under which a decision changed nothing, when this was found last.
    pub(crate) basis: Option<Basis>,
    /// Whether under these updates a decision still would change nothing.
    pub(crate) steady: bool,
}

impl Drop for President {
    fn drop(self) {
        let President {
            epoch: _,
            given: _,
            view: _,
            basis: _,
            steady: _,
        } = self;
    }
}

impl Model for President {
    ghost use Rattle.rgm_president.specs.State.{PresidentState};

    ghost Value = { PresidentState };

    ghost use Rattle.rgm_president.specs.Steady.{StandsBy};

    ghost view = { λ p. record { epoch = p.epoch; given = p.given; view = p.view } };

    ghost invariant = { λ p. StandsBy p.steady p.basis (record { epoch = p.epoch; given = p.given; view = p.view }) };
}

impl President {
    /// The president as a membership starts, by one report of each member.
    pub fn adopt(
        alloc: Global,
        e: Epoch,
        members: NodeSet,
        reports: &[(NodeId, Report)],
        c: &Config,
        now: u64,
    ) -> Result<President, NoMemory>
        ensures value { IfOk result (λ p. p ≡ president_of c.now e members reports.now now) }
    {
        Ok(President {
            epoch: e,
            given: 0,
            view: adopt(alloc, members, reports, c, now)?,
            basis: None,
            steady: false,
        })
    }

    /// What is known of groups. The second is that of the last decision.
    pub fn view(&self) -> &GroupView
        ensures value { result.now ≡ self.now.view }
    {
        &self.view
    }

    /// The epoch of its membership.
    pub fn epoch(&self) -> Epoch
        ensures value { result ≡ self.now.epoch }
    {
        self.epoch
    }

    /// How many orders it has given.
    pub fn given(&self) -> u64
        ensures value { result ≡ self.now.given }
    {
        self.given
    }

    /// Takes up an update that was committed, `c` being the configuration with it.
    pub fn changed(&mut self, alloc: Global, u: &Update, c: &Config) -> Result<(), NoMemory>
        ensures value { OnOk result (self.new ≡ with_update c.now u.now self.old) }
    {
        self.steady = false;
        update(alloc, &mut self.view, u, c)
    }

    /// The node tells at the second `now` that the order of this number ended so. It is taken where
    /// that order is outstanding there; else nothing changes.
    pub fn done(
        &mut self,
        alloc: Global,
        from: NodeId,
        number: u64,
        outcome: Outcome,
        c: &Config,
        now: u64,
    ) -> Result<bool, NoMemory>
        ensures answer { IfOk result (λ taken. taken ≡ is_due self.old.view from number) }
        ensures after { OnOk result (self.new ≡ with_done c.now from number outcome now self.old) }
    {
        let Some(order) = self.order_at(from) else {
            return Ok(false);
        };
        if order.number != number {
            return Ok(false);
        }
        self.steady = false;
        end_order(alloc, &mut self.view, order, outcome, c, now)?;
        Ok(true)
    }

    /// The node's outstanding order.
    fn order_at(&self, n: NodeId) -> Option<Outstanding>
        ensures { result ≡ order_of self.now.view.outstanding n }
    {
        self.view.outstanding.at(n).copied()
    }

    /// Takes up what the node asks for, at the second `now`. To clear a resource's mark is an order to
    /// its node, which then has none; it is handed back.
    pub fn ask(
        &mut self,
        alloc: Global,
        from: NodeId,
        what: Ask,
        c: &Config,
        now: u64,
    ) -> Result<Option<Order>, NoMemory>
        requires room { HasRoom self.old what }
        requires number { self.old.given < 2 ^ 63 }
        ensures order { IfOk result (λ order. order ≡ order_asked self.old what) }
        ensures after { OnOk result (self.new ≡ with_ask c.now from what now self.old) }
    {
        match what {
            Ask::Clear { resource, node } => {
                let order = self.order(alloc, node, resource, None)?;
                Ok(Some(order))
            }
            Ask::Restart(_) | Ask::Move(_) | Ask::Remaster(_) | Ask::Evacuate(_) => {
                self.steady = false;
                take_up(alloc, &mut self.view, from, what, c, now)?;
                Ok(None)
            }
        }
    }

    /// Gives the node, which has none, the next order.
    pub(crate) fn order(
        &mut self,
        alloc: Global,
        node: NodeId,
        resource: Name,
        method: Option<Method>,
    ) -> Result<Order, NoMemory>
        requires room { order_of self.old.view.outstanding node ≡ None }
        requires number { self.old.given < 2 ^ 64 - 1 }
        ensures order { IfOk result (λ order. order ≡ next_order self.old resource method) }
        ensures after { OnOk result (self.new ≡ with_order self.old node resource method) }
    {
        self.steady = false;
        let number = self.given + 1;
        let text = Bytes::new(Vec::from_slice(alloc, resource.bytes())?);
        self.view.outstanding.put(Outstanding {
            node,
            number,
            resource,
            method,
        })?;
        self.given = number;
        Ok(Order {
            epoch: self.epoch,
            number,
            method,
            resource: text,
        })
    }
}
