// A president that decided nothing need not decide again.
ghost use Rattle.std.specs.Prelude.{◌≡◌, ◌↔◌, ◌<◌, ◌≤◌, ◌^◌, IfOk, IsTrue, OnOk, Some, length, true};
ghost use Rattle.cl_base.specs.Limits.{most_devices};
ghost use Rattle.config_cache.specs.InForce.{config_under};
ghost use Rattle.config_cache.specs.Lists.{these};
ghost use Rattle.rgm_president.specs.Decisions.{decision};
ghost use Rattle.rgm_president.specs.Steady.{IsSteady, at_second};

use crate::president::President;
use ccr_commit::Entries;
use ccr_tables::Config;
use cl_base::{Bytes, Header, NodeId};
use config_cache::{Basis, ConfigCache};
use rgm_state::NoMemory;
use std::alloc::Global;
use wire::Order;

impl President {
    /// Decides at the second `now`, as `decide` does, under the configuration in force of these
    /// entries. Where neither they nor what is known of groups changed since a decision of which nothing
    /// came, nothing comes of this one, and it costs next to nothing.
    pub fn decide_in_force(
        &mut self,
        alloc: Global,
        made: &mut ConfigCache,
        header: &Header,
        entries: &Entries,
        now: u64,
        held_up: bool,
    ) -> Result<Vec<(NodeId, Order)>, NoMemory>
        requires number { self.old.given < 2 ^ 63 }
        requires devices { length header.now.devices ≤ most_devices }
        ensures orders { IfOk result (λ orders. orders.items ≡ (decision (config_under header.now entries.now.committed) now held_up self.old).orders) }
        ensures after { OnOk result (self.new ≡ (decision (config_under header.now entries.now.committed) now held_up self.old).president) }
    {
        if self.is_steady_under(header, entries.committed()) {
            self.pass(now);
            return Ok(Vec::new(alloc));
        }
        match made.committed(alloc, header, entries) {
            Ok(c) => self.decide_under(alloc, c, header, entries.committed(), now, held_up),
            Err(_) => Err(NoMemory),
        }
    }

    /// Whether it is known that a decision under these updates would change nothing.
    fn is_steady_under(&self, header: &Header, committed: &[Bytes]) -> bool
        ensures { result ≡ true → IsSteady (config_under header.now committed.now) self.now }
    {
        self.steady && is_known(&self.basis, header, committed)
    }

    /// Nothing changes but the second.
    fn pass(&mut self, now: u64)
        ensures { self.new ≡ at_second now self.old }
    {
        self.view.now = now;
    }

    /// Decides, and remembers it where from now on a decision would change nothing. This is the
    /// configuration in force of these updates.
    fn decide_under(
        &mut self,
        alloc: Global,
        c: &Config,
        header: &Header,
        committed: &[Bytes],
        now: u64,
        held_up: bool,
    ) -> Result<Vec<(NodeId, Order)>, NoMemory>
        requires number { self.old.given < 2 ^ 63 }
        requires under { c.now ≡ config_under header.now committed.now }
        ensures orders { IfOk result (λ orders. orders.items ≡ (decision c.now now held_up self.old).orders) }
        ensures after { OnOk result (self.new ≡ (decision c.now now held_up self.old).president) }
    {
        let (orders, settled) = self.decide_anew(alloc, c, now, held_up)?;
        if settled {
            self.remember(alloc, header, committed)?;
        }
        Ok(orders)
    }

    /// Remembers that under these updates a decision would change nothing.
    fn remember(
        &mut self,
        alloc: Global,
        header: &Header,
        committed: &[Bytes],
    ) -> Result<(), NoMemory>
        requires steady { IsSteady (config_under header.now committed.now) self.old }
        ensures same { self.new ≡ self.old }
    {
        self.steady = false;
        know(alloc, &mut self.basis, header, committed)?;
        self.steady = true;
        Ok(())
    }
}

/// Whether these are the updates that are kept.
fn is_known(basis: &Option<Basis>, header: &Header, committed: &[Bytes]) -> bool
    ensures { IsTrue result ↔ (basis.now ≡ Some (these header.now committed.now)) }
{
    match basis {
        Some(basis) => basis.is_of(header, committed),
        None => false,
    }
}

/// Keeps these updates, unless they are kept.
fn know(
    alloc: Global,
    basis: &mut Option<Basis>,
    header: &Header,
    committed: &[Bytes],
) -> Result<(), NoMemory>
    ensures { OnOk result (basis.new ≡ Some (these header.now committed.now)) }
{
    if is_known(basis, header, committed) {
        return Ok(());
    }
    match Basis::new(alloc, header, committed) {
        Ok(made) => {
            *basis = Some(made);
            Ok(())
        }
        Err(_) => Err(NoMemory),
    }
}
