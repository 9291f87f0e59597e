ghost use Rattle.std.specs.Prelude.{◌≡◌, ◌<◌, IfOk, OnOk, OnErr};
ghost use Rattle.std.specs.Option.{option_copied};
ghost use Rattle.indexmap.specs.IndexMap.{spare};
ghost use Rattle.rg_props.specs.Lookups.{named};
ghost use Rattle.rgm_member.specs.declared.probed.Probed.TheVariants.{Failed};
ghost use Rattle.rgm_member.specs.Outcomes.{with_move};
ghost use Rattle.rgm_member.specs.Probes.{action_in, after_probe, failed_probe, one_more_restart, probed, recorded, restarts_alone, restarts_with};
ghost use Rattle.rgm_member.specs.State.{restarts_of, put};

use crate::memory::NoMemory;
use crate::past::Past;
use crate::probed::Probed;
use crate::settings::{charged, is_suspended};
use crate::tables::{make_room, marks_of, past_of, put};
use crate::worker::Worker;
use ccr_tables::Config;
use cl_base::{History, Name, Seconds};
use indexmap::IndexMap;
use restart_policy::{ProbeAction, ProbeRule, on_probe};
use std::alloc::Global;

/// How many restarts of a resource are kept beside a new one.
const MOST_BEFORE: usize = 999;

impl Worker {
    /// A probe of the resource at the second `now`: what it leads to, by the configuration and the
    /// restarts so far. A restart or a move is recorded; of a resource's restarts the last 1,000 are
    /// kept, and of a group's moves the last.
    pub fn probe(
        &mut self,
        alloc: Global,
        r: &Name,
        good: bool,
        c: &Config,
        now: u64,
    ) -> Result<Probed, NoMemory>
        ensures answer { IfOk result (λ p. p ≡ probed self.old c.now r.now good now) }
        ensures after { IfOk result (λ p. self.new ≡ after_probe self.old c.now r.now now p) }
        ensures err { OnErr result (self.new ≡ self.old) }
        ensures wanted { OnErr result (probed self.old c.now r.now good now ≡ Failed (failed_probe self.old c.now r.now now)) }
    {
        if !marks_of(&self.resources, r).mon {
            return Ok(Probed::NoMonitor);
        }
        if good {
            return Ok(Probed::Good);
        }
        let history = restarts_alone(alloc, &self.restarts, r)?;
        let action = action_in(c, r, &history, now);
        match action {
            ProbeAction::Restart => add_restart(alloc, &mut self.restarts, r, &history, now)?,
            ProbeAction::Move => {
                make_room(&mut self.groups)?;
                add_move(&mut self.groups, charged(c, r), now);
            }
            ProbeAction::Logged => {}
        }
        Ok(Probed::Failed(action))
    }
}

/// A history of the resource's restarts and nothing else.
fn restarts_alone(
    alloc: Global,
    restarts: &IndexMap<Name, Seconds>,
    r: &Name,
) -> Result<History, NoMemory>
    ensures { IfOk result (λ h. h ≡ restarts_alone (restarts_of restarts.now.entries r.now)) }
{
    let seconds = restarts_of(alloc, restarts, r)?;
    Ok(History {
        failures: Seconds::new(Vec::new(alloc)),
        moves: Seconds::new(Vec::new(alloc)),
        restarts: Seconds::new(seconds),
    })
}

/// The seconds of the resource's restarts.
fn restarts_of(
    alloc: Global,
    restarts: &IndexMap<Name, Seconds>,
    r: &Name,
) -> Result<Vec<u64>, NoMemory>
    ensures { IfOk result (λ seconds. seconds.items ≡ restarts_of restarts.now.entries r.now) }
{
    match restarts.get(r) {
        Some(seconds) => Ok(Vec::from_slice(alloc, seconds.items())?),
        None => Ok(Vec::new(alloc)),
    }
}

/// What a failed probe leads to.
fn action_in(c: &Config, r: &Name, history: &History, now: u64) -> ProbeAction
    requires { history.now ≡ restarts_alone history.now.restarts }
    ensures { result ≡ action_in c.now (named c.now.groups.resources r.now) history.now.restarts now }
{
    match c.groups().resource(r) {
        Some(resource) => {
            let rule = ProbeRule {
                suspended: is_suspended(c, r),
                mode: resource.mode,
                count: resource.retry_count,
                interval: resource.retry_interval,
            };
            on_probe(rule, history, now)
        }
        None => ProbeAction::Logged,
    }
}

/// Keeps one more restart of the resource. `history` has those so far.
fn add_restart(
    alloc: Global,
    restarts: &mut IndexMap<Name, Seconds>,
    r: &Name,
    history: &History,
    now: u64,
) -> Result<(), NoMemory>
    ensures ok { OnOk result (restarts.new.entries ≡ put restarts.old.entries r.now (one_more_restart history.now.restarts now)) }
    ensures err { OnErr result (restarts.new.entries ≡ restarts.old.entries) }
{
    let kept = one_more_restart(alloc, history.restarts.items(), now)?;
    make_room(restarts)?;
    put(restarts, *r, Seconds::new(kept));
    Ok(())
}

/// The last of the restarts, and one at the second `now`.
fn one_more_restart(alloc: Global, restarts: &[u64], now: u64) -> Result<Vec<u64>, NoMemory>
    ensures { IfOk result (λ kept. kept.items ≡ one_more_restart restarts.now now) }
{
    let first = restarts.len().saturating_sub(MOST_BEFORE);
    let mut kept = Vec::from_slice(alloc, &restarts[first..])?;
    kept.push(now)?;
    Ok(kept)
}

/// Keeps a move of the group at the second `now`.
fn add_move(groups: &mut IndexMap<Name, Past>, group: Option<Name>, now: u64)
    requires { 0 < spare groups.old }
    ensures { groups.new.entries ≡ with_move groups.old.entries now group }
{
    if let Some(g) = group {
        let past = past_of(groups, &g);
        put(groups, g, past.with_move(now));
    }
}
