ghost use Rattle.std.specs.Prelude.{◌≡◌, IfOk};
ghost use Rattle.std.specs.List.{filter_map};
ghost use Rattle.std.specs.Option.{option_copied};
ghost use Rattle.cmm_attempt.specs.Seizings.{plain_new};
ghost use Rattle.cmm_attempt.specs.Counts.{is_foreign, is_enabled, is_quorum, is_short, first_short, reached_set, vote_new, lack_of, lack_under, votes_end};

use crate::attached::AttachedDevice;
use crate::plan::Plan;
use crate::promised::Promised;
use crate::seizing::{Seizing, entry_of};
use crate::step::AttemptEnd;
use cl_base::{DevId, DevSet, Lack, Lacking, NodeId, NodeSet, Obstacle};
use quorum_votes::{DevState, Votes};
use seize::SeizeResult;
use std::alloc::{AllocError, Global};

/// The votes under the committed updates of the newest record, and those with its pending one.
#[derive(Drop)]
pub struct BothVotes {
    /// The votes under the committed updates.
    pub committed: Votes,
    /// The votes with the pending update, if there is one.
    pub pending: Option<Votes>,
}

/// Whether the device is an enabled quorum device under these votes.
fn counts(v: &Votes, d: DevId) -> bool
    ensures { result ≡ is_enabled v.now d }
{
    match v.device_state(d) {
        DevState::Enabled => true,
        DevState::Disabled | DevState::Absent => false,
    }
}

/// Whether the members and these devices have too few votes.
fn lacks_votes(v: &Votes, members: NodeSet, devices: DevSet) -> bool
    ensures { result ≡ is_short v.now members devices }
{
    v.held(members, devices) < v.needed()
}

impl BothVotes {
    /// Whether the node is configured neither under the committed updates nor with the pending one.
    pub fn is_foreign(&self, n: NodeId) -> bool
        ensures { result ≡ is_foreign self.now n }
    {
        !self.committed.configured(n)
            && match &self.pending {
                Some(v) => !v.configured(n),
                None => true,
            }
    }

    /// Whether the device is an enabled quorum device under either votes.
    pub fn counts(&self, d: DevId) -> bool
        ensures { result ≡ is_quorum self.now d }
    {
        counts(&self.committed, d)
            || match &self.pending {
                Some(v) => counts(v, d),
                None => false,
            }
    }

    /// The first votes under which the members and these devices are too few, the committed before
    /// the pending.
    pub fn first_short(&self, members: NodeSet, devices: DevSet) -> Option<&Votes>
        ensures { option_copied result ≡ first_short self.now members devices }
    {
        if lacks_votes(&self.committed, members, devices) {
            return Some(&self.committed);
        }
        match &self.pending {
            Some(v) if lacks_votes(v, members, devices) => Some(v),
            _ => None,
        }
    }
}

/// The devices to which a member has a path.
pub fn reached_of(plan: &Plan) -> DevSet
    ensures { result ≡ reached_set plan.now }
{
    let none = DevSet::empty();
    plan.attached.items().iter().fold(none, |set, a| {
        if plan.reaches(a) {
            set.with(a.device)
        } else {
            set
        }
    })
}

fn vote_seizing(
    plan: &Plan,
    promises: &[Promised],
    both: &BothVotes,
    a: &AttachedDevice,
) -> Option<Seizing>
    ensures { result ≡ vote_new plan.now promises.now both.now a.now }
{
    if both.counts(a.device) && plan.reaches(a) {
        Some(Seizing::vote(plan, promises, a))
    } else {
        None
    }
}

/// The seizings of the quorum devices that a member reaches, each with the member asked first.
pub fn vote_seizings(
    alloc: Global,
    plan: &Plan,
    promises: &[Promised],
    both: &BothVotes,
) -> Result<Vec<Seizing>, AllocError>
    ensures { IfOk result (λ devices. devices.items ≡ filter_map (vote_new plan.now promises.now both.now) plan.now.attached) }
{
    let attached = plan.attached.items();
    attached
        .iter()
        .filter_map(|a| vote_seizing(plan, promises, both, a))
        .collect(alloc)
}

/// The seizings of the other devices that a member reaches.
pub fn plain_seizings(
    alloc: Global,
    plan: &Plan,
    devices: &[Seizing],
) -> Result<Vec<Seizing>, AllocError>
    ensures { IfOk result (λ more. more.items ≡ filter_map (plain_new plan.now devices.now) plan.now.attached) }
{
    let attached = plan.attached.items();
    attached
        .iter()
        .filter_map(|a| Seizing::plain(plan, devices, a))
        .collect(alloc)
}

/// Why the device is not held, as far as is known.
fn lack(plan: &Plan, devices: &[Seizing], a: &AttachedDevice) -> Option<Lack>
    ensures { result ≡ lack_of plan.now devices.now a.now }
{
    let device = a.device;
    if !plan.reaches(a) {
        let obstacle = Obstacle::NoPath;
        return Some(Lack { device, obstacle });
    }
    match entry_of(devices, device) {
        Some(e) => match e.result {
            None | Some(SeizeResult::Held(_)) => None,
            Some(r) => {
                let obstacle = Obstacle::Seizing(r.bare());
                Some(Lack { device, obstacle })
            }
        },
        None => None,
    }
}

fn counted_lack(v: &Votes, plan: &Plan, devices: &[Seizing], a: &AttachedDevice) -> Option<Lack>
    ensures { result ≡ lack_under v.now plan.now devices.now a.now }
{
    if counts(v, a.device) {
        lack(plan, devices, a)
    } else {
        None
    }
}

fn lacks_under(
    alloc: Global,
    v: &Votes,
    plan: &Plan,
    devices: &[Seizing],
) -> Result<Vec<Lack>, AllocError>
    ensures { IfOk result (λ lacks. lacks.items ≡ filter_map (lack_under v.now plan.now devices.now) plan.now.attached) }
{
    let attached = plan.attached.items();
    attached
        .iter()
        .filter_map(|a| counted_lack(v, plan, devices, a))
        .collect(alloc)
}

/// The end for want of these votes.
pub fn votes_ended(
    alloc: Global,
    v: &Votes,
    plan: &Plan,
    devices: &[Seizing],
    set: DevSet,
) -> Result<AttemptEnd, AllocError>
    ensures { IfOk result (λ e. e ≡ votes_end plan.now devices.now set v.now) }
{
    let lacks = lacks_under(alloc, v, plan, devices)?;
    Ok(AttemptEnd::Votes {
        have: v.held(plan.members, set),
        need: v.needed(),
        lacking: Lacking::new(lacks),
    })
}
