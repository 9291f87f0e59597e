ghost use Rattle.std.specs.Prelude.{◌≡◌, ◌==◌, ◌&&◌, ◌<◌, IfOk, Some, None, find, is_none};
ghost use Rattle.std.specs.List.{filter_map, list_any};
ghost use Rattle.std.specs.Option.{option_copied};
ghost use Rattle.cl_base.specs.Keys.{key_of};
ghost use Rattle.cl_base.specs.Sets.{has};
ghost use Rattle.cmm_attempt.specs.Seizings.{may_seize, may_follow, vote_entry, first_seizer, plain_new, is_seized, is_asked, awaits, awaits_from, all_settled, with_result, with_next, next_by, is_held_by, held_set, request, request_body, request_for, again_for, reading_of, reading_in};

use crate::attached::AttachedDevice;
use crate::plan::Plan;
use crate::promised::{Promised, is_valid};
use crate::step::Step;
use cl_base::{DevId, DevSet, NodeId, NodeSet};
use pgr_device::KeyList;
use seize::{SeizeKind, SeizeResult};
use std::alloc::{AllocError, Global};
use wire::{Body, Keys, Message, Reading};

/// The seizing of a device in an attempt.
#[derive(Clone, Copy)]
pub struct Seizing {
    /// The device and the nodes with a path to it.
    pub attached: AttachedDevice,
    /// For what it is seized.
    pub kind: SeizeKind,
    /// The member that was asked last; none where no member may seize it.
    pub seizer: Option<NodeId>,
    /// The members that were asked.
    pub asked: NodeSet,
    /// How it ended; none while an answer is awaited.
    pub result: Option<SeizeResult>,
}

/// The key of the node in this cluster.
fn key_in(cluster: u32, n: NodeId) -> u64
    ensures { result ≡ key_of cluster n }
{
    cluster as u64 * 0x1_0000_0000 + n.number()
}

/// Whether the member may seize the device for its votes.
fn is_fit(promises: &[Promised], a: &AttachedDevice, n: NodeId) -> bool
    ensures { result ≡ may_seize promises.now a.now n }
{
    a.nodes.has(n) && is_valid(promises, a.device, n)
}

/// Whether the key of the node is among these.
fn is_among(keys: &KeyList, cluster: u32, n: NodeId) -> bool
    ensures { result ≡ list_any (λ key. key == key_of cluster n) keys.now }
{
    let wanted = key_in(cluster, n);
    keys.keys().iter().any(|key| *key == wanted)
}

/// The least member that may seize the device for its votes.
fn first_fit(plan: &Plan, promises: &[Promised], a: &AttachedDevice) -> Option<NodeId>
    ensures { result ≡ first_seizer plan.now promises.now a.now }
{
    let nodes = plan.nodes.items();
    nodes.iter().copied().find(|n| is_fit(promises, a, *n))
}

/// The least member that has a path to the device.
fn first_attached(plan: &Plan, a: &AttachedDevice) -> Option<NodeId>
    ensures { result ≡ find (λ n. has a.now.nodes n) plan.now.nodes }
{
    let nodes = plan.nodes.items();
    nodes.iter().copied().find(|n| a.nodes.has(*n))
}

/// Whether the device is among these.
fn is_listed(devices: &[Seizing], d: DevId) -> bool
    ensures { result ≡ is_seized devices.now d }
{
    devices.iter().any(|e| e.attached.device == d)
}

/// The seizing of this device.
pub fn entry_of(devices: &[Seizing], d: DevId) -> Option<&Seizing>
    ensures { option_copied result ≡ find (λ e. e.attached.device == d) devices.now }
{
    devices.iter().find(|e| e.attached.device == d)
}

/// The least member that may be asked after another was not registered.
fn next_fit(plan: &Plan, promises: &[Promised], e: &Seizing, keys: &KeyList) -> Option<NodeId>
    ensures { result ≡ find (may_follow plan.now.cluster promises.now e.now keys.now) plan.now.nodes }
{
    let nodes = plan.nodes.items();
    nodes
        .iter()
        .copied()
        .find(|n| e.is_next(plan.cluster, promises, keys, *n))
}

impl Seizing {
    /// The seizing of a quorum device, with the member to be asked first.
    pub fn vote(plan: &Plan, promises: &[Promised], a: &AttachedDevice) -> Seizing
        ensures { result ≡ vote_entry a.now (first_seizer plan.now promises.now a.now) }
    {
        match first_fit(plan, promises, a) {
            Some(n) => Seizing {
                attached: *a,
                kind: SeizeKind::Vote,
                seizer: Some(n),
                asked: NodeSet::empty().with(n),
                result: None,
            },
            None => Seizing {
                attached: *a,
                kind: SeizeKind::Vote,
                seizer: None,
                asked: NodeSet::empty(),
                result: Some(SeizeResult::NotRegistered(KeyList::new(&[]))),
            },
        }
    }

    /// The seizing of a device that is not among these, where a member has a path to it.
    pub fn plain(plan: &Plan, devices: &[Seizing], a: &AttachedDevice) -> Option<Seizing>
        ensures { result ≡ plain_new plan.now devices.now a.now }
    {
        if is_listed(devices, a.device) {
            return None;
        }
        match first_attached(plan, a) {
            Some(n) => Some(Seizing {
                attached: *a,
                kind: SeizeKind::Plain,
                seizer: Some(n),
                asked: NodeSet::empty().with(n),
                result: None,
            }),
            None => None,
        }
    }

    /// Whether this node was asked.
    fn is_asked(&self, n: NodeId) -> bool
        ensures { result ≡ is_asked self.now.seizer n }
    {
        match self.seizer {
            Some(m) => m == n,
            None => false,
        }
    }

    /// Whether the answer of this node on this device is awaited.
    pub fn awaits(&self, d: DevId, n: NodeId) -> bool
        ensures { result ≡ awaits d n self.now }
    {
        self.attached.device == d && self.result.is_none() && self.is_asked(n)
    }

    /// Whether an answer of this node is awaited.
    pub fn awaits_from(&self, n: NodeId) -> bool
        ensures { result ≡ awaits_from n self.now }
    {
        self.result.is_none() && self.is_asked(n)
    }

    /// Whether the device is held.
    fn is_held(&self) -> bool
        ensures { result ≡ is_held_by self.now.result }
    {
        matches!(self.result, Some(SeizeResult::Held(_)))
    }

    /// The same, ended so where it is of this device and has not ended.
    pub fn ended(&self, d: DevId, r: SeizeResult) -> Seizing
        ensures { result ≡ with_result d r self.now }
    {
        if self.attached.device != d || self.result.is_some() {
            return *self;
        }
        Seizing {
            result: Some(r),
            ..*self
        }
    }

    /// The same, with this member asked next where it is of this device and has not ended.
    pub fn asking(&self, d: DevId, n: NodeId) -> Seizing
        ensures { result ≡ with_next d n self.now }
    {
        if self.attached.device != d || self.result.is_some() {
            return *self;
        }
        Seizing {
            seizer: Some(n),
            asked: self.asked.with(n),
            ..*self
        }
    }

    /// Whether the member may be asked after another was not registered.
    fn is_next(&self, cluster: u32, promises: &[Promised], keys: &KeyList, n: NodeId) -> bool
        ensures { result ≡ may_follow cluster promises.now self.now keys.now n }
    {
        self.attached.nodes.has(n)
            && is_valid(promises, self.attached.device, n)
            && !self.asked.has(n)
            && is_among(keys, cluster, n)
    }

    /// The member to be asked after this result, if there is one.
    pub fn next_after(&self, plan: &Plan, promises: &[Promised], r: &SeizeResult) -> Option<NodeId>
        ensures { result ≡ next_by plan.now.cluster promises.now plan.now.nodes self.now self.now.kind r.now }
    {
        match (self.kind, r) {
            (SeizeKind::Vote, SeizeResult::NotRegistered(keys)) => {
                next_fit(plan, promises, self, keys)
            }
            _ => None,
        }
    }

    /// What is to be asked where it has not ended.
    pub fn request(&self, plan: &Plan) -> Option<Step>
        ensures { result ≡ request_for plan.now self.now }
    {
        match (self.result, self.seizer) {
            (None, Some(n)) => Some(request(plan, self.kind, self.attached.device, n)),
            _ => None,
        }
    }

    /// The same, where another node than the coordinator was asked.
    pub fn request_again(&self, plan: &Plan) -> Option<Step>
        ensures { result ≡ again_for plan.now self.now }
    {
        match (self.result, self.seizer) {
            (None, Some(n)) if n != plan.coordinator => {
                Some(request(plan, self.kind, self.attached.device, n))
            }
            _ => None,
        }
    }
}

/// The node is asked to seize the device.
pub fn request(plan: &Plan, kind: SeizeKind, dev: DevId, n: NodeId) -> Step
    ensures { result ≡ request plan.now kind dev n }
{
    if n == plan.coordinator {
        return Step::SeizeHere { dev, kind };
    }
    Step::Send {
        to: n,
        message: Message {
            sender: plan.coordinator,
            body: asked_body(plan, kind, dev),
        },
    }
}

fn asked_body(plan: &Plan, kind: SeizeKind, device: DevId) -> Body
    ensures { result ≡ request_body plan.now kind device }
{
    let (epoch, members) = (plan.epoch, plan.members);
    match kind {
        SeizeKind::Vote => Body::SeizeQuorum {
            epoch,
            members,
            device,
        },
        SeizeKind::Plain => Body::SeizeData {
            epoch,
            members,
            device,
        },
    }
}

/// Whether each seizing has ended.
pub fn are_settled(devices: &[Seizing]) -> bool
    ensures { result ≡ all_settled devices.now }
{
    devices.iter().all(|e| e.result.is_some())
}

/// The devices that are held.
pub fn held_of(devices: &[Seizing]) -> DevSet
    ensures { result ≡ held_set devices.now }
{
    let none = DevSet::empty();
    devices.iter().fold(none, |set, e| {
        if e.is_held() {
            set.with(e.attached.device)
        } else {
            set
        }
    })
}

/// What was read in this seizing, where the device is held.
fn read_in(alloc: Global, e: &Seizing) -> Result<Option<Reading>, AllocError>
    ensures { IfOk result (λ reading. reading ≡ reading_in (Some e.now)) }
{
    match (e.seizer, &e.result) {
        (Some(seizer), Some(SeizeResult::Held(keys))) => {
            let keys = Keys::new(keys.keys().to_vec(alloc)?);
            Ok(Some(Reading {
                device: e.attached.device,
                seizer,
                keys,
            }))
        }
        _ => Ok(None),
    }
}

/// What was read on the device, where it is held.
fn reading(
    alloc: Global,
    devices: &[Seizing],
    a: &AttachedDevice,
) -> Result<Option<Reading>, AllocError>
    ensures { IfOk result (λ reading. reading ≡ reading_of devices.now a.now) }
{
    match entry_of(devices, a.device) {
        Some(e) => read_in(alloc, e),
        None => Ok(None),
    }
}

/// What was read on the devices that are held, in their order.
pub fn readings_of(
    alloc: Global,
    devices: &[Seizing],
    attached: &[AttachedDevice],
) -> Result<Vec<Reading>, AllocError>
    ensures { IfOk result (λ readings. readings.items ≡ filter_map (reading_of devices.now) attached.now) }
{
    let mut readings = Vec::new(alloc);
    for a in attached {
        if let Some(found) = reading(alloc, devices, a)? {
            readings.push(found)?;
        }
    }
    Ok(readings)
}
