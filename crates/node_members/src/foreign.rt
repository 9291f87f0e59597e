// Packets that no node of the cluster sends.
ghost use Rattle.std.specs.Prelude.{◌≡◌, IfOk, IfErr, is_some};
ghost use Rattle.std.specs.List.{list_all};
ghost use Rattle.node_model.specs.declared.stop.Stop.TheVariants.{NoMemory};
ghost use Rattle.node_model.specs.Members.{has_many_keys, is_foreign, is_foreign_install, is_foreign_seizing, is_known_reading};
ghost use Rattle.node_members.specs.Strangers.{names_strangers};
ghost use Rattle.rg_props.specs.Words.{name_in};

use cl_base::{DevId, Name, NodeId, NodeSet};
use node_model::{Cluster, Stop, UpNode};
use node_updates::{is_bad_answer, is_bad_log, is_bad_request, is_bad_update};
use std::alloc::Global;
use wire::{Body, Install, Reading, SeizedResult};

/// As many keys as a device has at most: one of each node.
const MOST_KEYS: usize = 32;

/// Whether the message is foreign to the node: it names a node or a device that is not there, asks it to
/// seize for members that it is none of, tells more keys than a device has, or has a text that is no
/// update, no request, no answer or no name of a resource, or a list of updates that makes no
/// configuration. Nothing is changed.
pub fn is_foreign(
    alloc: Global,
    cluster: &Cluster,
    me: NodeId,
    up: &mut UpNode,
    body: &Body,
) -> Result<bool, Stop>
    ensures value { IfOk result (λ foreign. foreign ≡ is_foreign cluster.now me up.old body.now) }
    ensures only { IfErr result (λ e. e ≡ NoMemory) }
    ensures same { up.new ≡ up.old }
{
    match body {
        Body::Promise {
            members,
            valid,
            committed,
            pending,
            ..
        } => {
            if !cluster.has_nodes(*members) || !cluster.has_devices(*valid) {
                return Ok(true);
            }
            is_bad_log(alloc, cluster, committed.items(), pending.as_ref())
        }
        Body::Install(i) => is_foreign_install(alloc, cluster, me, i),
        Body::Prepare { epoch, place, text } => {
            is_bad_update(alloc, cluster, up, *epoch, *place, text)
        }
        Body::Request { text, .. } => is_bad_request(alloc, cluster, text.items()),
        Body::Answer { text, .. } => is_bad_answer(alloc, text.items()),
        Body::Order(order) => Ok(!is_name(order.resource.items())),
        _ => Ok(names_strangers(cluster, me, body)),
    }
}

fn is_name(text: &[u8]) -> bool
    ensures { result ≡ is_some (name_in text.now) }
{
    Name::new(text).is_ok()
}

/// The same of messages without texts.
fn names_strangers(cluster: &Cluster, me: NodeId, body: &Body) -> bool
    ensures { result ≡ names_strangers cluster.now me body.now }
{
    match body {
        Body::Collect { members, .. } => !cluster.has_nodes(*members),
        Body::SeizeQuorum {
            members,
            device,
            ..
        }
        | Body::SeizeData {
            members,
            device,
            ..
        } => is_foreign_seizing(cluster, me, *members, *device),
        Body::Seized {
            device,
            outcome,
            ..
        } => !cluster.devices.has(*device) || has_many_keys(outcome),
        Body::Ready { joined, .. } => !cluster.has_devices(*joined),
        _ => false,
    }
}

fn is_foreign_seizing(cluster: &Cluster, me: NodeId, members: NodeSet, device: DevId) -> bool
    ensures { result ≡ is_foreign_seizing cluster.now me members device }
{
    !members.has(me) || !cluster.has_nodes(members) || !cluster.devices.has(device)
}

#[tactic(auto, using(crate::proofs::Readings::with_strange_reading, crate::proofs::Readings::with_known_readings))]
fn is_foreign_install(
    alloc: Global,
    cluster: &Cluster,
    me: NodeId,
    i: &Install,
) -> Result<bool, Stop>
    ensures value { IfOk result (λ foreign. foreign ≡ is_foreign_install cluster.now me i.now) }
    ensures only { IfErr result (λ e. e ≡ NoMemory) }
{
    if !i.members.has(me) || !cluster.has_nodes(i.members) {
        return Ok(true);
    }
    if !knows_readings(cluster, i.readings.items()) {
        return Ok(true);
    }
    is_bad_log(alloc, cluster, i.committed.items(), i.pending.as_ref())
}

fn knows_readings(cluster: &Cluster, readings: &[Reading]) -> bool
    ensures { result ≡ list_all (is_known_reading cluster.now) readings.now }
{
    readings.iter().all(|r| is_known_reading(cluster, r))
}

fn is_known_reading(cluster: &Cluster, r: &Reading) -> bool
    ensures { result ≡ is_known_reading cluster.now r.now }
{
    cluster.devices.has(r.device) && cluster.nodes.has(r.seizer)
}

fn has_many_keys(outcome: &SeizedResult) -> bool
    ensures { result ≡ has_many_keys outcome.now }
{
    match outcome {
        SeizedResult::Held(keys) | SeizedResult::NotRegistered(keys) => {
            keys.items().len() > MOST_KEYS
        }
        _ => false,
    }
}
