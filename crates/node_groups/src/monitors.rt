// Monitors report.
ghost use Rattle.std.specs.Prelude.{◌≡◌, ◌++◌, ◌∷◌, [], IfOk, OnOk, true};
ghost use Rattle.node_model.specs.Groups.{asked_by, on_report, report_told, result_of};
ghost use Rattle.node_model.specs.Plans.{Follows};
ghost use Rattle.node_model.specs.Seats.{is_member};
ghost use Rattle.node_groups.specs.Reporting.{ask_after, asked_so, asks_for, asks_this, goes_on, may_ask, probed_so, reported_so, told_after};

use cl_base::{Ask, Bytes, Name, NodeId};
use node_decisions::own_config;
use node_model::{Cluster, Output, Stop, UpNode, give, hand_over};
use node_updates::{ask_if, is_idle};
use record_disk::RecordDisk;
use request_queue::Request;
use restart_policy::ProbeAction;
use rgm_member::Probed;
use status_report::{CallEntry, Entry, ProbeResult};
use std::alloc::{AllocError, Global};
use update_words::ask_words;

#[tactic(auto, using(crate::proofs::Reports::taken, crate::proofs::Reports::ends_there))]
/// The monitor of the resource reports. What a failure leads to is kept, told, and asked as a request of
/// the node.
pub fn take_report<K: RecordDisk>(
    alloc: Global,
    cluster: &Cluster,
    me: NodeId,
    disk: &mut K,
    mut up: UpNode,
    resource: &Name,
    good: bool,
    out: &mut Vec<Output>,
) -> Result<UpNode, Stop>
    ensures follows { Follows K.saving (on_report cluster.now me up resource.now good) out.old.items disk.old result out.new.items disk.new }
{
    match keep_report(alloc, cluster, me, &mut up, resource, good, out) {
        Ok(probed) => {
            let ask = ask_after(&probed, resource);
            ask_for(alloc, cluster, me, disk, up, ask, out)
        }
        Err(_) => hand_over(up, Err(Stop::NoMemory)),
    }
}

/// What the report comes to, which the node keeps and tells.
fn keep_report(
    alloc: Global,
    cluster: &Cluster,
    me: NodeId,
    up: &mut UpNode,
    resource: &Name,
    good: bool,
    out: &mut Vec<Output>,
) -> Result<Probed, AllocError>
    ensures value { IfOk result (λ p. p ≡ probed_so cluster.now up.old resource.now good) }
    ensures after { IfOk result (λ p. up.new ≡ reported_so up.old cluster.now resource.now p) }
    ensures told { IfOk result (λ p. out.new.items ≡ out.old.items ++ told_after me resource.now p) }
{
    let probed = probe(alloc, cluster, up, resource, good)?;
    tell_after(me, resource, &probed, out)?;
    Ok(probed)
}

#[tactic(auto, unfolding(crate::specs::Reporting::probed_so, crate::specs::Reporting::reported_so))]
/// What the report comes to, which the node keeps.
fn probe(
    alloc: Global,
    cluster: &Cluster,
    up: &mut UpNode,
    resource: &Name,
    good: bool,
) -> Result<Probed, AllocError>
    ensures value { IfOk result (λ p. p ≡ probed_so cluster.now up.old resource.now good) }
    ensures after { IfOk result (λ p. up.new ≡ reported_so up.old cluster.now resource.now p) }
{
    let config = own_config(alloc, cluster, &mut up.made, &up.seat)?;
    match up.worker.probe(alloc, resource, good, config, up.second) {
        Ok(probed) => Ok(probed),
        Err(_) => Err(AllocError),
    }
}

/// What is told of it. Of a resource without a monitor nothing is.
fn tell_after(
    me: NodeId,
    resource: &Name,
    probed: &Probed,
    out: &mut Vec<Output>,
) -> Result<(), AllocError>
    ensures told { OnOk result (out.new.items ≡ out.old.items ++ told_after me resource.now probed.now) }
{
    match probed {
        Probed::NoMonitor => Ok(()),
        Probed::Good => tell_report(me, resource, ProbeResult::Ok, out),
        Probed::Failed(action) => tell_report(me, resource, result_of(*action), out),
    }
}

fn tell_report(
    me: NodeId,
    resource: &Name,
    come_to: ProbeResult,
    out: &mut Vec<Output>,
) -> Result<(), AllocError>
    ensures told { OnOk result (out.new.items ≡ out.old.items ++ report_told me resource.now come_to ∷ []) }
{
    let entry = CallEntry::Probed {
        node: me,
        resource: *resource,
        result: come_to,
    };
    give(out, Output::Tells(Entry::Call(entry)))?;
    Ok(())
}

#[tactic(auto, using(crate::proofs::Reports::asks_nobody, crate::proofs::Reports::asks_it))]
/// What is to be done is asked as a request of the node, which takes a number. A node that is no member,
/// or has no room for it, asks nobody.
fn ask_for<K: RecordDisk>(
    alloc: Global,
    cluster: &Cluster,
    me: NodeId,
    disk: &mut K,
    up: UpNode,
    ask: Option<Ask>,
    out: &mut Vec<Output>,
) -> Result<UpNode, Stop>
    ensures plan { Follows K.saving (asks_for cluster.now me up ask) out.old.items disk.old result out.new.items disk.new }
{
    let Some(ask) = ask else {
        return Ok(up);
    };
    if !may_ask(&up) {
        return Ok(up);
    }
    ask_this(alloc, cluster, me, disk, up, &ask, out)
}

/// Whether the node is a member, and has room for one request more.
fn may_ask(up: &UpNode) -> bool
    ensures value { result ≡ may_ask up.now }
{
    up.seat.is_member() && !up.requests.is_full()
}

#[tactic(auto, using(crate::proofs::Reports::ends_there))]
/// It waits behind the others.
fn ask_this<K: RecordDisk>(
    alloc: Global,
    cluster: &Cluster,
    me: NodeId,
    disk: &mut K,
    mut up: UpNode,
    ask: &Ask,
    out: &mut Vec<Output>,
) -> Result<UpNode, Stop>
    requires may { may_ask up ≡ true }
    ensures plan { Follows K.saving (asks_this cluster.now me up ask.now) out.old.items disk.old result out.new.items disk.new }
{
    let alone = is_idle(&up.requests);
    add(alloc, &mut up, ask)?;
    go_on(alone, alloc, cluster, me, disk, up, out)
}

#[tactic(auto, unfolding(crate::specs::Reporting::asked_so))]
/// The request that asks it is the node's newest.
fn add(alloc: Global, up: &mut UpNode, ask: &Ask) -> Result<(), AllocError>
    requires may { may_ask up.old ≡ true }
    ensures after { OnOk result (up.new ≡ asked_so up.old ask.now) }
    ensures member { is_member up.new.seat ≡ true }
{
    let text = Bytes::new(ask_words(alloc, ask)?);
    let number = up.requests.take_number();
    up.requests.push(Request {
        number,
        text,
        told: false,
        second: up.second,
    })
}

#[tactic(auto, unfolding(crate::specs::Reporting::goes_on))]
/// A request that waits alone goes at once.
fn go_on<K: RecordDisk>(
    alone: bool,
    alloc: Global,
    cluster: &Cluster,
    me: NodeId,
    disk: &mut K,
    up: UpNode,
    out: &mut Vec<Output>,
) -> Result<UpNode, Stop>
    requires member { is_member up.seat ≡ true }
    ensures plan { Follows K.saving (goes_on alone cluster.now me up) out.old.items disk.old result out.new.items disk.new }
{
    ask_if(alone, alloc, cluster, me, disk, up, out)
}

/// What is told of it.
fn result_of(action: ProbeAction) -> ProbeResult
    ensures value { result ≡ result_of action }
{
    match action {
        ProbeAction::Restart => ProbeResult::Restart,
        ProbeAction::Move => ProbeResult::Move,
        ProbeAction::Logged => ProbeResult::Logged,
    }
}

/// What is asked of the president after it.
fn ask_after(probed: &Probed, resource: &Name) -> Option<Ask>
    ensures value { result ≡ ask_after probed.now resource.now }
{
    match probed {
        Probed::NoMonitor | Probed::Good => None,
        Probed::Failed(action) => asked_by(*action, resource),
    }
}

/// What is asked after a failure.
fn asked_by(action: ProbeAction, resource: &Name) -> Option<Ask>
    ensures value { result ≡ asked_by action resource.now }
{
    match action {
        ProbeAction::Restart => Some(Ask::Restart(*resource)),
        ProbeAction::Move => Some(Ask::Move(*resource)),
        ProbeAction::Logged => None,
    }
}
