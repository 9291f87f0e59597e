// An Install, and the Ready that answers it.
ghost use Rattle.node_model.specs.Members.{on_install, readying};
ghost use Rattle.node_model.specs.Plans.{Follows, Gives};
ghost use Rattle.node_members.specs.Installs.{installing_members, settling};
ghost use Rattle.node_model.specs.Left.{left_so};

use cl_base::{Epoch, NodeId};
use node_acts::{begin_joins, install_in, own_report, save_install};
use node_decisions::tidy;
use node_model::{Cluster, Output, Stop, UpNode, hand_over, send};
use record_disk::RecordDisk;
use std::alloc::Global;
use wire::{Body, Install};

/// The node is to install a membership of its session.
#[tactic(auto, using(crate::proofs::Installs::install_fails))]
pub fn take_install<K: RecordDisk>(
    alloc: Global,
    cluster: &Cluster,
    me: NodeId,
    disk: &mut K,
    up: UpNode,
    from: NodeId,
    i: &Install,
    out: &mut Vec<Output>,
) -> Result<UpNode, Stop>
    ensures follows { Follows K.saving (on_install cluster.now me up from i.now) out.old.items disk.old result out.new.items disk.new }
{
    if i.epoch == Epoch::zero() || up.seat.session() != i.epoch {
        let body = Body::Nack {
            epoch: i.epoch,
            promised: up.seat.promised(),
        };
        let sent = send(out, from, body);
        return hand_over(up, sent);
    }
    let up = install_members(alloc, cluster, me, disk, up, i, out)?;
    ready(alloc, cluster, up, from, out)
}

/// The node installs the membership of its session, where it has not done so. Of groups and resources
/// that are deleted it keeps nothing.
fn install_members<K: RecordDisk>(
    alloc: Global,
    cluster: &Cluster,
    me: NodeId,
    disk: &mut K,
    up: UpNode,
    i: &Install,
    out: &mut Vec<Output>,
) -> Result<UpNode, Stop>
    ensures { Follows K.saving (installing_members cluster.now me up i.now up.seat) out.old.items disk.old result out.new.items disk.new }
{
    let (mut up, changed) = install_in(alloc, up, i)?;
    if !changed {
        return Ok(up);
    }
    let settled = settle(alloc, cluster, me, disk, &mut up, i, out);
    hand_over(up, settled)
}

/// The node's record is that of the install: it joins devices, and saves.
fn settle<K: RecordDisk>(
    alloc: Global,
    cluster: &Cluster,
    me: NodeId,
    disk: &mut K,
    up: &mut UpNode,
    i: &Install,
    out: &mut Vec<Output>,
) -> Result<(), Stop>
    ensures { Follows K.saving (settling cluster.now me up.old i.now) out.old.items disk.old (left_so up.new result) out.new.items disk.new }
{
    let joined = up.seat.joined_devices();
    let readings = i.readings.items();
    begin_joins(cluster, me, i.epoch, joined, &mut up.tasks, readings)?;
    tidy(alloc, cluster, up)?;
    save_install(alloc, me, disk, &up.seat, i.epoch, out)
}

/// The node is ready where it has no device left to join. It reports what it keeps of groups and
/// resources.
pub fn ready(
    alloc: Global,
    cluster: &Cluster,
    mut up: UpNode,
    to: NodeId,
    out: &mut Vec<Output>,
) -> Result<UpNode, Stop>
    ensures follows { Gives (readying cluster.now up to) out.old.items result out.new.items }
{
    let sent = send_ready(alloc, cluster, &mut up, to, out);
    hand_over(up, sent)
}

fn send_ready(
    alloc: Global,
    cluster: &Cluster,
    up: &mut UpNode,
    to: NodeId,
    out: &mut Vec<Output>,
) -> Result<(), Stop>
    ensures { Gives (readying cluster.now up.old to) out.old.items (left_so up.new result) out.new.items }
{
    if up.tasks.joins() {
        return Ok(());
    }
    let body = Body::Ready {
        epoch: up.seat.session(),
        joined: up.seat.joined_devices(),
        report: own_report(alloc, cluster, up)?,
    };
    send(out, to, body)
}
