// Installing, and the joinings that follow.
ghost use Rattle.std.specs.Prelude.{◌≡◌, ◌++◌, ◌∷◌, [], None, OnOk, IfOk, IfErr};
ghost use Rattle.status_report.specs.declared.entry.Entry.TheVariants as trace;
ghost use Rattle.status_report.specs.declared.node_entry.NodeEntry.TheVariants as note;
ghost use Rattle.node_model.specs.declared.output.Output.TheVariants.{Tells};
ghost use Rattle.node_model.specs.Attempts.{changed_by, install_of, installed_in, joining_from, joining_with};
ghost use Rattle.node_model.specs.Plans.{KeepFails};
ghost use Rattle.node_model.specs.Seats.{state_of};

use cl_base::{DevSet, Epoch, NodeId};
use cmm_member::{InstallError, Installed};
use device_queue::DeviceQueue;
use node_model::{Cluster, Output, Seat, Stop, UpNode, keep, tell_of};
use record_disk::RecordDisk;
use seize::Join;
use status_report::NodeEntry;
use std::alloc::{AllocError, Global};
use wire::{Install, Reading};

/// The node with the install in its record, and whether that has changed it.
pub fn install_in(alloc: Global, mut up: UpNode, i: &Install) -> Result<(UpNode, bool), AllocError>
    ensures node { IfOk result (λ done. done.0 ≡ installed_in i.now up) }
    ensures changed { IfOk result (λ done. done.1 ≡ changed_by i.now up.seat) }
{
    let (seat, changed) = install(alloc, up.seat, i)?;
    up.seat = seat;
    Ok((up, changed))
}

/// The seat after the install, and whether its record has changed.
fn install(alloc: Global, seat: Seat, i: &Install) -> Result<(Seat, bool), AllocError>
    ensures seat { IfOk result (λ done. done.0 ≡ install_of i.now seat) }
    ensures changed { IfOk result (λ done. done.1 ≡ changed_by i.now seat) }
{
    match seat {
        Seat::Member(node) => Ok((Seat::Member(node), false)),
        Seat::Forming(node) => match node.install(alloc, i) {
            Ok(Installed { node, changed }) => Ok((Seat::Forming(node), changed)),
            Err(InstallError::Refused(node, _)) => Ok((Seat::Forming(node), false)),
            Err(InstallError::NoMemory) => Err(AllocError),
        },
    }
}

/// The node has installed the membership of this epoch: it saves, and says so.
pub fn save_install<K: RecordDisk>(
    alloc: Global,
    me: NodeId,
    disk: &mut K,
    seat: &Seat,
    epoch: Epoch,
    out: &mut Vec<Output>,
) -> Result<(), Stop>
    ensures saved { OnOk result ((K.saving disk.old (state_of seat.now).saved).lost ≡ None) }
    ensures left { OnOk result (disk.new ≡ (K.saving disk.old (state_of seat.now).saved).after) }
    ensures told { OnOk result (out.new.items ≡ (out.old.items ++ Tells (trace.Node me note.Saved) ∷ []) ++ Tells (trace.Node me (note.Installed epoch)) ∷ []) }
    ensures lost { IfErr result (KeepFails (K.saving disk.old (state_of seat.now).saved) out.old.items out.new.items disk.new) }
{
    keep(alloc, me, disk, seat, out)?;
    tell_of(out, me, NodeEntry::Installed(epoch))
}

/// Of the devices that were read, those are to be joined that the node has a path to and has not joined
/// by the install.
pub fn begin_joins(
    cluster: &Cluster,
    me: NodeId,
    epoch: Epoch,
    joined: DevSet,
    tasks: &mut DeviceQueue,
    readings: &[Reading],
) -> Result<(), AllocError>
    ensures after { OnOk result (tasks.new ≡ joining_from cluster.now me epoch joined tasks.old readings.now) }
{
    for reading in readings {
        begin_join(cluster, me, epoch, joined, tasks, reading)?;
    }
    Ok(())
}

fn begin_join(
    cluster: &Cluster,
    me: NodeId,
    epoch: Epoch,
    joined: DevSet,
    tasks: &mut DeviceQueue,
    reading: &Reading,
) -> Result<(), AllocError>
    ensures { OnOk result (tasks.new ≡ joining_with cluster.now me epoch joined tasks.old reading.now) }
{
    let device = reading.device;
    if cluster.has_path(me, device) && !joined.has(device) {
        tasks.join(device, Join::begin(epoch, me, cluster.id))?;
    }
    Ok(())
}
