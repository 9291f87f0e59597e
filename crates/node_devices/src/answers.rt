// The answers to the commands of a node's tasks.
ghost use Rattle.std.specs.Prelude.{◌≡◌, ◌++◌, ◌∷◌, [], OnOk, IfOk, IfErr};
ghost use Rattle.wire.specs.declared.message.Body.TheVariants as body;
ghost use Rattle.node_model.specs.declared.output.Output.TheVariants.{Sends};
ghost use Rattle.node_model.specs.declared.stop.Stop.TheVariants.{NoMemory};
ghost use Rattle.pgr_device.specs.Keys.{HasNoZeroKey};
ghost use Rattle.node_model.specs.Devices.{joined_all, joined_here, on_answer_of_device, on_progress, seized_here};
ghost use Rattle.node_model.specs.Plans.{Follows};

use crate::told::{coordinator, greatest_of, told_answer, word_in};
use cl_base::{DevId, Epoch, NodeId};
use device_queue::Progress;
use node_attempts::{go_on, own_ready};
use node_members::{ready, send_seized};
use node_model::{Cluster, Output, Stop, UpNode, hand_over, keep, tell};
use pgr_device::{Failed, PrAnswer};
use record_disk::RecordDisk;
use seize::{JoinResult, SeizeResult, told_result};
use status_report::{DeviceEntry, Entry};
use std::alloc::Global;

/// The command that was due is answered so.
pub fn take_device_answer<K: RecordDisk>(
    alloc: Global,
    cluster: &Cluster,
    me: NodeId,
    disk: &mut K,
    mut up: UpNode,
    answer: Result<PrAnswer, Failed>,
    out: &mut Vec<Output>,
) -> Result<UpNode, Stop>
    requires keys { IfOk answer HasNoZeroKey }
    ensures follows { Follows K.saving (on_answer_of_device cluster.now me up answer) out.old.items disk.old result out.new.items disk.new }
{
    let (Some(device), Some(command)) = (up.tasks.due_device(), up.tasks.next_command()) else {
        return Ok(up);
    };
    let entry = DeviceEntry::Command {
        node: me,
        device,
        command,
        answer: told_answer(&answer),
    };
    if let Err(stop) = tell(out, Entry::Device(entry)) {
        return hand_over(up, Err(stop));
    }
    up.greatest = greatest_of(up.greatest, word_in(&answer));
    let progress = up.tasks.take_answer(answer);
    take_progress(alloc, cluster, me, disk, up, progress, out)
}

fn take_progress<K: RecordDisk>(
    alloc: Global,
    cluster: &Cluster,
    me: NodeId,
    disk: &mut K,
    up: UpNode,
    progress: Progress,
    out: &mut Vec<Output>,
) -> Result<UpNode, Stop>
    ensures { Follows K.saving (on_progress cluster.now me up progress) out.old.items disk.old result out.new.items disk.new }
{
    match progress {
        Progress::GoesOn => Ok(up),
        Progress::Seized {
            device,
            result: ended,
        } => { take_seized(alloc, cluster, me, disk, up, device, ended, out) }
        Progress::Joined {
            device,
            result: ended,
        } => { take_joined(alloc, cluster, me, disk, up, device, ended, out) }
    }
}

/// A seizing has ended: the coordinator's own goes to its attempt, another's to the coordinator.
fn take_seized<K: RecordDisk>(
    alloc: Global,
    cluster: &Cluster,
    me: NodeId,
    disk: &mut K,
    mut up: UpNode,
    device: DevId,
    ended: SeizeResult,
    out: &mut Vec<Output>,
) -> Result<UpNode, Stop>
    ensures { Follows K.saving (seized_here cluster.now me up device ended) out.old.items disk.old result out.new.items disk.new }
{
    let epoch = up.seat.session();
    let Some(coordinator) = coordinator(epoch) else {
        return Ok(up);
    };
    if coordinator != me {
        return match tell_seized(alloc, coordinator, epoch, device, &ended, out) {
            Ok(()) => Ok(up),
            Err(stop) => hand_over(up, Err(stop)),
        };
    }
    let Some(mut attempt) = up.attempt.take() else {
        return Ok(up);
    };
    match attempt.own_seized(device, ended) {
        Ok(steps) => go_on(alloc, cluster, me, disk, up, attempt, steps, out),
        Err(_) => hand_over(up, Err(Stop::NoMemory)),
    }
}

/// The coordinator is told how the seizing has ended.
fn tell_seized(
    alloc: Global,
    to: NodeId,
    epoch: Epoch,
    device: DevId,
    ended: &SeizeResult,
    out: &mut Vec<Output>,
) -> Result<(), Stop>
    ensures sent { OnOk result (out.new.items ≡ out.old.items ++ Sends to (body.Seized epoch device ended.now) ∷ []) }
    ensures only { IfErr result (λ e. e ≡ NoMemory) }
{
    let outcome = told_result(alloc, ended)?;
    send_seized(out, to, epoch, device, outcome)
}

/// A joining has ended: where the device is joined, the node saves that first.
fn take_joined<K: RecordDisk>(
    alloc: Global,
    cluster: &Cluster,
    me: NodeId,
    disk: &mut K,
    mut up: UpNode,
    device: DevId,
    ended: JoinResult,
    out: &mut Vec<Output>,
) -> Result<UpNode, Stop>
    ensures { Follows K.saving (joined_here cluster.now me up device ended) out.old.items disk.old result out.new.items disk.new }
{
    let JoinResult::Joined = ended else {
        return joined_all(alloc, cluster, me, disk, up, out);
    };
    up.seat.joined(device);
    match keep(alloc, me, disk, &up.seat, out) {
        Ok(()) => joined_all(alloc, cluster, me, disk, up, out),
        Err(stop) => hand_over(up, Err(stop)),
    }
}

/// With the last joining the coordinator's own part is done, or a member is ready.
fn joined_all<K: RecordDisk>(
    alloc: Global,
    cluster: &Cluster,
    me: NodeId,
    disk: &mut K,
    up: UpNode,
    out: &mut Vec<Output>,
) -> Result<UpNode, Stop>
    ensures { Follows K.saving (joined_all cluster.now me up) out.old.items disk.old result out.new.items disk.new }
{
    let Some(coordinator) = coordinator(up.seat.session()) else {
        return Ok(up);
    };
    if coordinator == me {
        own_ready(alloc, cluster, me, disk, up, out)
    } else {
        ready(alloc, cluster, up, coordinator, out)
    }
}
