// A node's writes.
ghost use Rattle.std.specs.Prelude.{◌≡◌};
ghost use Rattle.status_report.specs.declared.device_entry.DeviceEntry.TheVariants as entry;
ghost use Rattle.status_report.specs.declared.entry.Entry.TheVariants as trace;
ghost use Rattle.node_model.specs.Devices.{may_write_as, write_ended, wrote};
ghost use Rattle.node_model.specs.Plans.{Gives};
ghost use Rattle.node_model.specs.Left.{left_so};

use crate::told::told_answer;
use cl_base::{DevId, Epoch, NodeId, Panic};
use node_model::{Cluster, Output, Seat, Stop, UpNode, hand_over, tell};
use pgr_device::{Failed, PrAnswer, PrCommand};
use status_report::{DeviceEntry, DownCause, Entry, WriteRefusal};

/// The epoch under which the node may write to the device, or why it may not.
pub fn may_write(
    cluster: &Cluster,
    me: NodeId,
    seat: &Seat,
    d: DevId,
) -> Result<Epoch, WriteRefusal>
    ensures value { result ≡ may_write_as cluster.now me d seat.now }
{
    match seat {
        Seat::Forming(_) => Err(WriteRefusal::NotMember),
        Seat::Member(node) => {
            if !cluster.has_path(me, d) {
                return Err(WriteRefusal::NoPath);
            }
            node.may_write(d).map_err(|_| WriteRefusal::NotHeld)
        }
    }
}

/// The device has answered the node's write so. A node that it refuses is fenced, and panics.
pub fn take_write_answer(
    me: NodeId,
    up: UpNode,
    device: DevId,
    value: u64,
    answer: Result<PrAnswer, Failed>,
    out: &mut Vec<Output>,
) -> Result<UpNode, Stop>
    ensures follows { Gives (wrote me up device value answer) out.old.items result out.new.items }
{
    let told = tell_write(me, &up, device, value, answer, out);
    hand_over(up, told)
}

/// The answer is told, and what the write comes to.
fn tell_write(
    me: NodeId,
    up: &UpNode,
    device: DevId,
    value: u64,
    answer: Result<PrAnswer, Failed>,
    out: &mut Vec<Output>,
) -> Result<(), Stop>
    ensures { Gives (wrote me up.now device value answer) out.old.items (left_so up.now result) out.new.items }
{
    let told = DeviceEntry::Command {
        node: me,
        device,
        command: PrCommand::Write { value },
        answer: told_answer(&answer),
    };
    tell(out, Entry::Device(told))?;
    end_write(me, up, device, value, answer, out)
}

fn end_write(
    me: NodeId,
    up: &UpNode,
    device: DevId,
    value: u64,
    answer: Result<PrAnswer, Failed>,
    out: &mut Vec<Output>,
) -> Result<(), Stop>
    ensures { Gives (write_ended me up.now device value answer) out.old.items (left_so up.now result) out.new.items }
{
    match answer {
        Ok(PrAnswer::Good) => {
            let entry = DeviceEntry::Accepted {
                epoch: up.seat.session(),
                node: me,
                device,
                value,
            };
            tell(out, Entry::Device(entry))
        }
        Ok(PrAnswer::Conflict) => {
            tell(out, refused(me, device, value, WriteRefusal::Fenced))?;
            Err(Stop::Down(DownCause::Panic(Panic::Fenced(device))))
        }
        _ => tell(out, refused(me, device, value, WriteRefusal::Fault)),
    }
}

fn refused(node: NodeId, device: DevId, value: u64, cause: WriteRefusal) -> Entry
    ensures { result ≡ trace.Device (entry.Refused node device value cause) }
{
    Entry::Device(DeviceEntry::Refused {
        node,
        device,
        value,
        cause,
    })
}
