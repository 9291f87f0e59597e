// What the record says before a command.
ghost use Rattle.node_model.specs.Devices.{before_command};
ghost use Rattle.node_model.specs.Plans.{Follows};

use cl_base::NodeId;
use node_model::{Output, Stop, UpNode, hand_over, keep};
use record_disk::RecordDisk;
use std::alloc::Global;

/// The command that is due is about to be done. Where it is the first of a plain seizing, the record
/// says from now on that the node's key on the device is not validated.
pub fn before_command<K: RecordDisk>(
    alloc: Global,
    me: NodeId,
    disk: &mut K,
    mut up: UpNode,
    out: &mut Vec<Output>,
) -> Result<UpNode, Stop>
    ensures follows { Follows K.saving (before_command me up) out.old.items disk.old result out.new.items disk.new }
{
    let Some(d) = up.tasks.begins_plainly() else {
        return Ok(up);
    };
    if !up.seat.valid().has(d) {
        return Ok(up);
    }
    up.seat.invalidate(d);
    match keep(alloc, me, disk, &up.seat, out) {
        Ok(()) => Ok(up),
        Err(stop) => hand_over(up, Err(stop)),
    }
}
