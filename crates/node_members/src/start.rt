// A Start.
ghost use Rattle.std.specs.Prelude.{◌≡◌};
ghost use Rattle.node_model.specs.Members.{on_start_as};
ghost use Rattle.node_model.specs.Plans.{Follows};
ghost use Rattle.node_model.specs.Left.{left_so};
ghost use Rattle.node_members.specs.Starts.{entered};

use cl_base::{Epoch, NodeId};
use cmm_member::Started;
use node_acts::become_member;
use node_model::{Output, Seat, Stop, UpNode, hand_over, keep, tell_of};
use record_disk::RecordDisk;
use status_report::NodeEntry;
use std::alloc::Global;

/// The membership of this epoch has started: the node is a member of it where it has installed it in
/// this session, and has carried out no order of it. What is pending is committed and saved first.
pub fn take_start<K: RecordDisk>(
    alloc: Global,
    me: NodeId,
    disk: &mut K,
    mut up: UpNode,
    epoch: Epoch,
    out: &mut Vec<Output>,
) -> Result<UpNode, Stop>
    ensures follows { Follows K.saving (on_start_as me up epoch up.seat) out.old.items disk.old result out.new.items disk.new }
{
    match become_member(up.seat, epoch) {
        Ok(Started { node, changed }) => {
            up.seat = Seat::Member(node);
            let entered = enter(alloc, me, disk, &mut up, epoch, changed, out);
            hand_over(up, entered)
        }
        Err(seat) => {
            up.seat = seat;
            Ok(up)
        }
    }
}

/// The node is a member: it saves what that changed, and has carried out no order.
fn enter<K: RecordDisk>(
    alloc: Global,
    me: NodeId,
    disk: &mut K,
    up: &mut UpNode,
    epoch: Epoch,
    changed: bool,
    out: &mut Vec<Output>,
) -> Result<(), Stop>
    ensures { Follows K.saving (entered me up.old epoch changed) out.old.items disk.old (left_so up.new result) out.new.items disk.new }
{
    up.worker.enter(up.seat.session());
    if changed {
        keep(alloc, me, disk, &up.seat, out)?;
    }
    tell_of(out, me, NodeEntry::Member(epoch))
}
