// The coordinator's own install.
ghost use Rattle.node_model.specs.Attempts.{installing_here};
ghost use Rattle.node_model.specs.Plans.{Follows};
ghost use Rattle.node_attempts.specs.Told.{settling};
ghost use Rattle.node_model.specs.Left.{left_so};

use cl_base::NodeId;
use node_acts::{begin_joins, install_in, save_install};
use node_decisions::tidy;
use node_model::{Cluster, Output, Stop, UpNode, hand_over};
use record_disk::RecordDisk;
use std::alloc::Global;
use wire::Install;

/// The coordinator installs the membership of its attempt; its seizings are over. Of
/// groups and resources that are deleted it keeps nothing.
pub fn install_here<K: RecordDisk>(
    alloc: Global,
    cluster: &Cluster,
    me: NodeId,
    disk: &mut K,
    up: UpNode,
    i: Install,
    out: &mut Vec<Output>,
) -> Result<UpNode, Stop>
    ensures follows { Follows K.saving (installing_here cluster.now me up i up.seat) out.old.items disk.old result out.new.items disk.new }
{
    let (mut up, changed) = install_in(alloc, up, &i)?;
    if !changed {
        return Ok(up);
    }
    let done = settle(alloc, cluster, me, disk, &mut up, &i, out);
    hand_over(up, done)
}

/// The node's record is that of the install: it joins devices, and saves.
fn settle<K: RecordDisk>(
    alloc: Global,
    cluster: &Cluster,
    me: NodeId,
    disk: &mut K,
    up: &mut UpNode,
    i: &Install,
    out: &mut Vec<Output>,
) -> Result<(), Stop>
    ensures { Follows K.saving (settling cluster.now me up.old i.now) out.old.items disk.old (left_so up.new result) out.new.items disk.new }
{
    let joined = up.seat.joined_devices();
    up.tasks.clear();
    begin_joins(
        cluster,
        me,
        i.epoch,
        joined,
        &mut up.tasks,
        i.readings.items(),
    )?;
    tidy(alloc, cluster, up)?;
    save_install(alloc, me, disk, &up.seat, i.epoch, out)
}
