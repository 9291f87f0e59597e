// What a president does at a tick.
ghost use Rattle.std.specs.Prelude.{◌≡◌, ◌++◌, Ok, OnOk};
ghost use Rattle.node_model.specs.Plans.{Follows, Gives};
ghost use Rattle.node.specs.Due.{again_of, governed, presided, sent_and_decided};

use crate::handing::hand_back;
use crate::tick::{attempt_due, tick_attempt};
use cl_base::{NodeId, Outcome};
use node_decisions::decide;
use node_groups::{carry_own, send_orders_again};
use node_model::{Cluster, Output, Stop, UpNode};
use node_updates::Again;
use record_disk::RecordDisk;
use std::alloc::{AllocError, Global};

/// A president does what is its own at a tick. Then its attempt goes on, if it has one, or it begins one,
/// if that is due.
#[tactic(auto, using(node_model::proofs::Plans::stopped_then))]
pub(crate) fn govern<K: RecordDisk>(
    alloc: Global,
    cluster: &Cluster,
    me: NodeId,
    outcome: Outcome,
    disk: &mut K,
    up: UpNode,
    again: Again,
    out: &mut Vec<Output>,
) -> Result<UpNode, Stop>
    ensures { Follows K.saving (governed cluster.now me outcome again up) out.old.items disk.old result out.new.items disk.new }
{
    let mut up = preside(alloc, cluster, me, outcome, disk, up, again, out)?;
    match attempt_due(alloc, cluster, me, &mut up) {
        Ok(due) => tick_attempt(alloc, cluster, me, disk, up, due, out),
        Err(_) => hand_back(up, Err(AllocError)),
    }
}

/// The president carries out its own order, sends again what is not answered, and decides.
#[tactic(auto, using(node_model::proofs::Plans::stopped_then))]
fn preside<K: RecordDisk>(
    alloc: Global,
    cluster: &Cluster,
    me: NodeId,
    outcome: Outcome,
    disk: &mut K,
    up: UpNode,
    again: Again,
    out: &mut Vec<Output>,
) -> Result<UpNode, Stop>
    ensures { Follows K.saving (presided cluster.now me outcome again up) out.old.items disk.old result out.new.items disk.new }
{
    let mut up = carry_own(alloc, cluster, me, disk, up, outcome, out)?;
    let done = go_again(alloc, cluster, me, &mut up, again, out);
    hand_back(up, done)
}

/// The president sends again what is not answered, and decides.
#[tactic(auto, using(crate::proofs::Governing::goes_again))]
fn go_again(
    alloc: Global,
    cluster: &Cluster,
    me: NodeId,
    up: &mut UpNode,
    again: Again,
    out: &mut Vec<Output>,
) -> Result<(), AllocError>
    ensures { OnOk result (Gives (sent_and_decided cluster.now me again up.old) out.old.items (Ok up.new) out.new.items) }
{
    send_again(alloc, up, again, out)?;
    decide(alloc, cluster, me, up, out)
}

/// The Prepares and the orders that are due go again.
fn send_again(
    alloc: Global,
    up: &UpNode,
    again: Again,
    out: &mut Vec<Output>,
) -> Result<(), AllocError>
    ensures told { OnOk result (out.new.items ≡ out.old.items ++ again_of again up.now) }
{
    let Again {
        mut prepares,
        orders,
    } = again;
    out.append(&mut prepares)?;
    send_orders_again(alloc, up, orders, out)
}
