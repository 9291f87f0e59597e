// Orders are carried out by members, and by the president itself.
ghost use Rattle.std.specs.Prelude.{◌≡◌, ◌++◌, true, OnOk};
ghost use Rattle.node_model.specs.Groups.{on_order, own_order, own_turn};
ghost use Rattle.node_model.specs.Plans.{Follows, Gives};
ghost use Rattle.node_model.specs.Seats.{is_member};
ghost use Rattle.rgm_member.specs.Orders.{outcome_in};
ghost use Rattle.node_groups.specs.Carrying.{names};
ghost use Rattle.node_groups.specs.Obeying.{carries_own, done_told, end_told, obeys};
ghost use Rattle.node_model.specs.Left.{left_so};

use crate::carrying::carry_out;
use crate::done::end_order;
use crate::due::own_order;
use cl_base::{NodeId, Outcome};
use node_model::{Cluster, Output, Stop, UpNode, give, hand_over};
use node_presidents::is_member_in;
use record_disk::RecordDisk;
use rgm_member::Carried;
use std::alloc::{AllocError, Global};
use wire::{Body, Order};

#[tactic(auto, using(crate::proofs::CarriedOut::order_passed))]
/// A member carries out an order of its membership, once, and tells the president how it ended, also
/// again. The method that it calls, if it calls one, ends so. An order of another membership changes
/// nothing.
pub fn take_order(
    alloc: Global,
    cluster: &Cluster,
    me: NodeId,
    mut up: UpNode,
    from: NodeId,
    order: &Order,
    outcome: Outcome,
    out: &mut Vec<Output>,
) -> Result<UpNode, Stop>
    requires name { names order.now.resource ≡ true }
    ensures plan { Gives (on_order cluster.now me outcome up from order.now) out.old.items result out.new.items }
{
    if !is_member_in(&up, order.epoch) {
        return Ok(up);
    }
    let done = obey(alloc, cluster, me, &mut up, from, order, outcome, out);
    hand_over(up, done)
}

#[tactic(auto, using(crate::proofs::CarriedOut::obeys_on, crate::proofs::CarriedOut::obeys_stopped, crate::proofs::CarriedOut::obeys_none))]
/// The order is one of the node's membership.
fn obey(
    alloc: Global,
    cluster: &Cluster,
    me: NodeId,
    up: &mut UpNode,
    from: NodeId,
    order: &Order,
    outcome: Outcome,
    out: &mut Vec<Output>,
) -> Result<(), Stop>
    requires name { names order.now.resource ≡ true }
    ensures plan { Gives (obeys cluster.now me up.old from order.now outcome) out.old.items (left_so up.new result) out.new.items }
{
    let carried = carry_out(alloc, cluster, me, up, order, outcome, out)?;
    match tell_end(from, order, carried, out) {
        Ok(()) => Ok(()),
        Err(_) => Err(Stop::NoMemory),
    }
}

/// The president is told how the order ended, unless it is one of another membership.
fn tell_end(
    to: NodeId,
    order: &Order,
    carried: Carried,
    out: &mut Vec<Output>,
) -> Result<(), AllocError>
    ensures told { OnOk result (out.new.items ≡ out.old.items ++ end_told to order.now carried) }
{
    match carried {
        Carried::Kept(outcome) | Carried::Called(outcome) => tell_done(to, order, outcome, out),
        Carried::Cleared => tell_done(to, order, Outcome::Success, out),
        Carried::Old => Ok(()),
    }
}

/// The order ended so.
fn tell_done(
    to: NodeId,
    order: &Order,
    outcome: Outcome,
    out: &mut Vec<Output>,
) -> Result<(), AllocError>
    ensures told { OnOk result (out.new.items ≡ out.old.items ++ done_told to order.now outcome) }
{
    let body = Body::Done {
        epoch: order.epoch,
        number: order.number,
        outcome,
    };
    give(out, Output::Sends { to, body })?;
    Ok(())
}

#[tactic(auto, using(crate::proofs::CarriedOut::own_taken, crate::proofs::CarriedOut::own_lacking, crate::proofs::CarriedOut::own_of_member))]
/// The president carries out the order that it has given itself, if it has. The method that it calls
/// ends so.
pub fn carry_own<K: RecordDisk>(
    alloc: Global,
    cluster: &Cluster,
    me: NodeId,
    disk: &mut K,
    up: UpNode,
    outcome: Outcome,
    out: &mut Vec<Output>,
) -> Result<UpNode, Stop>
    ensures plan { Follows K.saving (own_turn cluster.now me outcome up (own_order me up)) out.old.items disk.old result out.new.items disk.new }
{
    match own_order(alloc, me, &up) {
        Ok(Some(order)) => carry_it(alloc, cluster, me, disk, up, &order, outcome, out),
        Ok(None) => Ok(up),
        Err(_) => hand_over(up, Err(Stop::NoMemory)),
    }
}

#[tactic(auto, using(crate::proofs::CarriedOut::own_carried, crate::proofs::CarriedOut::own_stopped))]
/// The president carries out this order of its own, and learns how it ended.
fn carry_it<K: RecordDisk>(
    alloc: Global,
    cluster: &Cluster,
    me: NodeId,
    disk: &mut K,
    mut up: UpNode,
    order: &Order,
    outcome: Outcome,
    out: &mut Vec<Output>,
) -> Result<UpNode, Stop>
    requires name { names order.now.resource ≡ true }
    requires member { is_member up.seat ≡ true }
    ensures plan { Follows K.saving (carries_own cluster.now me up order.now outcome) out.old.items disk.old result out.new.items disk.new }
{
    match carry_out(alloc, cluster, me, &mut up, order, outcome, out) {
        Ok(carried) => {
            let ended = outcome_in(carried);
            end_order(alloc, cluster, me, disk, up, me, order.number, ended, out)
        }
        Err(stop) => hand_over(up, Err(stop)),
    }
}

/// How the order ended.
fn outcome_in(carried: Carried) -> Outcome
    ensures value { result ≡ outcome_in carried }
{
    match carried {
        Carried::Called(outcome) | Carried::Kept(outcome) => outcome,
        Carried::Cleared => Outcome::Success,
        Carried::Old => Outcome::Failure,
    }
}
