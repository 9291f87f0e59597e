// A node carries out an order.
ghost use Rattle.std.specs.Prelude.{◌≡◌, true, IfOk};
ghost use Rattle.node_groups.specs.Carrying.{Carries, carried_so, is_fatal_under, is_last_so, is_last_under, names, worked_so};

use crate::calls::tell_order;
use ccr_tables::Config;
use cl_base::{Name, NodeId, Outcome, Panic};
use node_decisions::own_config;
use node_model::{Cluster, Output, Stop, UpNode};
use rgm_member::{Carried, is_fatal, name_of};
use status_report::DownCause;
use std::alloc::{AllocError, Global};
use wire::Order;

/// What became of an order.
#[derive(Clone, Copy)]
struct Work {
    carried: Carried,
    /// Whether the node does not survive it.
    is_last: bool,
}

#[tactic(auto, using(crate::proofs::CarriedOut::carries_on, crate::proofs::CarriedOut::carries_last, crate::proofs::CarriedOut::carries_none))]
/// The node carries out an order: the method that it calls, if it calls one, ends so. A failure to stop
/// under HARD brings it down.
pub(crate) fn carry_out(
    alloc: Global,
    cluster: &Cluster,
    me: NodeId,
    up: &mut UpNode,
    order: &Order,
    outcome: Outcome,
    out: &mut Vec<Output>,
) -> Result<Carried, Stop>
    requires name { names order.now.resource ≡ true }
    ensures plan { Carries cluster.now me up.old order.now outcome result up.new out.old.items out.new.items }
    ensures seat { up.new.seat ≡ up.old.seat }
{
    let Some(resource) = name_of(order.resource.items()) else {
        return Ok(Carried::Old);
    };
    let work = work_on(alloc, cluster, up, order, &resource, outcome)?;
    tell_order(me, order, &resource, work.carried, out)?;
    if work.is_last {
        return Err(Stop::Down(DownCause::Panic(Panic::Stop(resource))));
    }
    Ok(work.carried)
}

#[tactic(auto, unfolding(crate::specs::Carrying::carried_so, crate::specs::Carrying::is_last_so, crate::specs::Carrying::worked_so))]
/// What becomes of the order, which the node keeps.
fn work_on(
    alloc: Global,
    cluster: &Cluster,
    up: &mut UpNode,
    order: &Order,
    resource: &Name,
    outcome: Outcome,
) -> Result<Work, AllocError>
    requires name { order.now.resource ≡ resource.now }
    ensures carried { IfOk result (λ w. w.carried ≡ carried_so up.old order.now outcome) }
    ensures last { IfOk result (λ w. w.is_last ≡ is_last_so cluster.now up.old order.now w.carried) }
    ensures after { IfOk result (λ w. up.new ≡ worked_so cluster.now up.old order.now w.carried) }
    ensures seat { up.new.seat ≡ up.old.seat }
{
    let config = own_config(alloc, cluster, &mut up.made, &up.seat)?;
    let Ok(carried) = up.worker.carry_out(order, config, outcome, up.second) else {
        return Err(AllocError);
    };
    let is_last = is_last(config, order, resource, carried);
    Ok(Work { carried, is_last })
}

/// Whether the node does not survive what came of the order.
fn is_last(config: &Config, order: &Order, resource: &Name, carried: Carried) -> bool
    requires name { order.now.resource ≡ resource.now }
    ensures value { result ≡ is_last_under config.now order.now carried }
{
    match carried {
        Carried::Called(outcome) => is_fatal_by(config, order, resource, outcome),
        Carried::Cleared | Carried::Kept(_) | Carried::Old => false,
    }
}

fn is_fatal_by(config: &Config, order: &Order, resource: &Name, outcome: Outcome) -> bool
    requires name { order.now.resource ≡ resource.now }
    ensures value { result ≡ is_fatal_under config.now order.now outcome order.now.method }
{
    match order.method {
        Some(method) => is_fatal(config, resource, method, outcome),
        None => false,
    }
}
