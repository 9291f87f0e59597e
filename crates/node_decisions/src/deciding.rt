// The president decides.
ghost use Rattle.std.specs.Prelude.{◌≡◌, ◌++◌, Ok, OnOk, true};
ghost use Rattle.node_decisions.specs.Turns.{messages_after, presidency_after};
ghost use Rattle.node_model.specs.Deciding.{deciding, is_held_up, may_order};
ghost use Rattle.node_model.specs.Plans.{Gives};
ghost use Rattle.node_model.specs.Seats.{state_of};

use crate::orders::send_orders;
use cl_base::NodeId;
use config_cache::ConfigCache;
use node_model::{Cluster, Output, Presidency, Seat, UpNode};
use rgm_president::President;
use std::alloc::{AllocError, Global};

/// Orders have numbers below this.
const MOST_ORDERS: u64 = 1 << 63;

#[tactic(auto, using(crate::proofs::Decided::decided_so))]
/// A president decides at the second of its step: the goals anew, and then, unless a request waits or
/// is being handled, an order to each member that has none and for which a call is allowed. Any other
/// node decides nothing.
pub fn decide(
    alloc: Global,
    cluster: &Cluster,
    me: NodeId,
    up: &mut UpNode,
    out: &mut Vec<Output>,
) -> Result<(), AllocError>
    ensures plan { OnOk result (Gives (deciding cluster.now me up.old) out.old.items (Ok up.new) out.new.items) }
    ensures seat { up.new.seat ≡ up.old.seat }
{
    let Some(presidency) = &mut up.presidency else {
        return Ok(());
    };
    decide_in(
        alloc,
        cluster,
        &mut up.made,
        &up.seat,
        me,
        up.second,
        presidency,
        out,
    )
}

/// The same, of this presidency of a node with this seat. Where no number is left nothing is decided.
fn decide_in(
    alloc: Global,
    cluster: &Cluster,
    made: &mut ConfigCache,
    seat: &Seat,
    me: NodeId,
    now: u64,
    presidency: &mut Presidency,
    out: &mut Vec<Output>,
) -> Result<(), AllocError>
    ensures after { OnOk result (presidency.new ≡ presidency_after me cluster.now.header (state_of seat.now).saved.entries.committed now presidency.old) }
    ensures told { OnOk result (out.new.items ≡ out.old.items ++ messages_after me cluster.now.header (state_of seat.now).saved.entries.committed now presidency.old) }
{
    if !may_order(&presidency.groups) {
        return Ok(());
    }
    decide_under(alloc, cluster, made, seat, me, now, presidency, out)
}

/// The same, where a number is left.
fn decide_under(
    alloc: Global,
    cluster: &Cluster,
    made: &mut ConfigCache,
    seat: &Seat,
    me: NodeId,
    now: u64,
    presidency: &mut Presidency,
    out: &mut Vec<Output>,
) -> Result<(), AllocError>
    requires number { may_order presidency.old.groups ≡ true }
    ensures after { OnOk result (presidency.new ≡ presidency_after me cluster.now.header (state_of seat.now).saved.entries.committed now presidency.old) }
    ensures told { OnOk result (out.new.items ≡ out.old.items ++ messages_after me cluster.now.header (state_of seat.now).saved.entries.committed now presidency.old) }
{
    let held_up = is_held_up(presidency);
    match presidency.groups.decide_in_force(
        alloc,
        made,
        cluster.header.get(),
        seat.entries(),
        now,
        held_up,
    ) {
        Ok(orders) => send_orders(me, orders, &mut presidency.sent, out),
        Err(_) => Err(AllocError),
    }
}

/// Whether a request waits or is being handled.
fn is_held_up(presidency: &Presidency) -> bool
    ensures { result ≡ is_held_up presidency.now }
{
    presidency.proposals.first().is_some()
}

/// Whether there is a number for each order that is given next.
pub fn may_order(president: &President) -> bool
    ensures value { result ≡ may_order president.now }
{
    president.given() < MOST_ORDERS
}
