// What is no update is done at once. To clear is an order, which comes before the answer.
ghost use Rattle.std.specs.Prelude.{◌≡◌, ◌++◌, Ok, OnOk, IfOk, true, if◌then◌else◌, ◌==◌};
ghost use Rattle.node_model.specs.Deciding.{may_order};
ghost use Rattle.node_model.specs.Plans.{Gives};
ghost use Rattle.node_model.specs.Presidents.{orders_for, second_of};
ghost use Rattle.node_presidents.specs.Presidents.{HasRoomBy, acting_by, acts_by, acts_on, asked_lines, asked_under, asking_by, cleared_at};
ghost use Rattle.proposals.specs.State.{first_in};
ghost use Rattle.request_queue.specs.Queue.{found};
ghost use Rattle.rgm_president.specs.Acts.{HasRoom, with_ask};

use crate::answers::answer_first;
use ccr_tables::Config;
use cl_base::{Ask, NodeId};
use node_decisions::{in_force, may_order, send_orders};
use node_model::{Cluster, Output, Presidency, UpNode};
use proposals::Arrived;
use request_queue::RequestQueue;
use rgm_president::President;
use status_report::Answer;
use std::alloc::{AllocError, Global};
use wire::Order;

#[tactic(auto, using(crate::proofs::Acts::nothing_follows, crate::proofs::Acts::answers_then))]
/// What the first request asks for is done, and it is answered. Where no number is left for an order it
/// waits.
pub fn act(
    alloc: Global,
    cluster: &Cluster,
    me: NodeId,
    up: &mut UpNode,
    ask: Ask,
    out: &mut Vec<Output>,
) -> Result<(), AllocError>
    requires room { HasRoomBy up.old.presidency ask }
    ensures plan { OnOk result (Gives (acting_by cluster.now me up.old ask up.old.presidency) out.old.items (Ok up.new) out.new.items) }
    ensures seat { up.new.seat ≡ up.old.seat }
{
    if !take_first(alloc, cluster, me, up, ask, out)? {
        return Ok(());
    }
    answer_first(alloc, cluster, me, up, Answer::Ok, out)
}

#[tactic(auto, using(crate::proofs::Acts::first_taken))]
/// What the first request asks for is taken up, and its order sent. Whether it was.
fn take_first(
    alloc: Global,
    cluster: &Cluster,
    me: NodeId,
    up: &mut UpNode,
    ask: Ask,
    out: &mut Vec<Output>,
) -> Result<bool, AllocError>
    requires room { HasRoomBy up.old.presidency ask }
    ensures some { IfOk result (λ some. some ≡ acts_by up.old.presidency) }
    ensures plan { OnOk result (Gives (asking_by cluster.now me up.old ask up.old.presidency) out.old.items (Ok up.new) out.new.items) }
    ensures seat { up.new.seat ≡ up.old.seat }
{
    let Some(presidency) = &mut up.presidency else {
        return Ok(false);
    };
    let config = in_force(alloc, cluster, &mut up.made, &up.seat)?;
    let (requests, now) = (&up.requests, up.second);
    take_first_in(alloc, config, me, requests, now, ask, presidency, out)
}

/// The same, where this is the configuration in force, and these requests of the president's own wait.
fn take_first_in(
    alloc: Global,
    config: &Config,
    me: NodeId,
    requests: &RequestQueue,
    now: u64,
    ask: Ask,
    presidency: &mut Presidency,
    out: &mut Vec<Output>,
) -> Result<bool, AllocError>
    requires room { HasRoom presidency.old.groups ask }
    ensures some { IfOk result (λ some. some ≡ acts_on presidency.old (first_in presidency.old.proposals.arrived)) }
    ensures after { OnOk result (presidency.new ≡ asked_under config.now me requests.now now ask presidency.old (first_in presidency.old.proposals.arrived)) }
    ensures told { OnOk result (out.new.items ≡ out.old.items ++ asked_lines me ask presidency.old (first_in presidency.old.proposals.arrived)) }
{
    let Some(first) = presidency.proposals.first() else {
        return Ok(false);
    };
    if !may_order(&presidency.groups) {
        return Ok(false);
    }
    let from = first.from;
    let second = asked_at(me, requests, now, first);
    let orders = take_ask(alloc, config, from, ask, second, &mut presidency.groups)?;
    send_orders(me, orders, &mut presidency.sent, out)?;
    Ok(true)
}

/// The second that counts: of the president's own requests that at which they were asked.
fn asked_at(me: NodeId, requests: &RequestQueue, now: u64, first: &Arrived) -> u64
    ensures value { result ≡ (if first.now.from == me then second_of (found requests.now.waiting first.now.number) now else now) }
{
    if first.from != me {
        return now;
    }
    match requests.oldest() {
        Some(own) if own.number == first.number => own.second,
        _ => now,
    }
}

#[tactic(auto, using(crate::proofs::Cleared::no_node, crate::proofs::Cleared::no_order, crate::proofs::Cleared::one_order))]
/// The president takes up what is asked, and gives the order that this is.
fn take_ask(
    alloc: Global,
    config: &Config,
    from: NodeId,
    ask: Ask,
    second: u64,
    president: &mut President,
) -> Result<Vec<(NodeId, Order)>, AllocError>
    requires room { HasRoom president.old ask }
    requires number { may_order president.old ≡ true }
    ensures orders { IfOk result (λ orders. orders.items ≡ orders_for president.old ask) }
    ensures after { OnOk result (president.new ≡ with_ask config.now from ask second president.old) }
{
    let node = cleared_at(&ask);
    let Ok(order) = president.ask(alloc, from, ask, config, second) else {
        return Err(AllocError);
    };
    let Some(node) = node else {
        return Ok(Vec::new(alloc));
    };
    match order {
        Some(order) => Ok(vec![in alloc; (node, order)]?),
        None => Ok(Vec::new(alloc)),
    }
}

/// The node of a clear.
fn cleared_at(ask: &Ask) -> Option<NodeId>
    ensures { result ≡ cleared_at ask.now }
{
    match ask {
        Ask::Clear { node, .. } => Some(*node),
        Ask::Restart(_) | Ask::Move(_) | Ask::Remaster(_) | Ask::Evacuate(_) => None,
    }
}
