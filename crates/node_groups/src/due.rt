// Which method a node is to call, if it is to call one.
ghost use Rattle.std.specs.Prelude.{◌≡◌, IfOk, IfSome, Some, true};
ghost use Rattle.node_model.specs.Calls.{call_due, of_membership, order_due, order_in};
ghost use Rattle.node_groups.specs.Calling.{call_of};
ghost use Rattle.node_model.specs.Groups.{order_at, own_order};
ghost use Rattle.node_groups.specs.Carrying.{names};

use cl_base::{Bytes, NodeId};
use node_decisions::own_config;
use node_model::{Cluster, Input, Node, Presidency, UpNode};
use node_presidents::is_member_in;
use rgm_member::Due;
use std::alloc::{AllocError, Global};
use wire::{Body, Order};

#[tactic(auto, unfolding(crate::specs::Calling::call_of))]
/// The call that the node is to make where this happens to it at this second of the clock, if it is to
/// make one: that of an order which comes to it, or at a tick of the president's own.
pub fn call_due(
    alloc: Global,
    cluster: &Cluster,
    me: NodeId,
    now: u64,
    node: &mut Node,
    input: &Input,
) -> Result<Option<Due>, AllocError>
    ensures value { IfOk result (λ due. due ≡ call_due cluster.now me now node.old input.now) }
    ensures same { node.new ≡ node.old }
{
    match node {
        Node::Down => Ok(None),
        Node::Up(up) => due_at(alloc, cluster, me, now, up, input),
    }
}

#[tactic(auto, unfolding(crate::specs::Calling::call_of))]
/// The same at a node that is up.
fn due_at(
    alloc: Global,
    cluster: &Cluster,
    me: NodeId,
    now: u64,
    up: &mut UpNode,
    input: &Input,
) -> Result<Option<Due>, AllocError>
    ensures value { IfOk result (λ due. due ≡ call_of cluster.now now up.old (order_due me up.old input.now)) }
    ensures same { up.new ≡ up.old }
{
    match input {
        Input::Tick => match own_order(alloc, me, up)? {
            Some(order) => due_of(alloc, cluster, now, up, &order),
            None => Ok(None),
        },
        Input::Packet { message, .. } => due_in(alloc, cluster, now, up, &message.body),
        _ => Ok(None),
    }
}

#[tactic(auto, unfolding(crate::specs::Calling::call_of))]
/// That of an order of its membership which comes to it.
fn due_in(
    alloc: Global,
    cluster: &Cluster,
    now: u64,
    up: &mut UpNode,
    body: &Body,
) -> Result<Option<Due>, AllocError>
    ensures value { IfOk result (λ due. due ≡ call_of cluster.now now up.old (of_membership up.old (order_in body.now))) }
    ensures same { up.new ≡ up.old }
{
    let Body::Order(order) = body else {
        return Ok(None);
    };
    if !is_member_in(up, order.epoch) {
        return Ok(None);
    }
    due_of(alloc, cluster, now, up, order)
}

#[tactic(auto, unfolding(crate::specs::Calling::call_of))]
/// The call that the order asks for.
fn due_of(
    alloc: Global,
    cluster: &Cluster,
    now: u64,
    up: &mut UpNode,
    order: &Order,
) -> Result<Option<Due>, AllocError>
    ensures value { IfOk result (λ due. due ≡ call_of cluster.now now up.old (Some order.now)) }
    ensures same { up.new ≡ up.old }
{
    let config = own_config(alloc, cluster, &mut up.made, &up.seat)?;
    Ok(up.worker.due(order, config, now))
}

/// The order that the president has given itself, if it has.
pub(crate) fn own_order(alloc: Global, me: NodeId, up: &UpNode) -> Result<Option<Order>, AllocError>
    ensures value { IfOk result (λ order. order ≡ own_order me up.now) }
    ensures name { IfOk result (λ order. IfSome order (λ o. names o.resource ≡ true)) }
{
    if !up.seat.is_member() {
        return Ok(None);
    }
    match &up.presidency {
        Some(presidency) => order_at(alloc, me, presidency),
        None => Ok(None),
    }
}

#[tactic(auto, using(crate::proofs::Naming::is_named))]
/// The order that is outstanding at the node, as it is sent.
pub(crate) fn order_at(
    alloc: Global,
    n: NodeId,
    presidency: &Presidency,
) -> Result<Option<Order>, AllocError>
    ensures value { IfOk result (λ order. order ≡ order_at n presidency.now.groups) }
    ensures name { IfOk result (λ order. IfSome order (λ o. names o.resource ≡ true)) }
{
    let Some(outstanding) = presidency.groups.view().outstanding.at(n) else {
        return Ok(None);
    };
    let resource = Bytes::new(outstanding.resource.bytes().to_vec(alloc)?);
    Ok(Some(Order {
        epoch: presidency.groups.epoch(),
        number: outstanding.number,
        method: outstanding.method,
        resource,
    }))
}
