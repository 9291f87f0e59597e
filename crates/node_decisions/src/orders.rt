// Orders go to the other members.
ghost use Rattle.std.specs.Prelude.{◌≡◌, ◌++◌, OnOk};
ghost use Rattle.node_model.specs.Deciding.{age_with, all_sent, order_sent, orders_sent};

use cl_base::NodeId;
use node_model::{Output, give};
use sent_orders::SentOrders;
use std::alloc::AllocError;
use wire::{Body, Order};

#[tactic(auto, unfolding(node_model::specs::Deciding::orders_sent, node_model::specs::Deciding::all_sent))]
/// Each order goes to its node. The president's own stays with it until its next tick.
pub fn send_orders(
    me: NodeId,
    orders: Vec<(NodeId, Order)>,
    sent: &mut SentOrders,
    out: &mut Vec<Output>,
) -> Result<(), AllocError>
    ensures told { OnOk result (out.new.items ≡ out.old.items ++ orders_sent me orders.items) }
    ensures ages { OnOk result (sent.new ≡ all_sent me sent.old orders.items) }
{
    for order in orders {
        send_order(me, order, sent, out)?;
    }
    Ok(())
}

/// The order goes to its node, unless that is the president itself.
fn send_order(
    me: NodeId,
    order: (NodeId, Order),
    sent: &mut SentOrders,
    out: &mut Vec<Output>,
) -> Result<(), AllocError>
    ensures told { OnOk result (out.new.items ≡ out.old.items ++ order_sent me order) }
    ensures age { OnOk result (sent.new ≡ age_with me sent.old order) }
{
    let (to, order) = order;
    if to == me {
        return Ok(());
    }
    sent.sent(to);
    let body = Body::Order(order);
    give(out, Output::Sends { to, body })?;
    Ok(())
}
