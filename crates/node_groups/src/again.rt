// The president sends orders again.
ghost use Rattle.std.specs.Prelude.{◌≡◌, ◌++◌, flat_map, OnOk};
ghost use Rattle.node_model.specs.Groups.{order_again, order_again_to, order_at};
ghost use Rattle.node_groups.specs.Again.{orders_again_at};

use crate::due::order_at;
use cl_base::{NodeId, NodeSet};
use node_model::{Output, Presidency, UpNode, give};
use std::alloc::{AllocError, Global};
use wire::Body;

#[tactic(auto, using(crate::proofs::Repeats::none_again, crate::proofs::Repeats::each_again))]
/// The orders of these nodes, of those that are outstanding, go again. A node that is no president sends
/// none.
pub fn send_orders_again(
    alloc: Global,
    up: &UpNode,
    due: NodeSet,
    out: &mut Vec<Output>,
) -> Result<(), AllocError>
    ensures told { OnOk result (out.new.items ≡ out.old.items ++ orders_again_at due up.now.presidency) }
{
    let Some(presidency) = &up.presidency else {
        return Ok(());
    };
    if due == NodeSet::empty() {
        return Ok(());
    }
    let members = presidency.groups.view().members.nodes(alloc)?;
    send_each(alloc, presidency, due, &members, out)
}

fn send_each(
    alloc: Global,
    presidency: &Presidency,
    due: NodeSet,
    members: &[NodeId],
    out: &mut Vec<Output>,
) -> Result<(), AllocError>
    ensures told { OnOk result (out.new.items ≡ out.old.items ++ flat_map (order_again due presidency.now.groups) members.now) }
{
    for n in members {
        if due.has(*n) {
            send_order_again(alloc, presidency, *n, out)?;
        }
    }
    Ok(())
}

fn send_order_again(
    alloc: Global,
    presidency: &Presidency,
    to: NodeId,
    out: &mut Vec<Output>,
) -> Result<(), AllocError>
    ensures told { OnOk result (out.new.items ≡ out.old.items ++ order_again_to to (order_at to presidency.now.groups)) }
{
    if let Some(order) = order_at(alloc, to, presidency)? {
        give(
            out,
            Output::Sends {
                to,
                body: Body::Order(order),
            },
        )?;
    }
    Ok(())
}
