ghost use Rattle.std.specs.Prelude.{◌≡◌, ◌++◌, ◌∷◌, [], map, OnOk};
ghost use Rattle.heartbeats.specs.Views.{receivers_of};
ghost use Rattle.node_model.specs.Ticks.{heartbeat_of, heartbeats_to};
ghost use Rattle.node_model.specs.declared.output.Output.TheVariants.{Sends};

use cl_base::{NodeId, NodeSet};
use node_model::{Output, UpNode, give};
use std::alloc::{AllocError, Global};
use wire::Body;

/// A heartbeat goes to every other of the nodes that are configured, ascending; that of a node which is not, to each that it has
/// heard.
pub fn send_heartbeats(
    alloc: Global,
    configured: NodeSet,
    up: &UpNode,
    out: &mut Vec<Output>,
) -> Result<(), AllocError>
    ensures sent { OnOk result (out.new.items ≡ out.old.items ++ heartbeats_to up.now (receivers_of up.now.beats configured)) }
{
    let receivers = up.beats.receivers(configured).nodes(alloc)?;
    send_to_each(up, &receivers, out)
}

fn send_to_each(up: &UpNode, receivers: &[NodeId], out: &mut Vec<Output>) -> Result<(), AllocError>
    ensures sent { OnOk result (out.new.items ≡ out.old.items ++ map (λ n. Sends n (heartbeat_of up.now)) receivers.now) }
{
    for n in receivers {
        send_beat(up, *n, out)?;
    }
    Ok(())
}

fn send_beat(up: &UpNode, to: NodeId, out: &mut Vec<Output>) -> Result<(), AllocError>
    ensures sent { OnOk result (out.new.items ≡ out.old.items ++ Sends to (heartbeat_of up.now) ∷ []) }
{
    let body = heartbeat(up);
    give(out, Output::Sends { to, body })?;
    Ok(())
}

fn heartbeat(up: &UpNode) -> Body
    ensures { result ≡ heartbeat_of up.now }
{
    Body::Heartbeat {
        promised: up.seat.promised(),
        session: up.seat.session(),
        member: up.seat.is_member(),
    }
}
