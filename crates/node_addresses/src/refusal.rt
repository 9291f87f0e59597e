ghost use Rattle.std.specs.Prelude.{◌≡◌, IfOk};
ghost use Rattle.node_model.specs.Addresses.{refusal_at, refusal_by};

use cl_base::Name;
use node_decisions::in_force;
use node_model::{Cluster, Node, UpNode};
use status_report::SkipCause;
use std::alloc::{AllocError, Global};

/// Why a node that is up does not take a client's request of this address, if it does not: it is no
/// president, or the configuration in force has no such address.
pub fn client_refusal(
    alloc: Global,
    cluster: &Cluster,
    node: &mut Node,
    address: &Name,
) -> Result<Option<SkipCause>, AllocError>
    ensures value { IfOk result (λ why. why ≡ refusal_at cluster.now address.now node.old) }
    ensures same { node.new ≡ node.old }
{
    match node {
        Node::Down => Ok(None),
        Node::Up(up) => refusal_of(alloc, cluster, up, address),
    }
}

fn refusal_of(
    alloc: Global,
    cluster: &Cluster,
    up: &mut UpNode,
    address: &Name,
) -> Result<Option<SkipCause>, AllocError>
    ensures value { IfOk result (λ why. why ≡ refusal_by cluster.now up.old address.now up.old.presidency) }
    ensures same { up.new ≡ up.old }
{
    if up.presidency.is_none() {
        return Ok(Some(SkipCause::NoPresident));
    }
    let config = in_force(alloc, cluster, &mut up.made, &up.seat)?;
    if config.address(address).is_none() {
        return Ok(Some(SkipCause::NoAddress));
    }
    Ok(None)
}
