// Which nodes a node takes for configured.
ghost use Rattle.std.specs.Prelude.{◌≡◌, IfOk};
ghost use Rattle.node_model.specs.Configurations.{configured_at, configured_under};

use cl_base::{NodeId, NodeSet, Version};
use node_decisions::in_force;
use node_model::{Cluster, UpNode};
use quorum_votes::Votes;
use std::alloc::{AllocError, Global};

/// The nodes that the node takes for configured: under version 1 all of the header, under version 2
/// those that its own committed updates leave.
pub(crate) fn configured_at(
    alloc: Global,
    cluster: &Cluster,
    up: &mut UpNode,
) -> Result<NodeSet, AllocError>
    ensures value { IfOk result (λ nodes. nodes ≡ configured_at cluster.now up.old) }
    ensures same { up.new ≡ up.old }
{
    match cluster.header.get().version {
        Version::One => Ok(cluster.configured),
        Version::Two => {
            let config = in_force(alloc, cluster, &mut up.made, &up.seat)?;
            Ok(configured_under(config.votes()))
        }
    }
}

/// The nodes that are configured where these are the votes.
#[tactic(auto, unfolding(node_model::specs::Configurations::configured_under))]
fn configured_under(votes: &Votes) -> NodeSet
    ensures { result ≡ configured_under votes.now }
{
    let mut nodes = NodeSet::empty();
    for n in 0..NodeId::MOST {
        match NodeId::new(n + 1) {
            Ok(node) if votes.configured(node) => nodes = nodes.with(node),
            _ => {}
        }
    }
    nodes
}
