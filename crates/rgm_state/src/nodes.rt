// Sets of nodes that a group is sent to.
ghost use Rattle.std.specs.Prelude.{◌≡◌};
ghost use Rattle.rgm_state.specs.Asks.{first_members};
ghost use Rattle.rgm_state.specs.Changes.{set_of};

use cl_base::{NodeId, NodeSet};
use rg_props::Group;

/// The first Desired_primaries members in the order of the Nodelist.
pub fn first_members(members: NodeSet, group: &Group) -> NodeSet
    ensures { result ≡ first_members members group.now }
{
    let mut nodes = NodeSet::empty();
    for n in group.nodelist.items() {
        if members.has(*n) && nodes.count() < group.desired {
            nodes = nodes.with(*n);
        }
    }
    nodes
}

/// The set of these nodes.
pub fn set_of(nodes: &[NodeId]) -> NodeSet
    ensures { result ≡ set_of nodes.now }
{
    let mut set = NodeSet::empty();
    for n in nodes {
        set = set.with(*n);
    }
    set
}
