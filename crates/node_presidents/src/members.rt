// Whether a message is of the node's own membership.
ghost use Rattle.std.specs.Prelude.{◌≡◌, ◌&&◌};
ghost use Rattle.node_model.specs.Seats.{is_in, is_member};
ghost use Rattle.node_model.specs.Updates.{is_of_member};

use cl_base::{Epoch, NodeId};
use node_model::UpNode;

/// Whether the node is in the session of this epoch, which is one.
pub fn is_in(up: &UpNode, epoch: Epoch) -> bool
    ensures value { result ≡ is_in up.now epoch }
{
    epoch != Epoch::zero() && up.seat.session() == epoch
}

/// Whether the node is a member, and what comes is of its own membership.
pub fn is_member_in(up: &UpNode, epoch: Epoch) -> bool
    ensures value { result ≡ (is_member up.now.seat && is_in up.now epoch) }
{
    up.seat.is_member() && is_in(up, epoch)
}

/// Whether the message is of a member of the node's own membership.
pub fn is_of_member(up: &UpNode, from: NodeId, epoch: Epoch) -> bool
    ensures value { result ≡ is_of_member up.now from epoch }
{
    is_member_in(up, epoch) && up.seat.members().has(from)
}
