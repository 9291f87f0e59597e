// Becoming a member.
ghost use Rattle.std.specs.Prelude.{◌≡◌, MatchResult, Some, None};
ghost use Rattle.node_model.specs.Attempts.{member_by};

use cl_base::Epoch;
use cmm_member::Started;
use node_model::Seat;

/// The node as a member of the membership of this epoch, and whether its record has changed by that; or
/// its seat as it was.
pub fn become_member(seat: Seat, epoch: Epoch) -> Result<Started, Seat>
    ensures member { MatchResult result (λ done. member_by epoch seat ≡ Some (done.node, done.changed)) (λ back. (member_by epoch seat ≡ None) × (back ≡ seat)) }
{
    match seat {
        Seat::Member(node) => Err(Seat::Member(node)),
        Seat::Forming(node) => match node.start(epoch) {
            Ok(started) => Ok(started),
            Err(node) => Err(Seat::Forming(node)),
        },
    }
}
