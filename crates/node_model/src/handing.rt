// What has come of a call that has a node in hand.
ghost use Rattle.std.specs.Prelude.{◌≡◌};
ghost use Rattle.node_model.specs.Left.{left_so};

use crate::node::UpNode;
use crate::stop::Stop;

/// What a call has come to that had the node in hand. A node that goes down is let go here alone.
pub fn hand_over(up: UpNode, done: Result<(), Stop>) -> Result<UpNode, Stop>
    ensures value { result ≡ left_so up done }
{
    match done {
        Ok(()) => Ok(up),
        Err(stop) => {
            // Said so, the parts are let go each by its own proof.
            drop(up);
            Err(stop)
        }
    }
}
