// The node is handed back.
ghost use Rattle.std.specs.Prelude.{◌≡◌};
ghost use Rattle.node.specs.Handing.{kept_so};

use node_model::{Stop, UpNode, hand_over};
use std::alloc::AllocError;

/// What a call has come to that had the node in hand, and can fail for want of memory alone.
pub(crate) fn hand_back(up: UpNode, done: Result<(), AllocError>) -> Result<UpNode, Stop>
    ensures value { result ≡ kept_so up done }
{
    let done = match done {
        Ok(()) => Ok(()),
        Err(_) => Err(Stop::NoMemory),
    };
    hand_over(up, done)
}
