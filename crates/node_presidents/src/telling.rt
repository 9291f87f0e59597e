// What a node tells of its own requests.
ghost use Rattle.std.specs.Prelude.{◌≡◌, ◌++◌, OnOk, IfOk};
ghost use Rattle.node_model.specs.Presidents.{own_line};

use cl_base::{Bytes, NodeId};
use node_model::{Output, give};
use request_queue::Request;
use status_report::{Answer, CommandEntry, Entry};
use std::alloc::{AllocError, Global};

/// A request of the node's own is answered so: that of a command is told.
pub fn tell_own(
    me: NodeId,
    request: Option<Request>,
    answer: Answer,
    out: &mut Vec<Output>,
) -> Result<(), AllocError>
    ensures told { OnOk result (out.new.items ≡ out.old.items ++ own_line me answer request) }
{
    match request {
        Some(request) if request.told => {
            let entry = CommandEntry::Answered {
                node: me,
                number: request.number,
                answer,
            };
            give(out, Output::Tells(Entry::Command(entry)))?;
            Ok(())
        }
        _ => Ok(()),
    }
}

/// The same bytes once more.
pub fn copied(alloc: Global, text: &Bytes) -> Result<Bytes, AllocError>
    ensures value { IfOk result (λ copy. copy ≡ text.now) }
{
    Ok(Bytes::new(text.items().to_vec(alloc)?))
}
