// The requests that wait when a membership ends.
ghost use Rattle.std.specs.Prelude.{◌≡◌, ◌++◌, OnOk};
ghost use Rattle.request_queue.specs.Queue.{ended};
ghost use Rattle.node_model.specs.Entries.{unknown_line, unknown_lines};

use cl_base::NodeId;
use node_model::{Output, give};
use request_queue::{Request, RequestQueue};
use status_report::{Answer, CommandEntry, Entry};
use std::alloc::{AllocError, Global};

/// The membership ends: of each command that waited, oldest first, it is told that nobody knows what
/// comes of it.
pub fn end_requests(
    alloc: Global,
    me: NodeId,
    requests: &mut RequestQueue,
    out: &mut Vec<Output>,
) -> Result<(), AllocError>
    ensures told { OnOk result (out.new.items ≡ out.old.items ++ unknown_lines me requests.old.waiting) }
    ensures after { requests.new ≡ ended requests.old }
{
    let waiting = requests.end(alloc);
    tell_each(me, &waiting, out)
}

fn tell_each(me: NodeId, waiting: &[Request], out: &mut Vec<Output>) -> Result<(), AllocError>
    ensures told { OnOk result (out.new.items ≡ out.old.items ++ unknown_lines me waiting.now) }
{
    for request in waiting {
        tell_unknown(me, request, out)?;
    }
    Ok(())
}

fn tell_unknown(me: NodeId, request: &Request, out: &mut Vec<Output>) -> Result<(), AllocError>
    ensures told { OnOk result (out.new.items ≡ out.old.items ++ unknown_line me request.now) }
{
    if request.told {
        let answered = CommandEntry::Answered {
            node: me,
            number: request.number,
            answer: Answer::Unknown,
        };
        give(out, Output::Tells(Entry::Command(answered)))?;
    }
    Ok(())
}
