// What is answered to a command.
ghost use Rattle.node_model.specs.Entries.{replying};
ghost use Rattle.node_model.specs.Plans.{Gives};

use cl_base::NodeId;
use node_model::{Output, Stop, UpNode, tell};
use status_report::{Answer, CommandEntry, Entry};

/// The command of this number is answered so, and nothing else comes of it.
pub fn reply(
    me: NodeId,
    up: UpNode,
    number: u64,
    answer: Answer,
    out: &mut Vec<Output>,
) -> Result<UpNode, Stop>
    ensures told { Gives (replying me number answer up) out.old.items result out.new.items }
{
    let entry = CommandEntry::Answered {
        node: me,
        number,
        answer,
    };
    tell(out, Entry::Command(entry))?;
    Ok(up)
}
