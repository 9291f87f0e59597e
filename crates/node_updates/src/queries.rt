// Queries, which only the president answers.
ghost use Rattle.std.specs.Prelude.{◌≡◌};
ghost use Rattle.node_model.specs.Plans.{Gives};
ghost use Rattle.node_model.specs.Requests.{elsewhere, queried};
ghost use Rattle.node_model.specs.Seats.{coordinator_of};

use ccr_tables::AdminCommand;
use cl_base::NodeId;
use node_model::{Cluster, Output, Stop, UpNode};
use node_queries::{answer_query, reply};
use status_report::Answer;
use std::alloc::Global;

/// A member is asked how something stands: only the president knows.
pub fn query(
    alloc: Global,
    cluster: &Cluster,
    me: NodeId,
    up: UpNode,
    number: u64,
    command: AdminCommand,
    out: &mut Vec<Output>,
) -> Result<UpNode, Stop>
    ensures plan { Gives (queried cluster.now me up number command up.presidency) out.old.items result out.new.items }
{
    let Some(_) = &up.presidency else {
        return refer(me, up, number, out);
    };
    if up.requests.is_full() {
        return reply(me, up, number, Answer::QueueFull, out);
    }
    answer_query(alloc, cluster, me, up, number, command, out)
}

/// The president is to be asked.
fn refer(me: NodeId, up: UpNode, number: u64, out: &mut Vec<Output>) -> Result<UpNode, Stop>
    ensures { Gives (elsewhere me up number (coordinator_of up)) out.old.items result out.new.items }
{
    match coordinator(&up) {
        Some(president) => reply(me, up, number, Answer::Ask(president), out),
        None => Ok(up),
    }
}

/// The node that coordinates the session.
pub fn coordinator(up: &UpNode) -> Option<NodeId>
    ensures value { result ≡ coordinator_of up.now }
{
    NodeId::new(up.seat.session().number() % 64).ok()
}
