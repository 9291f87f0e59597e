// Queries, which the president alone answers, at once.
ghost use Rattle.std.specs.Prelude.{◌≡◌, ◌++◌, IfOk, OnOk};
ghost use Rattle.node_model.specs.Plans.{Gives};
ghost use Rattle.node_model.specs.Presidents.{told_lines};
ghost use Rattle.node_model.specs.Seats.{state_of};
ghost use Rattle.node_queries.specs.Checks.{checked_under};
ghost use Rattle.node_queries.specs.Queries.{answer_by, answer_for, lines_by, lines_for, query_by};

use crate::checks::checked;
use crate::lines::{lines_of, tell_lines};
use crate::telling::reply;
use admin_commands::{Accepted, CheckError};
use ccr_tables::{AdminCommand, Config};
use cl_base::NodeId;
use node_decisions::in_force;
use node_model::{Cluster, Output, Presidency, Seat, Stop, UpNode};
use status_report::Answer;
use std::alloc::{AllocError, Global};

#[tactic(auto, using(crate::proofs::Querying::gives_answer, crate::proofs::Querying::gives_none, crate::proofs::Querying::gives_no_memory))]
/// A president is asked how something stands: the lines are told, and that all is well; or why it is
/// refused. A node that is no president answers nothing.
pub fn answer_query(
    alloc: Global,
    cluster: &Cluster,
    me: NodeId,
    mut up: UpNode,
    number: u64,
    command: AdminCommand,
    out: &mut Vec<Output>,
) -> Result<UpNode, Stop>
    ensures plan { Gives (query_by cluster.now me up number command up.presidency) out.old.items result out.new.items }
{
    match tell_query(alloc, cluster, &mut up, command, out)? {
        Some(answer) => reply(me, up, number, answer, out),
        None => Ok(up),
    }
}

/// The lines of the query are told, if it is accepted. What it is answered.
fn tell_query(
    alloc: Global,
    cluster: &Cluster,
    up: &mut UpNode,
    command: AdminCommand,
    out: &mut Vec<Output>,
) -> Result<Option<Answer>, AllocError>
    ensures answer { IfOk result (λ answer. answer ≡ answer_by cluster.now up.old command up.old.presidency) }
    ensures told { OnOk result (out.new.items ≡ out.old.items ++ told_lines (lines_by cluster.now up.old command up.old.presidency)) }
    ensures same { up.new ≡ up.old }
{
    let Some(presidency) = &up.presidency else {
        return Ok(None);
    };
    let config = in_force(alloc, cluster, &mut up.made, &up.seat)?;
    tell_under(alloc, cluster, config, &up.seat, presidency, command, out)
}

/// The same at a president of this seat under this configuration.
fn tell_under(
    alloc: Global,
    cluster: &Cluster,
    config: &Config,
    seat: &Seat,
    presidency: &Presidency,
    command: AdminCommand,
    out: &mut Vec<Output>,
) -> Result<Option<Answer>, AllocError>
    ensures answer { IfOk result (λ answer. answer ≡ answer_for (checked_under cluster.now config.now seat.now presidency.now command)) }
    ensures told { OnOk result (out.new.items ≡ out.old.items ++ told_lines (lines_for config.now (state_of seat.now).saved.members presidency.now (checked_under cluster.now config.now seat.now presidency.now command))) }
{
    match checked(alloc, cluster, config, seat, presidency, command) {
        Ok(Accepted::Query(query)) => {
            let lines = lines_of(alloc, config, seat.members(), presidency, query)?;
            tell_lines(lines, out)?;
            Ok(Some(Answer::Ok))
        }
        Ok(Accepted::Change(_) | Accepted::Act(_)) => Ok(None),
        Err(CheckError::Refused(refusal)) => Ok(Some(Answer::Refused(refusal))),
        Err(CheckError::NoMemory) => Err(AllocError),
    }
}
