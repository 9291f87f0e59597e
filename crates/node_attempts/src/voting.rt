// The votes that an attempt is counted under.
ghost use Rattle.std.specs.Prelude.{◌≡◌, IfOk, IfErr};
ghost use Rattle.node_model.specs.declared.stop.Stop.TheVariants.{NoMemory};
ghost use Rattle.node_model.specs.Attempts.{votes_in, votes_shown};

use cmm_attempt::Attempt;
use node_model::{Cluster, Stop};
use quorum_votes::Votes;
use std::alloc::Global;
use update_log::votes_after;
use wire::Body;

/// The votes under the committed updates of the newest record, and, where an update is pending there,
/// those with it.
pub fn newest_votes(
    alloc: Global,
    cluster: &Cluster,
    attempt: &Attempt,
) -> Result<(Votes, Option<Votes>), Stop>
    ensures value { IfOk result (λ votes. record { committed = votes.0; pending = votes.1 } ≡ votes_in cluster.now attempt.now) }
    ensures only { IfErr result (λ e. e ≡ NoMemory) }
{
    match attempt.newest_promise() {
        Some(promise) => shown_votes(alloc, cluster, &promise.body),
        None => Ok((cluster.votes, None)),
    }
}

/// The votes under the updates that the message shows.
fn shown_votes(
    alloc: Global,
    cluster: &Cluster,
    body: &Body,
) -> Result<(Votes, Option<Votes>), Stop>
    ensures value { IfOk result (λ votes. record { committed = votes.0; pending = votes.1 } ≡ votes_shown cluster.now body.now) }
    ensures only { IfErr result (λ e. e ≡ NoMemory) }
{
    let Body::Promise {
        committed,
        pending,
        ..
    } = body
    else {
        return Ok((cluster.votes, None));
    };
    let header = cluster.header.get();
    match votes_after(alloc, header, committed.items(), pending.as_ref()) {
        Ok(Some(votes)) => Ok((votes.committed, votes.pending)),
        Ok(None) => Ok((cluster.votes, None)),
        Err(_) => Err(Stop::NoMemory),
    }
}
