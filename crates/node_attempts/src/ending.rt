// How an attempt ends.
ghost use Rattle.std.specs.Prelude.{◌≡◌};
ghost use Rattle.node_model.specs.declared.node.UpNode.{UpNode};
ghost use Rattle.node_model.specs.Attempts.{ended_entry, ending, excluding, left_out_by};
ghost use Rattle.node_model.specs.Plans.{Gives};
ghost use Rattle.node_attempts.specs.Told.{end_told};
ghost use Rattle.node_model.specs.Left.{left_so};

use cl_base::{Epoch, NodeId, Panic};
use cmm_attempt::{Attempt, AttemptEnd};
use node_model::{Output, Stop, UpNode, send, tell};
use status_report::{AttemptEntry, DownCause, Entry};
use wire::Body;

/// The attempt, which is the node's, has ended so.
#[tactic(auto, using(crate::proofs::StartLemmas::ends_so))]
pub fn end_attempt(
    me: NodeId,
    up: &mut UpNode,
    end: AttemptEnd,
    out: &mut Vec<Output>,
) -> Result<(), Stop>
    ensures follows { Gives (ending me up.old end up.old.attempt) out.old.items (left_so up.new result) out.new.items }
{
    let Some(attempt) = up.attempt.take() else {
        return Ok(());
    };
    up.beats.attempt_ended();
    tell_end(me, attempt, end, out)
}

/// How the attempt ended is told, whatever the node is left as.
fn tell_end(
    me: NodeId,
    attempt: Attempt,
    end: AttemptEnd,
    out: &mut Vec<Output>,
) -> Result<(), Stop>
    ensures { (x : UpNode) → Gives (end_told me x attempt end) out.old.items (left_so x result) out.new.items }
{
    let epoch = attempt.epoch();
    let newest = attempt.newest_installed().unwrap_or(Epoch::zero());
    let left_out = left_out_by(&end);
    tell(out, Entry::Attempt(ended_entry(epoch, end)))?;
    exclude(me, epoch, newest, left_out, out)
}

/// A member that is left out is told; the coordinator itself panics.
fn exclude(
    me: NodeId,
    epoch: Epoch,
    newest: Epoch,
    left_out: Option<NodeId>,
    out: &mut Vec<Output>,
) -> Result<(), Stop>
    ensures { (x : UpNode) → Gives (excluding me x epoch newest left_out) out.old.items (left_so x result) out.new.items }
{
    match left_out {
        None => Ok(()),
        Some(m) if m == me => Err(Stop::Down(DownCause::Panic(Panic::Excluded(newest)))),
        Some(m) => {
            send(out, m, Body::Excluded { epoch, newest })?;
            Ok(())
        }
    }
}

fn left_out_by(end: &AttemptEnd) -> Option<NodeId>
    ensures { result ≡ left_out_by end.now }
{
    match end {
        AttemptEnd::Excluded(m) => Some(*m),
        _ => None,
    }
}

fn ended_entry(epoch: Epoch, end: AttemptEnd) -> AttemptEntry
    ensures { result ≡ ended_entry epoch end }
{
    match end {
        AttemptEnd::Votes {
            have,
            need,
            lacking,
        } => AttemptEntry::Votes {
            epoch,
            have,
            need,
            lacking,
        },
        AttemptEnd::Superseded(by) => AttemptEntry::Superseded { epoch, by },
        AttemptEnd::Silent(node) => AttemptEntry::Silent { epoch, node },
        AttemptEnd::Foreign(node) => AttemptEntry::Foreign { epoch, node },
        AttemptEnd::Excluded(node) => AttemptEntry::Excluded { epoch, node },
    }
}
