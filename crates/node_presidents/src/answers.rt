// The president answers the first request.
ghost use Rattle.std.specs.Prelude.{◌≡◌, ◌++◌, ◌∷◌, [], Ok, OnOk, IfOk};
ghost use Rattle.request_queue.specs.Queue.{answered, found, oldest};
ghost use Rattle.status_report.specs.CommandLines.{reply_text};
ghost use Rattle.wire.specs.declared.message.Body.TheVariants as body;
ghost use Rattle.node_model.specs.declared.output.Output.TheVariants.{Sends};
ghost use Rattle.node_model.specs.Plans.{Gives};
ghost use Rattle.node_model.specs.Presidents.{own_line, with_own};
ghost use Rattle.node_presidents.specs.Presidents.{answer_lines, answering_by, giving_by, has_first, proposals_after, requests_after};
ghost use Rattle.proposals.specs.State.{first_in};
ghost use Rattle.node_model.specs.Deciding.{is_any};

use crate::telling::{copied, tell_own};
use cl_base::{Bytes, Epoch, NodeId};
use node_decisions::decide;
use node_model::{Cluster, Output, Presidency, UpNode, give};
use proposals::{Arrived, Proposals};
use request_queue::RequestQueue;
use status_report::{Answer, answer_text};
use std::alloc::{AllocError, Global};
use wire::Body;

#[tactic(auto, using(crate::proofs::Answering::nothing_follows, crate::proofs::Answering::decides_then))]
/// The first request is answered so, if there is one: here where it is the president's own, else by a
/// message to the node that asked. Then the president decides.
pub fn answer_first(
    alloc: Global,
    cluster: &Cluster,
    me: NodeId,
    up: &mut UpNode,
    answer: Answer,
    out: &mut Vec<Output>,
) -> Result<(), AllocError>
    ensures plan { OnOk result (Gives (answering_by cluster.now me up.old answer up.old.presidency) out.old.items (Ok up.new) out.new.items) }
    ensures seat { up.new.seat ≡ up.old.seat }
{
    if !give_answer(alloc, me, up, answer, out)? {
        return Ok(());
    }
    decide(alloc, cluster, me, up, out)
}

#[tactic(auto, using(crate::proofs::Given::first_given))]
/// The first request is answered so. Whether there is one.
fn give_answer(
    alloc: Global,
    me: NodeId,
    up: &mut UpNode,
    answer: Answer,
    out: &mut Vec<Output>,
) -> Result<bool, AllocError>
    ensures some { IfOk result (λ some. some ≡ has_first up.old.presidency) }
    ensures plan { OnOk result (Gives (giving_by me up.old answer up.old.presidency) out.old.items (Ok up.new) out.new.items) }
    ensures seat { up.new.seat ≡ up.old.seat }
{
    let epoch = up.seat.session();
    let Some(presidency) = &mut up.presidency else {
        return Ok(false);
    };
    give_in(alloc, me, epoch, &mut up.requests, presidency, answer, out)
}

/// The same, where these requests are here, by this presidency.
fn give_in(
    alloc: Global,
    me: NodeId,
    epoch: Epoch,
    requests: &mut RequestQueue,
    presidency: &mut Presidency,
    answer: Answer,
    out: &mut Vec<Output>,
) -> Result<bool, AllocError>
    ensures some { IfOk result (λ some. some ≡ is_any presidency.old.proposals.arrived) }
    ensures requests { OnOk result (requests.new ≡ requests_after me requests.old (first_in presidency.old.proposals.arrived)) }
    ensures after { OnOk result (presidency.new ≡ record presidency.old { proposals = proposals_after me requests.old presidency.old.proposals answer (first_in presidency.old.proposals.arrived) }) }
    ensures told { OnOk result (out.new.items ≡ out.old.items ++ answer_lines me epoch requests.old answer (first_in presidency.old.proposals.arrived)) }
{
    answer_in(
        alloc,
        me,
        epoch,
        requests,
        &mut presidency.proposals,
        answer,
        out,
    )
}

#[tactic(auto, using(crate::proofs::Answering::nothing_answered))]
/// The same, where these requests are here and have come.
fn answer_in(
    alloc: Global,
    me: NodeId,
    epoch: Epoch,
    requests: &mut RequestQueue,
    proposals: &mut Proposals,
    answer: Answer,
    out: &mut Vec<Output>,
) -> Result<bool, AllocError>
    ensures some { IfOk result (λ some. some ≡ is_any proposals.old.arrived) }
    ensures requests { OnOk result (requests.new ≡ requests_after me requests.old (first_in proposals.old.arrived)) }
    ensures proposals { OnOk result (proposals.new ≡ proposals_after me requests.old proposals.old answer (first_in proposals.old.arrived)) }
    ensures told { OnOk result (out.new.items ≡ out.old.items ++ answer_lines me epoch requests.old answer (first_in proposals.old.arrived)) }
{
    let kept = Bytes::new(answer_text(alloc, &answer)?);
    let Some(first) = proposals.answer(kept) else {
        return Ok(false);
    };
    let (from, number) = (first.from, first.number);
    if from == me {
        answer_own(alloc, me, requests, proposals, number, answer, out)?;
        return Ok(true);
    }
    answer_other(alloc, epoch, from, number, answer, out)?;
    Ok(true)
}

/// The president's own request waits no longer, and its answer is told. The next of its own comes.
fn answer_own(
    alloc: Global,
    me: NodeId,
    requests: &mut RequestQueue,
    proposals: &mut Proposals,
    number: u64,
    answer: Answer,
    out: &mut Vec<Output>,
) -> Result<(), AllocError>
    ensures requests { OnOk result (requests.new ≡ answered requests.old number) }
    ensures proposals { OnOk result (proposals.new ≡ with_own me proposals.old (oldest requests.new)) }
    ensures told { OnOk result (out.new.items ≡ out.old.items ++ own_line me answer (found requests.old.waiting number)) }
{
    let own = requests.answer(number);
    next_own(alloc, me, requests, proposals)?;
    tell_own(me, own, answer, out)
}

/// The answer goes to the node that asked.
fn answer_other(
    alloc: Global,
    epoch: Epoch,
    to: NodeId,
    number: u64,
    answer: Answer,
    out: &mut Vec<Output>,
) -> Result<(), AllocError>
    ensures sent { OnOk result (out.new.items ≡ out.old.items ++ Sends to (body.Answer epoch number (reply_text answer)) ∷ []) }
{
    let text = Bytes::new(answer_text(alloc, &answer)?);
    let body = Body::Answer {
        epoch,
        number,
        text,
    };
    give(out, Output::Sends { to, body })?;
    Ok(())
}

/// The next of the president's own requests comes.
fn next_own(
    alloc: Global,
    me: NodeId,
    requests: &RequestQueue,
    proposals: &mut Proposals,
) -> Result<(), AllocError>
    ensures { OnOk result (proposals.new ≡ with_own me proposals.old (oldest requests.now)) }
{
    let Some(next) = requests.oldest() else {
        return Ok(());
    };
    let request = Arrived {
        from: me,
        number: next.number,
        text: copied(alloc, &next.text)?,
    };
    proposals.arrive(request)?;
    Ok(())
}
