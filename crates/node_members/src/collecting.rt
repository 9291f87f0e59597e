// A Collect: the node promises its epoch, or refuses it.
ghost use Rattle.std.specs.Prelude.{◌≡◌, ◌<◌};
ghost use Rattle.node_model.specs.Members.{on_collect, rested_by};
ghost use Rattle.node_model.specs.Plans.{Follows, Gives};
ghost use Rattle.node_model.specs.Seats.{promised_of};
ghost use Rattle.node_model.specs.Left.{left_so};
ghost use Rattle.node_members.specs.Promises.{answered_again, epoch_of, leaving, promise_answered, without_session};

use cl_base::{Epoch, NodeId};
use node_acts::{end_requests, promise_body};
use node_model::{Output, Seat, Stop, UpNode, hand_over, keep, send, tell};
use record_disk::RecordDisk;
use status_report::{AttemptEntry, Entry};
use std::alloc::Global;
use wire::Body;

/// The node is asked to take part in the attempt of epoch p.
pub fn collect<K: RecordDisk>(
    alloc: Global,
    me: NodeId,
    disk: &mut K,
    up: UpNode,
    from: NodeId,
    p: Epoch,
    out: &mut Vec<Output>,
) -> Result<UpNode, Stop>
    ensures follows { Follows K.saving (on_collect me up from p) out.old.items disk.old result out.new.items disk.new }
{
    if up.seat.promised() < p {
        return promise(alloc, me, disk, up, from, p, out);
    }
    let answered = answer_again(alloc, &up, from, p, out);
    hand_over(up, answered)
}

/// The node, which has promised p or more, answers: its session's promise again, or a refusal.
fn answer_again(
    alloc: Global,
    up: &UpNode,
    from: NodeId,
    p: Epoch,
    out: &mut Vec<Output>,
) -> Result<(), Stop>
    ensures { Gives (answered_again up.now from p) out.old.items (left_so up.now result) out.new.items }
{
    let body = if p != Epoch::zero() && up.seat.session() == p {
        promise_body(alloc, &up.seat, &up.worker, p)?
    } else {
        Body::Nack {
            epoch: p,
            promised: up.seat.promised(),
        }
    };
    send(out, from, body)
}

/// The node promises p, saves it and answers. An attempt of its own is superseded.
fn promise<K: RecordDisk>(
    alloc: Global,
    me: NodeId,
    disk: &mut K,
    mut up: UpNode,
    from: NodeId,
    p: Epoch,
    out: &mut Vec<Output>,
) -> Result<UpNode, Stop>
    requires smaller { promised_of up < p }
    ensures { Follows K.saving (on_collect me up from p) out.old.items disk.old result out.new.items disk.new }
{
    let Ok(node) = up.seat.promise(p) else {
        unreachable!()
    };
    up.seat = Seat::Forming(node);
    let left = leave_session(alloc, me, disk, &mut up, from, p, out);
    hand_over(up, left)
}

/// The node, which has promised p, saves that, and gives up what was under way.
#[tactic(auto, using(node_model::proofs::Plans::gives_follows))]
fn leave_session<K: RecordDisk>(
    alloc: Global,
    me: NodeId,
    disk: &mut K,
    up: &mut UpNode,
    from: NodeId,
    p: Epoch,
    out: &mut Vec<Output>,
) -> Result<(), Stop>
    ensures { Follows K.saving (leaving me up.old from p) out.old.items disk.old (left_so up.new result) out.new.items disk.new }
{
    keep(alloc, me, disk, &up.seat, out)?;
    let Some(epoch) = give_up(up) else {
        return answer_promise(alloc, me, up, from, p, out);
    };
    let ended = AttemptEntry::Superseded { epoch, by: p };
    tell(out, Entry::Attempt(ended))?;
    answer_promise(alloc, me, up, from, p, out)
}

/// What was under way is over: the tasks, the presidency, and the attempt, whose epoch is told.
fn give_up(up: &mut UpNode) -> Option<Epoch>
    ensures epoch { result ≡ epoch_of up.old.attempt }
    ensures after { up.new ≡ rested_by (without_session up.old) up.old.attempt }
{
    up.tasks.clear();
    up.presidency = None;
    let Some(attempt) = up.attempt.take() else {
        return None;
    };
    let epoch = attempt.epoch();
    up.beats.attempt_ended();
    Some(epoch)
}

/// The node, which has promised p, answers. What waited is unknown.
fn answer_promise(
    alloc: Global,
    me: NodeId,
    up: &mut UpNode,
    from: NodeId,
    p: Epoch,
    out: &mut Vec<Output>,
) -> Result<(), Stop>
    ensures { Gives (promise_answered me up.old from p) out.old.items (left_so up.new result) out.new.items }
{
    end_requests(alloc, me, &mut up.requests, out)?;
    send(out, from, promise_body(alloc, &up.seat, &up.worker, p)?)
}
