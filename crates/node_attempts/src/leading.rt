// A node begins an attempt.
ghost use Rattle.std.specs.Prelude.{◌≡◌, ◌<◌, ◌/◌, ◌%◌, ◌^◌, ◌++◌, ◌∷◌, [], None, true, IfOk, OnOk, IfErr};
ghost use Rattle.cl_base.specs.Sets.{has};
ghost use Rattle.request_queue.specs.Queue.{ended};
ghost use Rattle.cmm_attempt.specs.Attempts.{beginning, with_steps};
ghost use Rattle.status_report.specs.declared.attempt_entry.AttemptEntry.TheVariants as attempt;
ghost use Rattle.status_report.specs.declared.entry.Entry.TheVariants as trace;
ghost use Rattle.status_report.specs.declared.node_entry.NodeEntry.TheVariants as note;
ghost use Rattle.node_model.specs.declared.output.Output.TheVariants.{Tells};
ghost use Rattle.node_model.specs.Attempts.{leading, led, own_promise};
ghost use Rattle.node_model.specs.Entries.{unknown_lines};
ghost use Rattle.node_model.specs.Plans.{Follows, KeepFails};
ghost use Rattle.node_model.specs.Seats.{record_of};
ghost use Rattle.node_attempts.specs.Told.{asking_none};

use crate::performing::go_on;
use cl_base::{Epoch, NodeId, NodeSet};
use cmm_attempt::{AttachedDevices, Attempt, Steps};
use node_acts::{end_requests, promise_body};
use node_model::{Cluster, Output, Seat, Slot, Stop, UpNode, hand_over, keep, tell};
use record_disk::RecordDisk;
use status_report::{AttemptEntry, Entry};
use std::alloc::{AllocError, Global};
use wire::Message;

/// The node begins an attempt to form a membership of these nodes, of which it is one: it promises the
/// next epoch above the greatest that it has seen, and leads the attempt.
pub fn lead<K: RecordDisk>(
    alloc: Global,
    cluster: &Cluster,
    me: NodeId,
    disk: &mut K,
    mut up: UpNode,
    members: NodeSet,
    out: &mut Vec<Output>,
) -> Result<UpNode, Stop>
    requires count { up.greatest / 64 < 2 ^ 56 }
    requires member { has members me ≡ true }
    ensures follows { Follows K.saving (leading cluster.now me up members) out.old.items disk.old result out.new.items disk.new }
{
    let epoch = up.greatest.next_above(me);
    match up.seat.promise(epoch) {
        Ok(node) => {
            up.seat = Seat::Forming(node);
            leave(&mut up, epoch);
            begin_attempt(alloc, cluster, me, disk, up, epoch, members, out)
        }
        // The greatest epoch seen is never below the promise.
        Err(seat) => {
            up.seat = seat;
            Ok(up)
        }
    }
}

/// The node has seen this epoch. Its tasks are gone, and it has no attempt and no presidency.
fn leave(up: &mut UpNode, epoch: Epoch)
    ensures { up.new ≡ record up.old { greatest = epoch; tasks = []; attempt = None; presidency = None } }
{
    up.greatest = epoch;
    up.tasks.clear();
    up.attempt = Slot::empty();
    up.presidency = None;
}

#[tactic(auto, using(crate::proofs::StartLemmas::leads, crate::proofs::StartLemmas::not_kept))]
fn begin_attempt<K: RecordDisk>(
    alloc: Global,
    cluster: &Cluster,
    me: NodeId,
    disk: &mut K,
    mut up: UpNode,
    epoch: Epoch,
    members: NodeSet,
    out: &mut Vec<Output>,
) -> Result<UpNode, Stop>
    requires coordinator { epoch % 64 ≡ me }
    requires member { has members me ≡ true }
    ensures { Follows K.saving (led cluster.now me (record up { requests = ended up.requests }) up.requests.waiting epoch members) out.old.items disk.old result out.new.items disk.new }
{
    match first_turn(alloc, cluster, me, disk, &mut up, epoch, members, out) {
        Ok((attempt, steps)) => go_on(alloc, cluster, me, disk, up, attempt, steps, out),
        Err(stop) => hand_over(up, Err(stop)),
    }
}

/// The promise is saved, the attempt is told, and the requests end.
fn first_turn<K: RecordDisk>(
    alloc: Global,
    cluster: &Cluster,
    me: NodeId,
    disk: &mut K,
    up: &mut UpNode,
    epoch: Epoch,
    members: NodeSet,
    out: &mut Vec<Output>,
) -> Result<(Attempt, Steps), Stop>
    requires coordinator { epoch % 64 ≡ me }
    requires member { has members me ≡ true }
    ensures saved { OnOk result ((K.saving disk.old (record_of up.old)).lost ≡ None) }
    ensures left { OnOk result (disk.new ≡ (K.saving disk.old (record_of up.old)).after) }
    ensures told { OnOk result (out.new.items ≡ ((out.old.items ++ Tells (trace.Node me note.Saved) ∷ []) ++ Tells (trace.Attempt (attempt.Begun epoch members)) ∷ []) ++ unknown_lines me up.old.requests.waiting) }
    ensures after { OnOk result (up.new ≡ asking_none up.old) }
    ensures turn { IfOk result (λ r. with_steps r.0 r.1 ≡ beginning epoch members (own_promise me up.old epoch) cluster.now.attached cluster.now.id) }
    ensures lost { IfErr result (KeepFails (K.saving disk.old (record_of up.old)) out.old.items out.new.items disk.new) }
{
    keep(alloc, me, disk, &up.seat, out)?;
    tell(out, Entry::Attempt(AttemptEntry::Begun { epoch, members }))?;
    end_requests(alloc, me, &mut up.requests, out)?;
    Ok(first_steps(alloc, cluster, me, up, epoch, members)?)
}

/// The attempt, as it begins with the node's own promise.
fn first_steps(
    alloc: Global,
    cluster: &Cluster,
    me: NodeId,
    up: &UpNode,
    epoch: Epoch,
    members: NodeSet,
) -> Result<(Attempt, Steps), AllocError>
    requires coordinator { epoch % 64 ≡ me }
    requires member { has members me ≡ true }
    ensures { IfOk result (λ r. with_steps r.0 r.1 ≡ beginning epoch members (own_promise me up.now epoch) cluster.now.attached cluster.now.id) }
{
    let own = Message {
        sender: me,
        body: promise_body(alloc, &up.seat, &up.worker, epoch)?,
    };
    let attached = AttachedDevices::new(cluster.attached.items().to_vec(alloc)?);
    Attempt::begin(alloc, epoch, members, own, attached, cluster.id)
}
