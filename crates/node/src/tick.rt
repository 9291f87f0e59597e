// A tick of a node.
ghost use Rattle.std.specs.Prelude.{◌≡◌, ◌<◌, ◌/◌, ◌^◌, ◌++◌, ◌∷◌, [], map, true, OnOk, IfOk, IfSome};
ghost use Rattle.cl_base.specs.Sets.{has};
ghost use Rattle.cl_base.specs.declared.method.Outcome.{Outcome};
ghost use Rattle.status_report.specs.declared.entry.Entry.TheVariants as trace;
ghost use Rattle.status_report.specs.declared.node_entry.NodeEntry.TheVariants as note;
ghost use Rattle.node_model.specs.declared.input.Input.TheVariants.{Tick};
ghost use Rattle.node_model.specs.declared.output.Output.TheVariants.{Tells};
ghost use Rattle.node_model.specs.Plans.{Follows};
ghost use Rattle.node_model.specs.Ticks.{attempt_ticked, members_to_form, later, membership_of, ticked_output};
ghost use Rattle.node.specs.Due.{MayBegin, MayFollow, attempt_rest, going_on_with, rest_of};
ghost use Rattle.node.specs.Ticks.{left_of};

use crate::configured::configured_at;
use crate::due::{AttemptDue, Due};
use crate::handing::hand_back;
use cl_base::{NodeId, NodeSet};
use heartbeats::Membership;
use node_attempts::{go_on, lead};
use node_heartbeats::send_heartbeats;
use node_model::{Cluster, Output, Seat, Stop, UpNode, give};
use node_updates::tick_requests;
use record_disk::RecordDisk;
use status_report::{Entry, NodeEntry};
use std::alloc::{AllocError, Global};

/// The node's clock ticks: it takes its view anew, sends its heartbeats, and sends its oldest request
/// again, if that is due. What is then left to do is told.
#[tactic(auto, using(crate::proofs::Again::told_at_tick, crate::proofs::Left::governs_rest, crate::proofs::Left::attempts_rest))]
pub(crate) fn tick(
    alloc: Global,
    cluster: &Cluster,
    me: NodeId,
    up: &mut UpNode,
    out: &mut Vec<Output>,
) -> Result<Due, AllocError>
    ensures told { OnOk result (out.new.items ≡ (out.old.items ++ Tells (trace.Node me note.Ticked) ∷ []) ++ ticked_output cluster.now up.old (later cluster.now up.old)) }
    ensures rest { IfOk result (λ due. (outcome : Outcome) → left_of cluster.now me outcome up.old up.old.presidency ≡ rest_of cluster.now me outcome up.new Tick due) }
    ensures ready { IfOk result (λ due. MayFollow me up.new due) }
{
    let entry = Entry::Node {
        node: me,
        entry: NodeEntry::Ticked,
    };
    give(out, Output::Tells(entry))?;
    let configured = configured_at(alloc, cluster, up)?;
    up.beats.tick(configured);
    send_heartbeats(alloc, configured, up, out)?;
    let again = tick_requests(alloc, up, out)?;
    if up.presidency.is_some() {
        return Ok(Due::Govern(again));
    }
    Ok(Due::Attempt(attempt_due(alloc, cluster, me, up)?))
}

/// What is due of attempts. Without one the node waits, or begins one.
pub(crate) fn attempt_due(
    alloc: Global,
    cluster: &Cluster,
    me: NodeId,
    up: &mut UpNode,
) -> Result<AttemptDue, AllocError>
    ensures rest { IfOk result (λ due. attempt_ticked cluster.now me up.old up.old.attempt ≡ attempt_rest cluster.now me up.new due) }
    ensures ready { IfOk result (λ due. MayBegin me up.new due) }
{
    if up.attempt.get().is_some() {
        return Ok(AttemptDue::GoesOn);
    }
    if up.beats.waits() {
        return Ok(AttemptDue::Nothing);
    }
    match members_to_form(alloc, cluster, me, up)? {
        Some(members) => Ok(AttemptDue::Begins(members)),
        None => Ok(AttemptDue::Nothing),
    }
}

/// What is due of attempts is done.
pub(crate) fn tick_attempt<K: RecordDisk>(
    alloc: Global,
    cluster: &Cluster,
    me: NodeId,
    disk: &mut K,
    up: UpNode,
    due: AttemptDue,
    out: &mut Vec<Output>,
) -> Result<UpNode, Stop>
    requires ready { MayBegin me up due }
    ensures { Follows K.saving (attempt_rest cluster.now me up due) out.old.items disk.old result out.new.items disk.new }
{
    match due {
        AttemptDue::Nothing => Ok(up),
        AttemptDue::GoesOn => go_on_with(alloc, cluster, me, disk, up, out),
        AttemptDue::Begins(members) => lead(alloc, cluster, me, disk, up, members, out),
    }
}

/// The attempt that is under way has a tick.
fn go_on_with<K: RecordDisk>(
    alloc: Global,
    cluster: &Cluster,
    me: NodeId,
    disk: &mut K,
    mut up: UpNode,
    out: &mut Vec<Output>,
) -> Result<UpNode, Stop>
    ensures { Follows K.saving (going_on_with cluster.now me up up.attempt) out.old.items disk.old result out.new.items disk.new }
{
    let Some(mut attempt) = up.attempt.take() else {
        return Ok(up);
    };
    match attempt.tick() {
        Ok(steps) => go_on(alloc, cluster, me, disk, up, attempt, steps, out),
        Err(_) => hand_back(up, Err(AllocError)),
    }
}

/// The members of the attempt that the node is to begin, if it is to.
fn members_to_form(
    alloc: Global,
    cluster: &Cluster,
    me: NodeId,
    up: &mut UpNode,
) -> Result<Option<NodeSet>, AllocError>
    ensures value { IfOk result (λ formed. formed ≡ members_to_form cluster.now me up.old) }
    ensures member { IfOk result (λ formed. IfSome formed (λ members. has members me ≡ true)) }
    ensures count { IfOk result (λ formed. IfSome formed (λ members. up.old.greatest / 64 < 2 ^ 56)) }
    ensures same { up.new ≡ up.old }
{
    let Some(view) = up.beats.view() else {
        return Ok(None);
    };
    let configured = configured_at(alloc, cluster, up)?;
    let begins = up.beats.begins(configured, membership(&up.seat));
    if up.greatest.number() / 64 < 1 << 56 && begins && view.has(me) {
        Ok(Some(view))
    } else {
        Ok(None)
    }
}

fn membership(seat: &Seat) -> Option<Membership>
    ensures { result ≡ membership_of seat.now }
{
    match seat {
        Seat::Forming(_) => None,
        Seat::Member(node) => Some(Membership {
            epoch: node.session(),
            members: node.members(),
        }),
    }
}
