// An update is proposed, and acknowledged once every member has prepared it.
ghost use Rattle.std.specs.Prelude.{◌≡◌, ◌++◌, ◌∷◌, [], None, Ok, IfErr, ◌<◌, ◌-◌, ◌^◌, true, length, OnOk, IfOk, IsSome};
ghost use Rattle.ccr_commit.specs.Entries.{all_committed, texts_of, with_next};
ghost use Rattle.cmm_member.specs.Nodes.{with_entries};
ghost use Rattle.wire.specs.declared.message.Body.TheVariants as body;
ghost use Rattle.node_model.specs.Plans.{Follows, Gives, KeepFails};
ghost use Rattle.node_model.specs.Presidents.{acknowledging, sent_to};
ghost use Rattle.node_model.specs.Seats.{is_member, state_of, with_state};
ghost use Rattle.node_presidents.specs.Presidents.{acknowledged_line, acknowledgement, announcing, asked_of, committed_then, holding_next, pending_by, proposal, proposed_line, saved_line};
ghost use Rattle.node_model.specs.Left.{left_so};

use crate::answers::answer_first;
use crate::sending::{send_commits, send_prepares};
use crate::taking::take_up;
use crate::telling::copied;
use cl_base::{Bytes, Epoch, NodeId, NodeSet};
use node_decisions::tidy;
use node_model::{Cluster, Output, Seat, Stop, UpNode, give, hand_over, keep};
use record_disk::RecordDisk;
use status_report::{Answer, Entry, UpdateEntry};
use std::alloc::{AllocError, Global};

/// The update in these words is proposed for the first request: it is told, saved as pending, and sent to
/// the other members. Of what it deletes nothing is kept. A president alone acknowledges it at once.
pub fn propose<K: RecordDisk>(
    alloc: Global,
    cluster: &Cluster,
    me: NodeId,
    disk: &mut K,
    up: &mut UpNode,
    text: Bytes,
    out: &mut Vec<Output>,
) -> Result<(), Stop>
    requires member { is_member up.old.seat ≡ true }
    ensures plan { Follows K.saving (proposal cluster.now me up.old text up.old.presidency) out.old.items disk.old (left_so up.new result) out.new.items disk.new }
    ensures member { OnOk result (is_member up.new.seat ≡ true) }
{
    let Some(_) = &up.presidency else {
        return Ok(());
    };
    let epoch = up.seat.session();
    let place = last_place(&up.seat) + 1;
    let others = up.seat.members().without(me);
    tell_proposed(alloc, epoch, place, &text, out)?;
    hold_next(alloc, cluster, up, &text)?;
    ask_members(up, place, others);
    keep_and_send(alloc, me, disk, &up.seat, others, epoch, place, &text, out)?;
    if others == NodeSet::empty() {
        return acknowledge_held(alloc, cluster, me, disk, up, out);
    }
    Ok(())
}

fn tell_proposed(
    alloc: Global,
    epoch: Epoch,
    place: u64,
    text: &Bytes,
    out: &mut Vec<Output>,
) -> Result<(), AllocError>
    ensures told { OnOk result (out.new.items ≡ out.old.items ++ proposed_line epoch place text.now ∷ []) }
{
    let words = copied(alloc, text)?;
    let entry = UpdateEntry::Proposed {
        epoch,
        place,
        words,
    };
    give(out, Output::Tells(Entry::Update(entry)))?;
    Ok(())
}

#[tactic(auto, unfolding(crate::specs::Presidents::holding_next))]
/// The update is pending. Of what it deletes nothing is kept.
fn hold_next(
    alloc: Global,
    cluster: &Cluster,
    up: &mut UpNode,
    text: &Bytes,
) -> Result<(), AllocError>
    requires member { is_member up.old.seat ≡ true }
    ensures after { OnOk result (up.new ≡ holding_next cluster.now up.old text.now) }
    ensures member { OnOk result (is_member up.new.seat ≡ true) }
{
    take_next(&mut up.seat, text)?;
    tidy(alloc, cluster, up)
}

/// These members are to prepare an update at this place.
fn ask_members(up: &mut UpNode, place: u64, others: NodeSet)
    ensures after { up.new ≡ asked_of up.old place others up.old.presidency }
    ensures seat { up.new.seat ≡ up.old.seat }
{
    if let Some(presidency) = &mut up.presidency {
        presidency.proposals.propose(place, others);
    }
}

/// The president saves what is proposed, and only then sends it.
fn keep_and_send<K: RecordDisk>(
    alloc: Global,
    me: NodeId,
    disk: &mut K,
    seat: &Seat,
    others: NodeSet,
    epoch: Epoch,
    place: u64,
    text: &Bytes,
    out: &mut Vec<Output>,
) -> Result<(), Stop>
    ensures saved { OnOk result ((K.saving disk.old (state_of seat.now).saved).lost ≡ None) }
    ensures left { OnOk result (disk.new ≡ (K.saving disk.old (state_of seat.now).saved).after) }
    ensures told { OnOk result (out.new.items ≡ (out.old.items ++ saved_line me ∷ []) ++ sent_to others (body.Prepare epoch place text.now)) }
    ensures lost { IfErr result (KeepFails (K.saving disk.old (state_of seat.now).saved) out.old.items out.new.items disk.new) }
{
    keep(alloc, me, disk, seat, out)?;
    send_prepares(alloc, others, epoch, place, text, out)?;
    Ok(())
}

#[tactic(auto, unfolding(crate::specs::Presidents::acknowledgement))]
/// Every member has prepared what is pending: it is committed and saved, and told; the president takes it
/// up, answers its request and decides.
pub fn acknowledge<K: RecordDisk>(
    alloc: Global,
    cluster: &Cluster,
    me: NodeId,
    disk: &mut K,
    mut up: UpNode,
    out: &mut Vec<Output>,
) -> Result<UpNode, Stop>
    requires member { is_member up.seat ≡ true }
    ensures plan { Follows K.saving (acknowledging cluster.now me up) out.old.items disk.old result out.new.items disk.new }
    ensures member { IfOk result (λ after. is_member after.seat ≡ true) }
{
    let done = acknowledge_held(alloc, cluster, me, disk, &mut up, out);
    hand_over(up, done)
}

#[tactic(auto, using(crate::proofs::Acknowledging::follows_acknowledgement, crate::proofs::Acknowledging::nothing_pending, crate::proofs::Acknowledging::is_pending))]
/// The same, by a node that the caller has in hand.
fn acknowledge_held<K: RecordDisk>(
    alloc: Global,
    cluster: &Cluster,
    me: NodeId,
    disk: &mut K,
    up: &mut UpNode,
    out: &mut Vec<Output>,
) -> Result<(), Stop>
    requires member { is_member up.old.seat ≡ true }
    ensures plan { Follows K.saving (acknowledgement cluster.now me up.old) out.old.items disk.old (left_so up.new result) out.new.items disk.new }
    ensures member { OnOk result (is_member up.new.seat ≡ true) }
{
    match to_acknowledge(alloc, up)? {
        Some(text) => acknowledge_text(alloc, cluster, me, disk, up, text, out),
        None => Ok(()),
    }
}

/// The update that is pending, where there is a request to be answered for it.
fn to_acknowledge(alloc: Global, up: &UpNode) -> Result<Option<Bytes>, AllocError>
    ensures value { IfOk result (λ found. found ≡ pending_by up.now up.now.presidency) }
{
    let Some(presidency) = &up.presidency else {
        return Ok(None);
    };
    if presidency.proposals.first().is_none() {
        return Ok(None);
    }
    match up.seat.entries().pending() {
        Some(text) => Ok(Some(copied(alloc, text)?)),
        None => Ok(None),
    }
}

#[tactic(auto, using(crate::proofs::Acknowledging::committed_and_told, crate::proofs::Acknowledging::commit_lost))]
fn acknowledge_text<K: RecordDisk>(
    alloc: Global,
    cluster: &Cluster,
    me: NodeId,
    disk: &mut K,
    up: &mut UpNode,
    text: Bytes,
    out: &mut Vec<Output>,
) -> Result<(), Stop>
    requires member { is_member up.old.seat ≡ true }
    requires pending { IsSome (state_of up.old.seat).saved.entries.pending }
    ensures plan { Follows K.saving (committed_then cluster.now me up.old text) out.old.items disk.old (left_so up.new result) out.new.items disk.new }
    ensures member { OnOk result (is_member up.new.seat ≡ true) }
{
    let epoch = up.seat.session();
    let place = last_place(&up.seat);
    let others = up.seat.members().without(me);
    commit_pending(&mut up.seat);
    keep(alloc, me, disk, &up.seat, out)?;
    announce(alloc, cluster, me, up, epoch, place, others, text, out)?;
    Ok(())
}

#[tactic(auto, using(crate::proofs::Acknowledging::announced))]
/// What is committed is taken up and told, and the request for it answered.
fn announce(
    alloc: Global,
    cluster: &Cluster,
    me: NodeId,
    up: &mut UpNode,
    epoch: Epoch,
    place: u64,
    others: NodeSet,
    text: Bytes,
    out: &mut Vec<Output>,
) -> Result<(), AllocError>
    ensures plan { OnOk result (Gives (announcing cluster.now me up.old epoch place others text) out.old.items (Ok up.new) out.new.items) }
    ensures seat { up.new.seat ≡ up.old.seat }
{
    take_up(alloc, cluster, up, &text)?;
    tell_acknowledged(alloc, others, epoch, place, text, out)?;
    answer_first(alloc, cluster, me, up, Answer::Ok, out)
}

/// The update is acknowledged, and the other members told that it is committed.
fn tell_acknowledged(
    alloc: Global,
    others: NodeSet,
    epoch: Epoch,
    place: u64,
    words: Bytes,
    out: &mut Vec<Output>,
) -> Result<(), AllocError>
    ensures told { OnOk result (out.new.items ≡ (out.old.items ++ acknowledged_line epoch place words ∷ []) ++ sent_to others (body.Commit epoch place)) }
{
    let entry = UpdateEntry::Acknowledged {
        epoch,
        place,
        words,
    };
    give(out, Output::Tells(Entry::Update(entry)))?;
    send_commits(alloc, others, epoch, place, out)
}

/// The place of the last update.
pub fn last_place(seat: &Seat) -> u64
    ensures value { result ≡ length (texts_of (state_of seat.now).saved.entries) }
    ensures most { result < 2 ^ 64 - 1 }
{
    let entries = seat.entries();
    let committed = entries.committed().len() as u64;
    if entries.pending().is_some() {
        committed + 1
    } else {
        committed
    }
}

/// A member takes the update as its next.
fn take_next(seat: &mut Seat, text: &Bytes) -> Result<(), AllocError>
    requires member { is_member seat.old ≡ true }
    ensures after { OnOk result (seat.new ≡ with_state seat.old (with_entries (state_of seat.old) (with_next (state_of seat.old).saved.entries text.now))) }
    ensures member { is_member seat.new ≡ true }
{
    let place = last_place(seat) + 1;
    if let Seat::Member(node) = seat {
        node.prepare(place, text.items())?;
    }
    Ok(())
}

/// A member commits what is pending.
fn commit_pending(seat: &mut Seat)
    requires member { is_member seat.old ≡ true }
    requires pending { IsSome (state_of seat.old).saved.entries.pending }
    ensures after { seat.new ≡ with_state seat.old (with_entries (state_of seat.old) (all_committed (state_of seat.old).saved.entries)) }
    ensures member { is_member seat.new ≡ true }
{
    let place = last_place(seat);
    if let Seat::Member(node) = seat {
        node.commit(place);
    }
}
