// What a member does for its president.
ghost use Rattle.std.specs.Prelude.{◌≡◌, OnOk};
ghost use Rattle.node_model.specs.Entries.{answering, keeping};
ghost use Rattle.node_model.specs.Plans.{Follows, Gives};
ghost use Rattle.node_model.specs.Plans.Plan.{Stays};
ghost use Rattle.node_model.specs.Updates.{on_commit_as, on_prepare_as};
ghost use Rattle.node_updates.specs.Keeping.{kept_next, kept_tidy};
ghost use Rattle.wire.specs.declared.message.Body.TheVariants as body;

use ccr_commit::Prepared;
use cl_base::{Bytes, Epoch, NodeId};
use node_decisions::tidy;
use node_model::{Cluster, Output, Seat, Stop, UpNode, hand_over, keep, send};
use node_presidents::is_in;
use record_disk::RecordDisk;
use std::alloc::{AllocError, Global};
use wire::Body;

#[tactic(auto, using(node_model::proofs::Plans::gives_follows, crate::proofs::Preparing::taken, crate::proofs::Memory::out_of_memory))]
/// The president asks the member to prepare an update: the member saves it as pending and says so; of
/// what it deletes nothing is kept. What it has already it says again.
pub fn prepare<K: RecordDisk>(
    alloc: Global,
    cluster: &Cluster,
    me: NodeId,
    disk: &mut K,
    mut up: UpNode,
    from: NodeId,
    epoch: Epoch,
    place: u64,
    text: &Bytes,
    out: &mut Vec<Output>,
) -> Result<UpNode, Stop>
    ensures follows { Follows K.saving (on_prepare_as cluster.now me up from epoch place text.now up.seat) out.old.items disk.old result out.new.items disk.new }
{
    if !is_in(&up, epoch) {
        return Ok(up);
    }
    let Seat::Member(node) = &mut up.seat else {
        return Ok(up);
    };
    match node.prepare(place, text.items()) {
        Ok(Prepared::Taken) => keep_tidy(alloc, cluster, me, disk, up, from, epoch, place, out),
        Ok(Prepared::Already) => answer(up, from, epoch, place, out),
        Ok(Prepared::Gap(_)) => Ok(up),
        Err(_) => hand_over(up, Err(Stop::NoMemory)),
    }
}

#[tactic(auto, using(crate::proofs::Preparing::tidied_then, crate::proofs::Memory::out_of_memory))]
/// Of what the update deletes nothing is kept. The member saves what it has taken, and then says so.
fn keep_tidy<K: RecordDisk>(
    alloc: Global,
    cluster: &Cluster,
    me: NodeId,
    disk: &mut K,
    mut up: UpNode,
    from: NodeId,
    epoch: Epoch,
    place: u64,
    out: &mut Vec<Output>,
) -> Result<UpNode, Stop>
    ensures plan { Follows K.saving (kept_next cluster.now me from epoch place up) out.old.items disk.old result out.new.items disk.new }
{
    match tidy_up(alloc, cluster, &mut up) {
        Ok(()) => keep_next(alloc, me, disk, up, from, epoch, place, out),
        Err(_) => hand_over(up, Err(Stop::NoMemory)),
    }
}

/// Nothing is kept of what the update deletes.
fn tidy_up(alloc: Global, cluster: &Cluster, up: &mut UpNode) -> Result<(), AllocError>
    ensures after { OnOk result (up.new ≡ kept_tidy cluster.now up.old) }
{
    tidy(alloc, cluster, up)
}

#[tactic(auto, using(crate::proofs::Memory::not_kept))]
/// The member saves what it has taken as pending, and then says so.
fn keep_next<K: RecordDisk>(
    alloc: Global,
    me: NodeId,
    disk: &mut K,
    up: UpNode,
    from: NodeId,
    epoch: Epoch,
    place: u64,
    out: &mut Vec<Output>,
) -> Result<UpNode, Stop>
    ensures plan { Follows K.saving (keeping me up (answering from (body.Prepared epoch place) up)) out.old.items disk.old result out.new.items disk.new }
{
    match keep(alloc, me, disk, &up.seat, out) {
        Ok(()) => answer(up, from, epoch, place, out),
        Err(stop) => hand_over(up, Err(stop)),
    }
}

#[tactic(auto, using(crate::proofs::Memory::gives_stopped))]
/// The member has prepared the update at this place.
fn answer(
    up: UpNode,
    from: NodeId,
    epoch: Epoch,
    place: u64,
    out: &mut Vec<Output>,
) -> Result<UpNode, Stop>
    ensures plan { Gives (answering from (body.Prepared epoch place) up) out.old.items result out.new.items }
{
    match send(out, from, Body::Prepared { epoch, place }) {
        Ok(()) => Ok(up),
        Err(stop) => hand_over(up, Err(stop)),
    }
}

/// The update at this place is committed: the member saves that, where it is what is pending.
pub fn commit<K: RecordDisk>(
    alloc: Global,
    me: NodeId,
    disk: &mut K,
    mut up: UpNode,
    epoch: Epoch,
    place: u64,
    out: &mut Vec<Output>,
) -> Result<UpNode, Stop>
    ensures follows { Follows K.saving (on_commit_as me up epoch place up.seat) out.old.items disk.old result out.new.items disk.new }
{
    if !is_in(&up, epoch) {
        return Ok(up);
    }
    let Seat::Member(node) = &mut up.seat else {
        return Ok(up);
    };
    if node.commit(place) {
        return keep_as_is(alloc, me, disk, up, out);
    }
    Ok(up)
}

#[tactic(auto, using(crate::proofs::Memory::not_kept))]
/// The member saves its record as it is now.
fn keep_as_is<K: RecordDisk>(
    alloc: Global,
    me: NodeId,
    disk: &mut K,
    up: UpNode,
    out: &mut Vec<Output>,
) -> Result<UpNode, Stop>
    ensures plan { Follows K.saving (keeping me up (Stays up)) out.old.items disk.old result out.new.items disk.new }
{
    match keep(alloc, me, disk, &up.seat, out) {
        Ok(()) => Ok(up),
        Err(stop) => hand_over(up, Err(stop)),
    }
}
