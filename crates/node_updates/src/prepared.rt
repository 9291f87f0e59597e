// Members tell the president that they have prepared its update.
ghost use Rattle.std.specs.Prelude.{◌≡◌, ℕ, true};
ghost use Rattle.node_model.specs.declared.cluster.Cluster.{Cluster};
ghost use Rattle.node_model.specs.Plans.{Follows};
ghost use Rattle.node_model.specs.Seats.{is_member};
ghost use Rattle.node_model.specs.Updates.{on_prepared};
ghost use Rattle.node_updates.specs.Preparing.{goes_on};
ghost use Rattle.proposals.specs.Proposing.{is_prepared, prepared_by};

use cl_base::{Epoch, NodeId};
use node_model::{Cluster, Output, Presidency, Stop, UpNode};
use node_presidents::{acknowledge, handle, is_of_member};
use record_disk::RecordDisk;
use std::alloc::Global;

#[tactic(auto, unfolding(crate::specs::Preparing::goes_on))]
/// A member of this membership has prepared the update at this place: with the last one the president
/// acknowledges it, and goes on with what waits.
pub fn take_prepared<K: RecordDisk>(
    alloc: Global,
    cluster: &Cluster,
    me: NodeId,
    disk: &mut K,
    mut up: UpNode,
    from: NodeId,
    epoch: Epoch,
    place: u64,
    out: &mut Vec<Output>,
) -> Result<UpNode, Stop>
    ensures follows { Follows K.saving (on_prepared cluster.now me up from epoch place) out.old.items disk.old result out.new.items disk.new }
{
    if is_last(&mut up, from, epoch, place) {
        return go_on(alloc, cluster, me, disk, up, out);
    }
    Ok(up)
}

#[tactic(auto, using(crate::proofs::LastPrepared::of_another, crate::proofs::LastPrepared::of_none, crate::proofs::LastPrepared::of_president))]
/// The member has prepared the update. Whether the president can go on.
fn is_last(up: &mut UpNode, from: NodeId, epoch: Epoch, place: u64) -> bool
    ensures plan { (c : Cluster) (me : ℕ) → on_prepared c me up.old from epoch place ≡ goes_on c me up.new result }
    ensures member { result ≡ true → is_member up.new.seat ≡ true }
{
    if !is_of_member(up, from, epoch) {
        return false;
    }
    let Some(presidency) = &mut up.presidency else {
        return false;
    };
    prepared_in(presidency, from, place)
}

/// The same, of this presidency: whether every member has prepared the update.
fn prepared_in(presidency: &mut Presidency, from: NodeId, place: u64) -> bool
    ensures after { presidency.new ≡ record presidency.old { proposals = prepared_by presidency.old.proposals from place } }
    ensures value { result ≡ is_prepared presidency.new.proposals }
{
    presidency.proposals.prepared(from, place);
    presidency.proposals.is_prepared()
}

#[tactic(auto, using(crate::proofs::LastPrepared::then_handles, crate::proofs::LastPrepared::stops_there))]
/// The president acknowledges the update, and goes on with what waits.
fn go_on<K: RecordDisk>(
    alloc: Global,
    cluster: &Cluster,
    me: NodeId,
    disk: &mut K,
    up: UpNode,
    out: &mut Vec<Output>,
) -> Result<UpNode, Stop>
    requires member { is_member up.seat ≡ true }
    ensures plan { Follows K.saving (goes_on cluster.now me up true) out.old.items disk.old result out.new.items disk.new }
{
    match acknowledge(alloc, cluster, me, disk, up, out) {
        Ok(up) => handle(alloc, cluster, me, disk, up, out),
        Err(stop) => Err(stop),
    }
}
