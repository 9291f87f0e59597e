// A request comes to the president.
ghost use Rattle.std.specs.Prelude.{◌≡◌, Ok, IfOk, OnOk, true};
ghost use Rattle.node_model.specs.Plans.{Follows, Gives};
ghost use Rattle.node_model.specs.Seats.{is_member};
ghost use Rattle.node_model.specs.Updates.{on_asked};
ghost use Rattle.proposals.specs.Arrivals.{arrival_of, with_arrival};
ghost use Rattle.node_presidents.specs.Presidents.{answer_again_by, arrival_by, arriving_by, come_to, is_new, receiving};

use crate::members::is_of_member;
use crate::telling::copied;
use crate::turns::handle;
use cl_base::{Bytes, Epoch, NodeId};
use node_model::{Cluster, Output, Presidency, Stop, UpNode, give, hand_over};
use proposals::{Arrival, Arrived};
use record_disk::RecordDisk;
use std::alloc::{AllocError, Global};
use wire::Body;

#[tactic(auto, using(crate::proofs::Come::asked_then, crate::proofs::Come::nobody_asks, crate::proofs::Come::member_asks, crate::proofs::Come::no_memory))]
/// A member of this membership asks the president for what the text says.
pub fn take_request<K: RecordDisk>(
    alloc: Global,
    cluster: &Cluster,
    me: NodeId,
    disk: &mut K,
    up: UpNode,
    from: NodeId,
    epoch: Epoch,
    number: u64,
    text: &Bytes,
    out: &mut Vec<Output>,
) -> Result<UpNode, Stop>
    ensures follows { Follows K.saving (on_asked cluster.now me up from epoch number text.now) out.old.items disk.old result out.new.items disk.new }
{
    if !is_of_member(&up, from, epoch) {
        return Ok(up);
    }
    match copied(alloc, text) {
        Ok(text) => {
            let request = Arrived { from, number, text };
            arrive(alloc, cluster, me, disk, up, request, out)
        }
        Err(_) => hand_over(up, Err(Stop::NoMemory)),
    }
}

#[tactic(auto, using(crate::proofs::Come::handled_then, crate::proofs::Come::nothing_follows, crate::proofs::Come::no_memory))]
/// A request comes to the president: a new one waits for its turn, the last that was answered gets its
/// answer again, and any other is passed over. A node that is no president does nothing with it.
pub fn arrive<K: RecordDisk>(
    alloc: Global,
    cluster: &Cluster,
    me: NodeId,
    disk: &mut K,
    mut up: UpNode,
    request: Arrived,
    out: &mut Vec<Output>,
) -> Result<UpNode, Stop>
    requires member { is_member up.seat ≡ true }
    ensures plan { Follows K.saving (arriving_by cluster.now me up request up.presidency) out.old.items disk.old result out.new.items disk.new }
{
    match receive(alloc, &mut up, request, out) {
        Ok(true) => handle(alloc, cluster, me, disk, up, out),
        Ok(false) => Ok(up),
        Err(_) => hand_over(up, Err(Stop::NoMemory)),
    }
}

#[tactic(auto, using(crate::proofs::Come::new_received, crate::proofs::Come::again_received, crate::proofs::Come::waiting_received, crate::proofs::Come::past_received))]
/// The request comes, and the last answer goes again if it is that which was answered. Whether it is new.
fn receive(
    alloc: Global,
    up: &mut UpNode,
    request: Arrived,
    out: &mut Vec<Output>,
) -> Result<bool, AllocError>
    ensures fresh { IfOk result (λ fresh. fresh ≡ is_new (arrival_by request up.old.presidency)) }
    ensures plan { OnOk result (Gives (receiving request up.new (arrival_by request up.old.presidency)) out.old.items (Ok up.new) out.new.items) }
    ensures after { OnOk result (up.new ≡ come_to up.old request up.old.presidency) }
    ensures seat { up.new.seat ≡ up.old.seat }
{
    let from = request.from;
    match come(up, request)? {
        Arrival::New => Ok(true),
        Arrival::Answered => {
            answer_again(alloc, up, from, out)?;
            Ok(false)
        }
        Arrival::Waits | Arrival::Past => Ok(false),
    }
}

/// What the request is to the president. To a node that is no president it is past.
fn come(up: &mut UpNode, request: Arrived) -> Result<Arrival, AllocError>
    ensures arrival { IfOk result (λ arrival. arrival ≡ arrival_by request up.old.presidency) }
    ensures after { OnOk result (up.new ≡ come_to up.old request up.old.presidency) }
    ensures seat { up.new.seat ≡ up.old.seat }
{
    let Some(presidency) = &mut up.presidency else {
        return Ok(Arrival::Past);
    };
    come_in(presidency, request)
}

/// The same, to this presidency.
fn come_in(presidency: &mut Presidency, request: Arrived) -> Result<Arrival, AllocError>
    ensures arrival { IfOk result (λ arrival. arrival ≡ arrival_of presidency.old.proposals request.from request.number) }
    ensures after { OnOk result (presidency.new ≡ record presidency.old { proposals = with_arrival presidency.old.proposals request (arrival_of presidency.old.proposals request.from request.number) }) }
{
    presidency.proposals.arrive(request)
}

/// The last answer to the node goes to it again.
fn answer_again(
    alloc: Global,
    up: &UpNode,
    from: NodeId,
    out: &mut Vec<Output>,
) -> Result<(), AllocError>
    ensures plan { OnOk result (Gives (answer_again_by up.now from up.now.presidency) out.old.items (Ok up.now) out.new.items) }
{
    let Some(presidency) = &up.presidency else {
        return Ok(());
    };
    let Some(kept) = presidency.proposals.answer_to(from) else {
        return Ok(());
    };
    let body = Body::Answer {
        epoch: up.seat.session(),
        number: kept.number,
        text: copied(alloc, &kept.text)?,
    };
    give(out, Output::Sends { to: from, body })?;
    Ok(())
}
