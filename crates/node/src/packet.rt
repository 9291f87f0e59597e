// A packet that is delivered.
ghost use Rattle.std.specs.Prelude.{◌≡◌, true, false, List, IfOk, OnOk, Ok};
ghost use Rattle.cmm_attempt.specs.Attempts.{HasFewKeys};
ghost use Rattle.node_model.specs.Members.{beat_in, hearing, is_foreign, on_answer, on_body, on_excluded, on_heartbeat, on_packet};
ghost use Rattle.node_model.specs.Plans.{Follows, Gives};
ghost use Rattle.node.specs.Due.{HearsUp};
ghost use Rattle.node.specs.Handing.{Excludes};
ghost use Rattle.node.specs.Updates.{on_update, orders_name};
ghost use Rattle.node_members.specs.Strangers.{names_strangers};

use crate::handing::hand_back;
use cl_base::{DevId, Epoch, NodeId, NodeSet, Outcome, Panic};
use heartbeats::Beat;
use node_attempts::go_on;
use node_groups::{take_done, take_order};
use node_members::{Request, collect, is_foreign, seize, take_install, take_start};
use node_model::{Cluster, Output, Seat, Stop, UpNode, give, hand_over};
use node_presidents::take_request;
use node_updates::{commit, prepare, take_prepared, take_reply};
use record_disk::RecordDisk;
use seize::SeizeKind;
use status_report::DownCause;
use std::alloc::{AllocError, Global};
use wire::{Body, Message};

/// The node is delivered a message. A foreign one changes nothing.
#[tactic(auto, using(crate::proofs::Known::known, crate::proofs::Known::named))]
pub fn take_packet<K: RecordDisk>(
    alloc: Global,
    cluster: &Cluster,
    me: NodeId,
    outcome: Outcome,
    disk: &mut K,
    mut up: UpNode,
    from: NodeId,
    m: &Message,
    out: &mut Vec<Output>,
) -> Result<UpNode, Stop>
    ensures follows { Follows K.saving (on_packet cluster.now me outcome up from m.now) out.old.items disk.old result out.new.items disk.new }
{
    match is_foreign(alloc, cluster, me, &mut up, &m.body) {
        Ok(true) => Ok(up),
        Ok(false) => {
            hear(&mut up, from, &m.body);
            take_message(alloc, cluster, me, outcome, disk, up, from, m, out)
        }
        Err(_) => hand_back(up, Err(AllocError)),
    }
}

#[tactic(auto, using(node_model::proofs::Plans::gives_follows))]
fn take_message<K: RecordDisk>(
    alloc: Global,
    cluster: &Cluster,
    me: NodeId,
    outcome: Outcome,
    disk: &mut K,
    up: UpNode,
    from: NodeId,
    m: &Message,
    out: &mut Vec<Output>,
) -> Result<UpNode, Stop>
    requires own { names_strangers cluster.now me m.now.body ≡ false }
    requires named { orders_name m.now.body ≡ true }
    ensures { Follows K.saving (on_body cluster.now me outcome up from m.now m.now.body) out.old.items disk.old result out.new.items disk.new }
{
    match &m.body {
        Body::Heartbeat {
            session,
            member,
            ..
        } => { take_heartbeat(me, up, from, *session, *member, out) }
        Body::Collect { epoch, .. } => collect(alloc, me, disk, up, from, *epoch, out),
        Body::Promise { .. } | Body::Nack { .. } | Body::Seized { .. } | Body::Ready { .. } => {
            take_answer(alloc, cluster, me, disk, up, from, m, out)
        }
        Body::SeizeQuorum {
            epoch,
            members,
            device,
        } => {
            let request = request(SeizeKind::Vote, *epoch, *members, *device);
            seize(alloc, cluster, me, up, from, request, out)
        }
        Body::SeizeData {
            epoch,
            members,
            device,
        } => {
            let request = request(SeizeKind::Plain, *epoch, *members, *device);
            seize(alloc, cluster, me, up, from, request, out)
        }
        Body::Install(i) => take_install(alloc, cluster, me, disk, up, from, i, out),
        Body::Start { epoch } => take_start(alloc, me, disk, up, *epoch, out),
        Body::Excluded { epoch, newest } => take_excluded(up, *epoch, *newest),
        Body::Request { .. }
        | Body::Prepare { .. }
        | Body::Prepared { .. }
        | Body::Commit { .. }
        | Body::Answer { .. }
        | Body::Order(_)
        | Body::Done { .. } => take_update(
            alloc, cluster, me, outcome, disk, up, from, &m.body, out,
        ),
    }
}

#[tactic(auto, using(node_model::proofs::Plans::gives_follows))]
/// What belongs to updates of the configuration and to orders.
fn take_update<K: RecordDisk>(
    alloc: Global,
    cluster: &Cluster,
    me: NodeId,
    outcome: Outcome,
    disk: &mut K,
    up: UpNode,
    from: NodeId,
    body: &Body,
    out: &mut Vec<Output>,
) -> Result<UpNode, Stop>
    requires named { orders_name body.now ≡ true }
    ensures { Follows K.saving (on_update cluster.now me outcome up from body.now) out.old.items disk.old result out.new.items disk.new }
{
    match body {
        Body::Request {
            epoch,
            number,
            text,
        } => take_request(
            alloc, cluster, me, disk, up, from, *epoch, *number, text, out,
        ),
        Body::Prepare { epoch, place, text } => {
            prepare(
                alloc, cluster, me, disk, up, from, *epoch, *place, text, out,
            )
        }
        Body::Prepared { epoch, place } => {
            take_prepared(alloc, cluster, me, disk, up, from, *epoch, *place, out)
        }
        Body::Commit { epoch, place } => commit(alloc, me, disk, up, *epoch, *place, out),
        Body::Answer {
            epoch,
            number,
            text,
        } => take_reply(
            alloc,
            cluster,
            me,
            disk,
            up,
            *epoch,
            *number,
            text.items(),
            out,
        ),
        Body::Order(order) => take_order(alloc, cluster, me, up, from, order, outcome, out),
        Body::Done {
            epoch,
            number,
            outcome,
        } => take_done(
            alloc, cluster, me, disk, up, from, *epoch, *number, *outcome, out,
        ),
        _ => Ok(up),
    }
}

fn request(kind: SeizeKind, epoch: Epoch, members: NodeSet, device: DevId) -> Request
    ensures { result ≡ record { kind = kind; epoch = epoch; members = members; device = device } }
{
    Request {
        kind,
        epoch,
        members,
        device,
    }
}

/// The answer of a member to the node's own attempt.
fn take_answer<K: RecordDisk>(
    alloc: Global,
    cluster: &Cluster,
    me: NodeId,
    disk: &mut K,
    mut up: UpNode,
    from: NodeId,
    m: &Message,
    out: &mut Vec<Output>,
) -> Result<UpNode, Stop>
    requires few { HasFewKeys m.now.body }
    ensures { Follows K.saving (on_answer cluster.now me up from m.now up.attempt) out.old.items disk.old result out.new.items disk.new }
{
    let Some(mut attempt) = up.attempt.take() else {
        return Ok(up);
    };
    match attempt.take(from, m) {
        Ok(steps) => go_on(alloc, cluster, me, disk, up, attempt, steps, out),
        Err(_) => hand_back(up, Err(AllocError)),
    }
}

/// The sender is heard, and the epochs that its message shows are seen.
fn hear(up: &mut UpNode, from: NodeId, body: &Body)
    ensures { up.new ≡ hearing up.old from body.now }
{
    up.beats.hear(from, beat_in(body));
    up.greatest = up.greatest.max(body.greatest_shown());
}

/// A heartbeat is heard, without a look at anything else. Any other message is left.
pub(crate) fn hear_heartbeat(
    me: NodeId,
    up: &mut UpNode,
    from: NodeId,
    m: &Message,
    out: &mut Vec<Output>,
) -> Result<bool, AllocError>
    ensures { IfOk result (λ done. HearsUp me up.old from m.now out.old.items done up.new out.new.items) }
{
    let Body::Heartbeat {
        session,
        member,
        ..
    } = &m.body
    else {
        return Ok(false);
    };
    hear(up, from, &m.body);
    answer_heartbeat(me, up, from, *session, *member, out)?;
    Ok(true)
}

#[tactic(auto, using(crate::proofs::Handed::kept_gives))]
/// A heartbeat is answered.
fn take_heartbeat(
    me: NodeId,
    up: UpNode,
    from: NodeId,
    session: Epoch,
    member: bool,
    out: &mut Vec<Output>,
) -> Result<UpNode, Stop>
    ensures { Gives (on_heartbeat me up from session member) out.old.items result out.new.items }
{
    let done = answer_heartbeat(me, &up, from, session, member, out);
    hand_back(up, done)
}

/// The president answers a member of its session that is not one yet by Start.
fn answer_heartbeat(
    me: NodeId,
    up: &UpNode,
    from: NodeId,
    session: Epoch,
    member: bool,
    out: &mut Vec<Output>,
) -> Result<(), AllocError>
    ensures { OnOk result (Gives (on_heartbeat me up.now from session member) out.old.items (Ok up.now) out.new.items) }
{
    let own = up.seat.session();
    let leads = own.number() % 64 == me.number();
    if up.seat.is_member() && leads && session == own && !member && up.seat.members().has(from) {
        let body = Body::Start { epoch: own };
        give(out, Output::Sends { to: from, body })?;
    }
    Ok(())
}

#[tactic(auto, using(crate::proofs::Handed::excluded_gives))]
/// The attempt of the node's session leaves it out.
fn take_excluded(up: UpNode, epoch: Epoch, newest: Epoch) -> Result<UpNode, Stop>
    ensures { (given : List Output) → Gives (on_excluded up epoch newest) given result given }
{
    let done = excluded(&up.seat, epoch, newest);
    hand_over(up, done)
}

/// A node of this seat goes down where it is in the session.
fn excluded(seat: &Seat, epoch: Epoch, newest: Epoch) -> Result<(), Stop>
    ensures value { Excludes seat.now epoch newest result }
{
    if epoch != Epoch::zero() && seat.session() == epoch {
        return Err(Stop::Down(DownCause::Panic(Panic::Excluded(newest))));
    }
    Ok(())
}

fn beat_in(body: &Body) -> Option<Beat>
    ensures { result ≡ beat_in body.now }
{
    match body {
        Body::Heartbeat {
            promised,
            session,
            member,
        } => Some(Beat {
            promised: *promised,
            session: *session,
            member: *member,
        }),
        _ => None,
    }
}
