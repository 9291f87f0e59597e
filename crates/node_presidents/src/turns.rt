// The president takes up one request after another.
ghost use Rattle.std.specs.Prelude.{◌≡◌, ◌≤◌, ◌-◌, ◌^◌, true, Ok, OnOk};
ghost use Rattle.node_model.specs.Plans.{Follows, Gives};
ghost use Rattle.node_model.specs.Presidents.{handling, requests_of};
ghost use Rattle.node_model.specs.Seats.{is_member};
ghost use Rattle.node_presidents.specs.Presidents.{HasRoomBy, turn};
ghost use Rattle.node_model.specs.Left.{left_so};
ghost use Rattle.node_presidents.specs.Verdicts.{MayDo, acted, answered_first, doing};

use crate::acting::act;
use crate::answers::answer_first;
use crate::proposing::propose;
use crate::verdict::{Verdict, judge};
use cl_base::{Ask, NodeId};
use node_model::{Cluster, Output, Stop, UpNode, hand_over};
use record_disk::RecordDisk;
use status_report::Answer;
use std::alloc::{AllocError, Global};

/// The requests are taken up, one after another, until an update is proposed or none is left. There are
/// at most as many turns as requests.
pub fn handle<K: RecordDisk>(
    alloc: Global,
    cluster: &Cluster,
    me: NodeId,
    disk: &mut K,
    mut up: UpNode,
    out: &mut Vec<Output>,
) -> Result<UpNode, Stop>
    requires member { is_member up.seat ≡ true }
    ensures plan { Follows K.saving (handling cluster.now me up) out.old.items disk.old result out.new.items disk.new }
{
    let done = take_turns(alloc, cluster, me, disk, &mut up, out);
    hand_over(up, done)
}

/// The same, by a node that the caller has in hand.
fn take_turns<K: RecordDisk>(
    alloc: Global,
    cluster: &Cluster,
    me: NodeId,
    disk: &mut K,
    up: &mut UpNode,
    out: &mut Vec<Output>,
) -> Result<(), Stop>
    requires member { is_member up.old.seat ≡ true }
    ensures plan { Follows K.saving (handling cluster.now me up.old) out.old.items disk.old (left_so up.new result) out.new.items disk.new }
{
    for _turn in 0..requests_of(up) {
        take_turn(alloc, cluster, me, disk, up, out)?;
    }
    Ok(())
}

/// How many requests the president has and waits to give itself.
fn requests_of(up: &UpNode) -> u64
    ensures value { result ≡ requests_of up.now up.now.presidency }
{
    match &up.presidency {
        Some(presidency) => presidency.proposals.len() as u64 + up.requests.len() as u64,
        None => 0,
    }
}

#[tactic(auto, using(crate::proofs::Turning::turn_is_done, crate::proofs::Turning::may_do))]
/// The first request is taken up, unless an update is proposed already.
fn take_turn<K: RecordDisk>(
    alloc: Global,
    cluster: &Cluster,
    me: NodeId,
    disk: &mut K,
    up: &mut UpNode,
    out: &mut Vec<Output>,
) -> Result<(), Stop>
    requires member { is_member up.old.seat ≡ true }
    ensures plan { Follows K.saving (turn cluster.now me up.old) out.old.items disk.old (left_so up.new result) out.new.items disk.new }
    ensures member { OnOk result (is_member up.new.seat ≡ true) }
{
    let verdict = judge(alloc, cluster, up)?;
    do_so(alloc, cluster, me, disk, up, verdict, out)
}

#[tactic(auto, using(crate::proofs::Turning::gives_done))]
/// What this verdict on the first request wants is done.
fn do_so<K: RecordDisk>(
    alloc: Global,
    cluster: &Cluster,
    me: NodeId,
    disk: &mut K,
    up: &mut UpNode,
    verdict: Verdict,
    out: &mut Vec<Output>,
) -> Result<(), Stop>
    requires member { is_member up.old.seat ≡ true }
    requires room { MayDo up.old verdict }
    ensures plan { Follows K.saving (doing cluster.now me up.old verdict) out.old.items disk.old (left_so up.new result) out.new.items disk.new }
    ensures member { OnOk result (is_member up.new.seat ≡ true) }
{
    match verdict {
        Verdict::Propose(text) => propose(alloc, cluster, me, disk, up, text, out),
        Verdict::Act(ask) => {
            act_first(alloc, cluster, me, up, ask, out)?;
            Ok(())
        }
        Verdict::Answer(answer) => {
            reply_first(alloc, cluster, me, up, answer, out)?;
            Ok(())
        }
        Verdict::Wait => Ok(()),
    }
}

#[tactic(auto, unfolding(crate::specs::Verdicts::acted))]
/// What the first request asks for is done.
fn act_first(
    alloc: Global,
    cluster: &Cluster,
    me: NodeId,
    up: &mut UpNode,
    ask: Ask,
    out: &mut Vec<Output>,
) -> Result<(), AllocError>
    requires room { HasRoomBy up.old.presidency ask }
    ensures plan { OnOk result (Gives (acted cluster.now me up.old ask) out.old.items (Ok up.new) out.new.items) }
    ensures seat { up.new.seat ≡ up.old.seat }
{
    act(alloc, cluster, me, up, ask, out)
}

#[tactic(auto, unfolding(crate::specs::Verdicts::answered_first))]
/// The first request is answered at once.
fn reply_first(
    alloc: Global,
    cluster: &Cluster,
    me: NodeId,
    up: &mut UpNode,
    answer: Answer,
    out: &mut Vec<Output>,
) -> Result<(), AllocError>
    ensures plan { OnOk result (Gives (answered_first cluster.now me up.old answer) out.old.items (Ok up.new) out.new.items) }
    ensures seat { up.new.seat ≡ up.old.seat }
{
    answer_first(alloc, cluster, me, up, answer, out)
}
