// The president learns how an order ended.
ghost use Rattle.std.specs.Prelude.{◌≡◌, true, IfOk, OnOk};
ghost use Rattle.node_model.specs.Groups.{on_done};
ghost use Rattle.node_model.specs.Plans.{Follows};
ghost use Rattle.node_model.specs.Seats.{is_member};
ghost use Rattle.node_groups.specs.Ending.{Ends, after_end, ended_under, ending, ends_at, ends_by};

use ccr_tables::Config;
use cl_base::{Epoch, NodeId, Outcome};
use node_decisions::{decide, in_force};
use node_model::{Cluster, Output, Presidency, Stop, UpNode, hand_over};
use node_presidents::{handle, is_of_member};
use record_disk::RecordDisk;
use std::alloc::{AllocError, Global};

#[tactic(auto, unfolding(crate::specs::Ending::ending))]
/// A member of this membership tells how an order ended. That of an order which is outstanding there
/// counts: the president decides, and goes on with what waits.
pub fn take_done<K: RecordDisk>(
    alloc: Global,
    cluster: &Cluster,
    me: NodeId,
    disk: &mut K,
    up: UpNode,
    from: NodeId,
    epoch: Epoch,
    number: u64,
    outcome: Outcome,
    out: &mut Vec<Output>,
) -> Result<UpNode, Stop>
    ensures follows { Follows K.saving (on_done cluster.now me up from epoch number outcome) out.old.items disk.old result out.new.items disk.new }
{
    if !is_of_member(&up, from, epoch) {
        return Ok(up);
    }
    end_order(alloc, cluster, me, disk, up, from, number, outcome, out)
}

#[tactic(auto, using(crate::proofs::Endings::order_ended, crate::proofs::Endings::end_passed))]
/// The same, where the node is one of this membership.
pub(crate) fn end_order<K: RecordDisk>(
    alloc: Global,
    cluster: &Cluster,
    me: NodeId,
    disk: &mut K,
    mut up: UpNode,
    from: NodeId,
    number: u64,
    outcome: Outcome,
    out: &mut Vec<Output>,
) -> Result<UpNode, Stop>
    requires member { is_member up.seat ≡ true }
    ensures plan { Follows K.saving (ending cluster.now me up from number outcome) out.old.items disk.old result out.new.items disk.new }
{
    match end(alloc, cluster, me, &mut up, from, number, outcome, out) {
        Ok(true) => handle(alloc, cluster, me, disk, up, out),
        Ok(false) => Ok(up),
        Err(_) => hand_over(up, Err(Stop::NoMemory)),
    }
}

#[tactic(auto, using(crate::proofs::Endings::end_decided, crate::proofs::Endings::end_lacking))]
/// The president takes the outcome of an order that is outstanding at the node, and decides. Whether
/// it is.
fn end(
    alloc: Global,
    cluster: &Cluster,
    me: NodeId,
    up: &mut UpNode,
    from: NodeId,
    number: u64,
    outcome: Outcome,
    out: &mut Vec<Output>,
) -> Result<bool, AllocError>
    ensures ends { IfOk result (λ taken. Ends cluster.now me up.old from number outcome taken up.new out.old.items out.new.items) }
    ensures seat { up.new.seat ≡ up.old.seat }
{
    let taken = take_outcome(alloc, cluster, up, from, number, outcome)?;
    if taken {
        decide(alloc, cluster, me, up, out)?;
    }
    Ok(taken)
}

#[tactic(auto, unfolding(crate::specs::Ending::after_end))]
/// The president takes the outcome of an order that is outstanding at the node. Whether it is.
fn take_outcome(
    alloc: Global,
    cluster: &Cluster,
    up: &mut UpNode,
    from: NodeId,
    number: u64,
    outcome: Outcome,
) -> Result<bool, AllocError>
    ensures taken { IfOk result (λ taken. taken ≡ ends_by up.old.presidency from number) }
    ensures after { OnOk result (up.new ≡ after_end cluster.now up.old from number outcome) }
    ensures seat { up.new.seat ≡ up.old.seat }
{
    let Some(mut presidency) = up.presidency.take() else {
        return Ok(false);
    };
    let config = in_force(alloc, cluster, &mut up.made, &up.seat)?;
    let now = up.second;
    let taken = end_under(alloc, config, from, number, outcome, now, &mut presidency)?;
    up.presidency = Some(presidency);
    Ok(taken)
}

#[tactic(auto, using(crate::proofs::Endings::not_done), unfolding(crate::specs::Ending::ends_at, crate::specs::Ending::ended_under))]
/// The same, where this is the configuration in force.
fn end_under(
    alloc: Global,
    config: &Config,
    from: NodeId,
    number: u64,
    outcome: Outcome,
    now: u64,
    presidency: &mut Presidency,
) -> Result<bool, AllocError>
    ensures taken { IfOk result (λ taken. taken ≡ ends_at presidency.old from number) }
    ensures after { OnOk result (presidency.new ≡ ended_under config.now from number outcome now presidency.old) }
{
    match presidency
        .groups
        .done(alloc, from, number, outcome, config, now)
    {
        Ok(true) => {
            presidency.sent.ended(from);
            Ok(true)
        }
        Ok(false) => Ok(false),
        Err(_) => Err(AllocError),
    }
}
