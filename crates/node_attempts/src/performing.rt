// The steps that an attempt gives are carried out, one after another.
ghost use Rattle.std.specs.Prelude.{◌≡◌, IfErr, IfOk, OnOk};
ghost use Rattle.device_queue.specs.Queue.{after_seize};
ghost use Rattle.cmm_attempt.specs.Attempts.{with_steps};
ghost use Rattle.cmm_attempt.specs.Calls.{starts_in};
ghost use Rattle.node_model.specs.declared.stop.Stop.TheVariants.{NoMemory};
ghost use Rattle.node_model.specs.Attempts.{begins_install, going_on, own_ready, performed, performed_all, performing, seizing_here, step_plan, under_way};
ghost use Rattle.node_model.specs.Plans.{Follows};
ghost use Rattle.node_attempts.specs.StartSteps.{is_start};
ghost use Rattle.node_attempts.specs.Told.{readied, readied_steps, voted};

use crate::ending::end_attempt;
use crate::installing::install_here;
use crate::starting::start_here;
use crate::voting::newest_votes;
use cl_base::{DevId, NodeId};
use cmm_attempt::{Attempt, Step, Steps};
use device_queue::DeviceQueue;
use node_decisions::decide;
use node_model::{Cluster, Output, Stop, UpNode, hand_over, send};
use record_disk::RecordDisk;
use seize::{Seize, SeizeKind};
use std::alloc::{AllocError, Global};

/// The attempt has taken a call, which gave these steps: they are carried out. Where the votes under
/// the newest record are wanted, the attempt gets them and goes on.
#[tactic(auto, using(crate::proofs::StartLemmas::goes, crate::proofs::StartLemmas::no_memory))]
pub fn go_on<K: RecordDisk>(
    alloc: Global,
    cluster: &Cluster,
    me: NodeId,
    disk: &mut K,
    mut up: UpNode,
    attempt: Attempt,
    steps: Steps,
    out: &mut Vec<Output>,
) -> Result<UpNode, Stop>
    ensures follows { Follows K.saving (going_on cluster.now me up (with_steps attempt steps)) out.old.items disk.old result out.new.items disk.new }
{
    match with_votes(alloc, cluster, &mut up, attempt, steps) {
        Ok(steps) => perform(alloc, cluster, me, disk, up, steps, out),
        Err(stop) => hand_over(up, Err(stop)),
    }
}

/// The attempt is under way, with the votes where they are wanted: these are the steps to carry out.
fn with_votes(
    alloc: Global,
    cluster: &Cluster,
    up: &mut UpNode,
    mut attempt: Attempt,
    steps: Steps,
) -> Result<Steps, Stop>
    ensures after { OnOk result (up.new ≡ under_way up.old (voted cluster.now (with_steps attempt steps)).after) }
    ensures steps { IfOk result (λ left. left ≡ (voted cluster.now (with_steps attempt steps)).steps) }
    ensures only { IfErr result (λ e. e ≡ NoMemory) }
{
    if !attempt.needs_votes() {
        up.attempt.put(alloc, attempt)?;
        return Ok(steps);
    }
    let (committed, pending) = newest_votes(alloc, cluster, &attempt)?;
    let steps = attempt.with_votes(committed, pending)?;
    up.attempt.put(alloc, attempt)?;
    Ok(steps)
}

/// The steps are carried out, and the coordinator's own part of an install where nothing is to be joined.
#[tactic(auto, using(node_model::proofs::Plans::done_then, node_model::proofs::Plans::done_and_stays, node_model::proofs::Plans::stopped_then))]
fn perform<K: RecordDisk>(
    alloc: Global,
    cluster: &Cluster,
    me: NodeId,
    disk: &mut K,
    up: UpNode,
    steps: Steps,
    out: &mut Vec<Output>,
) -> Result<UpNode, Stop>
    ensures { Follows K.saving (performed cluster.now me up steps) out.old.items disk.old result out.new.items disk.new }
{
    let installs = begins_install(steps.items());
    let up = perform_all(alloc, cluster, me, disk, up, steps, out)?;
    if installs {
        own_ready(alloc, cluster, me, disk, up, out)
    } else {
        Ok(up)
    }
}

fn begins_install(steps: &[Step]) -> bool
    ensures { result ≡ begins_install steps.now }
{
    matches!(steps, [Step::InstallHere(_), ..])
}

/// The coordinator has installed the membership: where it has no device left to join, its own part is
/// done.
pub fn own_ready<K: RecordDisk>(
    alloc: Global,
    cluster: &Cluster,
    me: NodeId,
    disk: &mut K,
    mut up: UpNode,
    out: &mut Vec<Output>,
) -> Result<UpNode, Stop>
    ensures follows { Follows K.saving (own_ready cluster.now me up) out.old.items disk.old result out.new.items disk.new }
{
    if up.tasks.joins() {
        return Ok(up);
    }
    match own_turn(alloc, &mut up) {
        Ok(Some(steps)) => perform_all(alloc, cluster, me, disk, up, steps, out),
        Ok(None) => Ok(up),
        Err(_) => hand_over(up, Err(Stop::NoMemory)),
    }
}

/// The steps of the node's attempt, if it has one, as its own part is done.
fn own_turn(alloc: Global, up: &mut UpNode) -> Result<Option<Steps>, AllocError>
    ensures after { OnOk result (up.new ≡ readied up.old up.old.attempt) }
    ensures steps { IfOk result (λ steps. steps ≡ readied_steps up.old.attempt) }
{
    let Some(mut attempt) = up.attempt.take() else {
        return Ok(None);
    };
    let steps = attempt.own_ready()?;
    up.attempt.put(alloc, attempt)?;
    Ok(Some(steps))
}

/// The steps are carried out. Where the membership has started, the president decides.
#[tactic(auto, using(crate::proofs::StepLemmas::decided_then, node_model::proofs::Plans::done_and_stays, node_model::proofs::Plans::stopped_then))]
fn perform_all<K: RecordDisk>(
    alloc: Global,
    cluster: &Cluster,
    me: NodeId,
    disk: &mut K,
    up: UpNode,
    steps: Steps,
    out: &mut Vec<Output>,
) -> Result<UpNode, Stop>
    ensures { Follows K.saving (performed_all cluster.now me up steps) out.old.items disk.old result out.new.items disk.new }
{
    let starts = starts_in(steps.items());
    let mut up = do_steps(alloc, cluster, me, disk, up, steps, out)?;
    if !starts {
        return Ok(up);
    }
    match decide(alloc, cluster, me, &mut up, out) {
        Ok(()) => Ok(up),
        Err(_) => hand_over(up, Err(Stop::NoMemory)),
    }
}

/// Whether the membership starts in one of these steps.
fn starts_in(steps: &[Step]) -> bool
    ensures { result ≡ starts_in steps.now }
{
    steps.iter().any(|step| is_start(step))
}

fn is_start(step: &Step) -> bool
    ensures { result ≡ is_start step.now }
{
    matches!(step, Step::StartHere)
}

fn do_steps<K: RecordDisk>(
    alloc: Global,
    cluster: &Cluster,
    me: NodeId,
    disk: &mut K,
    mut up: UpNode,
    steps: Steps,
    out: &mut Vec<Output>,
) -> Result<UpNode, Stop>
    ensures { Follows K.saving (performing cluster.now me up steps) out.old.items disk.old result out.new.items disk.new }
{
    for step in steps.into_items() {
        up = do_step(alloc, cluster, me, disk, up, step, out)?;
    }
    Ok(up)
}

#[tactic(auto, using(node_model::proofs::Plans::gives_follows))]
fn do_step<K: RecordDisk>(
    alloc: Global,
    cluster: &Cluster,
    me: NodeId,
    disk: &mut K,
    mut up: UpNode,
    step: Step,
    out: &mut Vec<Output>,
) -> Result<UpNode, Stop>
    ensures { Follows K.saving (step_plan cluster.now me up step) out.old.items disk.old result out.new.items disk.new }
{
    match step {
        Step::Send { to, message } => {
            let sent = send(out, to, message.body);
            hand_over(up, sent)
        }
        Step::SeizeHere { dev, kind } => match seize_here(cluster, me, &mut up, dev, kind) {
            Ok(()) => Ok(up),
            Err(_) => hand_over(up, Err(Stop::NoMemory)),
        },
        Step::NeedVotes { .. } => Ok(up),
        Step::InstallHere(i) => install_here(alloc, cluster, me, disk, up, i, out),
        Step::StartHere => start_here(alloc, cluster, me, disk, up, out),
        Step::Ended(end) => {
            let told = end_attempt(me, &mut up, end, out);
            hand_over(up, told)
        }
    }
}

/// The coordinator begins to seize the device itself.
fn seize_here(
    cluster: &Cluster,
    me: NodeId,
    up: &mut UpNode,
    dev: DevId,
    kind: SeizeKind,
) -> Result<(), AllocError>
    ensures { OnOk result (up.new ≡ seizing_here cluster.now me up.old dev kind up.old.attempt) }
{
    let Some(attempt) = up.attempt.get() else {
        return Ok(());
    };
    let (epoch, members) = (attempt.epoch(), attempt.members());
    if members.has(me) {
        let valid = up.seat.valid().has(dev);
        let seizing = Seize::begin(kind, epoch, members, me, cluster.id, valid);
        queue_seizing(&mut up.tasks, dev, seizing)?;
    }
    Ok(())
}

/// The queue has a seizing of the device after it: the one that it had, or this one.
fn queue_seizing(tasks: &mut DeviceQueue, dev: DevId, seizing: Seize) -> Result<(), AllocError>
    ensures { OnOk result (tasks.new ≡ after_seize tasks.old dev seizing) }
{
    match tasks.seize(dev, seizing) {
        Ok(_) => Ok(()),
        Err(failed) => Err(failed),
    }
}
