// The coordinator starts the membership.
ghost use Rattle.std.specs.Prelude.{◌≡◌, ◌++◌, ◌∷◌, [], Ok, OnOk, IfErr, None, Some, length};
ghost use Rattle.status_report.specs.declared.entry.Entry.TheVariants as trace;
ghost use Rattle.status_report.specs.declared.start_entry.StartEntry.TheVariants as start;
ghost use Rattle.node_model.specs.declared.output.Output.TheVariants.{Tells};
ghost use Rattle.std.specs.Option.{option_map};
ghost use Rattle.node_model.specs.declared.stop.Stop.TheVariants.{NoMemory};
ghost use Rattle.node_model.specs.Attempts.{base_lines, entering, member_by, presiding, started_entry, starting_here, starting_with, under_way};
ghost use Rattle.node_model.specs.Plans.{Follows, Gives};
ghost use Rattle.node_attempts.specs.Told.{membership_told, seated, start_told};
ghost use Rattle.node_model.specs.Left.{left_so};

use cl_base::{Bytes, Epoch, NodeId};
use cmm_attempt::Attempt;
use cmm_member::Started;
use node_acts::become_member;
use node_adoption::{preside, tell_adopted};
use node_model::{Cluster, Output, Presidency, Seat, Slot, Stop, UpNode, give, hand_over, keep};
use record_disk::RecordDisk;
use status_report::{Entry, NodeEntry, StartEntry};
use std::alloc::{AllocError, Global};

/// The membership of the node's attempt starts: a pending update is committed and saved first. The
/// node is the president, and adopts what the members report.
pub fn start_here<K: RecordDisk>(
    alloc: Global,
    cluster: &Cluster,
    me: NodeId,
    disk: &mut K,
    mut up: UpNode,
    out: &mut Vec<Output>,
) -> Result<UpNode, Stop>
    ensures follows { Follows K.saving (starting_here cluster.now me up up.attempt) out.old.items disk.old result out.new.items disk.new }
{
    let Some(attempt) = up.attempt.take() else {
        return Ok(up);
    };
    match preside(alloc, cluster, me, &mut up, &attempt) {
        Ok(presidency) => start_as(alloc, cluster, me, disk, up, attempt, presidency, out),
        Err(_) => hand_over(up, Err(Stop::NoMemory)),
    }
}

/// The membership starts with this president, where the attempt may start one.
fn start_as<K: RecordDisk>(
    alloc: Global,
    cluster: &Cluster,
    me: NodeId,
    disk: &mut K,
    up: UpNode,
    attempt: Attempt,
    presidency: Presidency,
    out: &mut Vec<Output>,
) -> Result<UpNode, Stop>
    requires president { presidency ≡ presiding cluster.now me up attempt }
    ensures { Follows K.saving (starting_with cluster.now me (record up { attempt = Some attempt }) attempt up.seat) out.old.items disk.old result out.new.items disk.new }
{
    let (mut up, started) = sit_down(up, attempt.epoch());
    match started {
        Some(changed) => {
            enter(&mut up, presidency, attempt.epoch());
            let told = tell_membership(alloc, cluster, me, disk, &mut up, &attempt, changed, out);
            hand_over(up, told)
        }
        None => {
            let put = put_back(alloc, &mut up, attempt, presidency);
            hand_over(up, put)
        }
    }
}

/// The node as a member, where it may be one, and whether its record has changed by that.
fn sit_down(mut up: UpNode, epoch: Epoch) -> (UpNode, Option<bool>)
    ensures node { result.0 ≡ seated up (member_by epoch up.seat) }
    ensures changed { result.1 ≡ option_map (λ p. p.1) (member_by epoch up.seat) }
{
    match become_member(up.seat, epoch) {
        Ok(Started { node, changed }) => {
            up.seat = Seat::Member(node);
            (up, Some(changed))
        }
        Err(seat) => {
            up.seat = seat;
            (up, None)
        }
    }
}

/// The attempt goes on, and nobody is its president.
fn put_back(
    alloc: Global,
    up: &mut UpNode,
    attempt: Attempt,
    presidency: Presidency,
) -> Result<(), Stop>
    ensures after { OnOk result (up.new ≡ under_way up.old attempt) }
    ensures only { IfErr result (λ e. e ≡ NoMemory) }
{
    // Said so, the parts are let go each by its own proof.
    drop(presidency);
    up.attempt.put(alloc, attempt)?;
    Ok(())
}

/// The node is the president of the membership: its attempt is over.
fn enter(up: &mut UpNode, presidency: Presidency, epoch: Epoch)
    ensures { up.new ≡ entering (record up.old { attempt = None; presidency = Some presidency }) epoch }
{
    up.attempt = Slot::empty();
    up.presidency = Some(presidency);
    up.worker.enter(epoch);
}

/// The node is a member now, and the president: its record is saved where it has changed, and the start
/// is told.
#[tactic(auto, using(crate::proofs::StartLemmas::told_kept, node_model::proofs::Plans::gives_follows))]
fn tell_membership<K: RecordDisk>(
    alloc: Global,
    cluster: &Cluster,
    me: NodeId,
    disk: &mut K,
    up: &mut UpNode,
    attempt: &Attempt,
    changed: bool,
    out: &mut Vec<Output>,
) -> Result<(), Stop>
    ensures { Follows K.saving (membership_told cluster.now me attempt.now changed up.old) out.old.items disk.old (left_so up.new result) out.new.items disk.new }
{
    if !changed {
        tell_member(alloc, cluster, me, up, attempt, out)?;
        return Ok(());
    }
    keep(alloc, me, disk, &up.seat, out)?;
    tell_member(alloc, cluster, me, up, attempt, out)?;
    Ok(())
}

/// The start with its base and what is adopted, and that the node is a member.
fn tell_member(
    alloc: Global,
    cluster: &Cluster,
    me: NodeId,
    up: &mut UpNode,
    attempt: &Attempt,
    out: &mut Vec<Output>,
) -> Result<(), AllocError>
    ensures { OnOk result (Gives (start_told cluster.now me attempt.now up.old) out.old.items (Ok up.new) out.new.items) }
{
    let epoch = attempt.epoch();
    tell_start(alloc, attempt, up.seat.entries().committed(), out)?;
    tell_adopted(alloc, cluster, epoch, up, out)?;
    let entry = NodeEntry::Member(epoch);
    give(out, Output::Tells(Entry::Node { node: me, entry }))?;
    Ok(())
}

/// The membership with its members, its devices and the updates of its base.
fn tell_start(
    alloc: Global,
    attempt: &Attempt,
    committed: &[Bytes],
    out: &mut Vec<Output>,
) -> Result<(), AllocError>
    ensures told { OnOk result (out.new.items ≡ (out.old.items ++ Tells (trace.Start (started_entry attempt.now (length committed.now))) ∷ []) ++ base_lines attempt.now.plan.epoch 0 committed.now) }
{
    let epoch = attempt.epoch();
    let entry = StartEntry::Started {
        epoch,
        members: attempt.members(),
        held: attempt.held_devices(),
        base: committed.len() as u64,
    };
    give(out, Output::Tells(Entry::Start(entry)))?;
    for (index, text) in committed.iter().enumerate() {
        tell_base(alloc, epoch, index as u64 + 1, text, out)?;
    }
    Ok(())
}

fn tell_base(
    alloc: Global,
    epoch: Epoch,
    place: u64,
    text: &Bytes,
    out: &mut Vec<Output>,
) -> Result<(), AllocError>
    ensures told { OnOk result (out.new.items ≡ out.old.items ++ Tells (trace.Start (start.Base epoch place text.now)) ∷ []) }
{
    let words = Bytes::new(text.items().to_vec(alloc)?);
    let entry = StartEntry::Base {
        epoch,
        place,
        words,
    };
    give(out, Output::Tells(Entry::Start(entry)))?;
    Ok(())
}
