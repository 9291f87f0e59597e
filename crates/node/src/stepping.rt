// What a node comes to by what happens to it.
ghost use Rattle.std.specs.Prelude.{◌≡◌, [], true, false, IfOk, OnOk};
ghost use Rattle.cl_base.specs.declared.method.Outcome.{Outcome};
ghost use Rattle.node_model.specs.declared.input.Input.TheVariants.{Boot, Tick};
ghost use Rattle.node_model.specs.Inputs.{IsAnswered};
ghost use Rattle.node_model.specs.Steps.{stepped};
ghost use Rattle.node.specs.Due.{Hears, at_second_of, moved};

use crate::boot::boot;
use crate::due::{AttemptDue, Due};
use crate::finish::{finish, tell_down};
use crate::packet::hear_heartbeat;
use crate::tick::tick;
use cl_base::{NodeId, Outcome};
use node_model::{Cluster, Input, Node, Output, Stop};
use record_disk::RecordDisk;
use std::alloc::{AllocError, Global};
use wire::Message;

/// What happens to the node at the second `now` of the clock. A method that it calls in this ends so:
/// `call_due` tells which. What it gives is added to `out`, in order. Where memory runs out, the run ends.
pub fn step<K: RecordDisk>(
    alloc: Global,
    cluster: &Cluster,
    me: NodeId,
    now: u64,
    outcome: Outcome,
    disk: &mut K,
    node: &mut Node,
    input: &Input,
    out: &mut Vec<Output>,
) -> Result<(), AllocError>
    requires empty { out.old.items ≡ [] }
    requires answer { IsAnswered input.now }
    ensures step { OnOk result (record { after = node.new; given = out.new.items; disk = disk.new } ≡ stepped (record { kept = K.kept; saving = K.saving; mounting = K.mounting }) cluster.now me now outcome node.old disk.old input.now) }
{
    set_second(node, now);
    move_on(alloc, cluster, me, outcome, disk, node, input, out)
}

/// The same, of a node that stands at the second of the clock.
fn move_on<K: RecordDisk>(
    alloc: Global,
    cluster: &Cluster,
    me: NodeId,
    outcome: Outcome,
    disk: &mut K,
    node: &mut Node,
    input: &Input,
    out: &mut Vec<Output>,
) -> Result<(), AllocError>
    requires empty { out.old.items ≡ [] }
    requires answer { IsAnswered input.now }
    ensures { OnOk result (record { after = node.new; given = out.new.items; disk = disk.new } ≡ moved (record { kept = K.kept; saving = K.saving; mounting = K.mounting }) cluster.now me outcome node.old disk.old input.now) }
{
    match input {
        Input::Boot => step_at_boot(alloc, cluster, me, disk, node, out),
        Input::Tick => step_at_tick(alloc, cluster, me, outcome, disk, node, out),
        Input::Packet { from, message } => {
            if hears(me, node, *from, message, out)? {
                return Ok(());
            }
            finish(
                alloc,
                cluster,
                me,
                outcome,
                disk,
                node,
                input,
                Due::All,
                out,
            )
        }
        Input::Crash
        | Input::CommandDue
        | Input::Answered(_)
        | Input::Wrote { .. }
        | Input::Commanded(_)
        | Input::Reported { .. }
        | Input::Client { .. } => {
            finish(
                alloc,
                cluster,
                me,
                outcome,
                disk,
                node,
                input,
                Due::All,
                out,
            )
        }
    }
}

/// The clock stands at this second.
fn set_second(node: &mut Node, now: u64)
    ensures after { node.new ≡ at_second_of now node.old }
{
    if let Node::Up(up) = node {
        up.second = now;
    }
}

/// A node that is down comes up.
fn step_at_boot<K: RecordDisk>(
    alloc: Global,
    cluster: &Cluster,
    me: NodeId,
    disk: &mut K,
    node: &mut Node,
    out: &mut Vec<Output>,
) -> Result<(), AllocError>
    requires empty { out.old.items ≡ [] }
    ensures { OnOk result ((outcome : Outcome) → record { after = node.new; given = out.new.items; disk = disk.new } ≡ moved (record { kept = K.kept; saving = K.saving; mounting = K.mounting }) cluster.now me outcome node.old disk.old Boot) }
{
    let Node::Down = node else {
        return Ok(());
    };
    match boot(alloc, cluster, me, disk, out) {
        Ok(up) => {
            *node = Node::Up(up);
            Ok(())
        }
        Err(Stop::Down(why)) => tell_down(me, why, out),
        Err(Stop::NoMemory) => Err(AllocError),
    }
}

/// The clock of a node that is up ticks.
fn step_at_tick<K: RecordDisk>(
    alloc: Global,
    cluster: &Cluster,
    me: NodeId,
    outcome: Outcome,
    disk: &mut K,
    node: &mut Node,
    out: &mut Vec<Output>,
) -> Result<(), AllocError>
    requires empty { out.old.items ≡ [] }
    ensures { OnOk result (record { after = node.new; given = out.new.items; disk = disk.new } ≡ moved (record { kept = K.kept; saving = K.saving; mounting = K.mounting }) cluster.now me outcome node.old disk.old Tick) }
{
    let Node::Up(up) = node else {
        return Ok(());
    };
    match tick(alloc, cluster, me, up, out)? {
        Due::Attempt(AttemptDue::Nothing) => Ok(()),
        due => finish(
            alloc,
            cluster,
            me,
            outcome,
            disk,
            node,
            &Input::Tick,
            due,
            out,
        ),
    }
}

/// Whether the message is a heartbeat to a node that is up: it is heard in place.
fn hears(
    me: NodeId,
    node: &mut Node,
    from: NodeId,
    m: &Message,
    out: &mut Vec<Output>,
) -> Result<bool, AllocError>
    ensures heard { IfOk result (λ done. Hears me node.old from m.now out.old.items done node.new out.new.items) }
{
    match node {
        Node::Down => Ok(false),
        Node::Up(up) => hear_heartbeat(me, up, from, m, out),
    }
}
