// What is left of a step, by the handlers of its subject.
ghost use Rattle.std.specs.Prelude.{◌≡◌, ◌++◌, ◌∷◌, [], OnOk};
ghost use Rattle.status_report.specs.declared.entry.Entry.TheVariants as trace;
ghost use Rattle.status_report.specs.declared.node_entry.NodeEntry.TheVariants as note;
ghost use Rattle.node_model.specs.declared.output.Output.TheVariants.{Tells};
ghost use Rattle.node_model.specs.Inputs.{IsAnswered};
ghost use Rattle.node_model.specs.Addresses.{on_client};
ghost use Rattle.node_model.specs.Plans.{Follows, Gives};
ghost use Rattle.node.specs.Due.{IsDueAt, MayFollow, finished, rest_of, untouched};

use crate::due::Due;
use crate::govern::govern;
use crate::handing::hand_back;
use crate::packet::take_packet;
use crate::tick::tick_attempt;
use cl_base::{Name, NodeId, Outcome};
use node_addresses::on_client;
use node_devices::{before_command, take_device_answer, take_write_answer};
use node_groups::take_report;
use node_model::{Cluster, Input, Node, Output, Stop, UpNode, give, hand_over};
use node_updates::take_command;
use record_disk::RecordDisk;
use status_report::{DownCause, Entry, NodeEntry};
use std::alloc::{AllocError, Global};
use std::mem;

/// Does what is left of the step. A node that goes down tells it last.
#[tactic(auto, using(node_model::proofs::Plans::done_is, node_model::proofs::Plans::fallen_is))]
pub(crate) fn finish<K: RecordDisk>(
    alloc: Global,
    cluster: &Cluster,
    me: NodeId,
    outcome: Outcome,
    disk: &mut K,
    node: &mut Node,
    input: &Input,
    due: Due,
    out: &mut Vec<Output>,
) -> Result<(), AllocError>
    requires answer { IsAnswered input.now }
    requires due { IsDueAt me node.old due }
    ensures { OnOk result (record { after = node.new; given = out.new.items; disk = disk.new } ≡ finished K.saving cluster.now me outcome node.old input.now due out.old.items disk.old) }
{
    let Node::Up(up) = mem::replace(node, Node::Down) else {
        return Ok(());
    };
    match do_rest(alloc, cluster, me, outcome, disk, up, input, due, out) {
        Ok(up) => {
            *node = Node::Up(up);
            Ok(())
        }
        Err(Stop::Down(why)) => tell_down(me, why, out),
        Err(Stop::NoMemory) => Err(AllocError),
    }
}

/// The node is down: it tells that last.
pub(crate) fn tell_down(me: NodeId, why: DownCause, out: &mut Vec<Output>) -> Result<(), AllocError>
    ensures { OnOk result (out.new.items ≡ out.old.items ++ Tells (trace.Node me (note.Down why)) ∷ []) }
{
    let entry = Entry::Node {
        node: me,
        entry: NodeEntry::Down(why),
    };
    give(out, Output::Tells(entry))?;
    Ok(())
}

fn do_rest<K: RecordDisk>(
    alloc: Global,
    cluster: &Cluster,
    me: NodeId,
    outcome: Outcome,
    disk: &mut K,
    up: UpNode,
    input: &Input,
    due: Due,
    out: &mut Vec<Output>,
) -> Result<UpNode, Stop>
    requires answer { IsAnswered input.now }
    requires due { MayFollow me up due }
    ensures { Follows K.saving (rest_of cluster.now me outcome up input.now due) out.old.items disk.old result out.new.items disk.new }
{
    match due {
        Due::Attempt(due) => tick_attempt(alloc, cluster, me, disk, up, due, out),
        Due::Govern(again) => govern(alloc, cluster, me, outcome, disk, up, again, out),
        Due::All => step_up(alloc, cluster, me, outcome, disk, up, input, out),
    }
}

#[tactic(auto, using(node_model::proofs::Plans::gives_follows))]
fn step_up<K: RecordDisk>(
    alloc: Global,
    cluster: &Cluster,
    me: NodeId,
    outcome: Outcome,
    disk: &mut K,
    up: UpNode,
    input: &Input,
    out: &mut Vec<Output>,
) -> Result<UpNode, Stop>
    requires answer { IsAnswered input.now }
    ensures { Follows K.saving (untouched cluster.now me outcome up input.now) out.old.items disk.old result out.new.items disk.new }
{
    match input {
        Input::Boot | Input::Tick => Ok(up),
        Input::Crash => hand_over(up, Err(Stop::Down(DownCause::Crash))),
        Input::Packet { from, message } => {
            take_packet(alloc, cluster, me, outcome, disk, up, *from, message, out)
        }
        Input::CommandDue => before_command(alloc, me, disk, up, out),
        Input::Answered(answer) => take_device_answer(alloc, cluster, me, disk, up, *answer, out),
        Input::Wrote {
            device,
            value,
            answer,
        } => take_write_answer(me, up, *device, *value, *answer, out),
        Input::Commanded(words) => take_command(alloc, cluster, me, disk, up, words.items(), out),
        Input::Reported { resource, good } => {
            take_report(alloc, cluster, me, disk, up, resource, *good, out)
        }
        Input::Client {
            address,
            client,
            port,
        } => take_client(alloc, cluster, up, address, *client, *port, out),
    }
}

/// A client's request is served.
#[tactic(auto, using(crate::proofs::Handed::kept_gives))]
fn take_client(
    alloc: Global,
    cluster: &Cluster,
    mut up: UpNode,
    address: &Name,
    client: u32,
    port: u16,
    out: &mut Vec<Output>,
) -> Result<UpNode, Stop>
    ensures { Gives (on_client cluster.now up address.now client port) out.old.items result out.new.items }
{
    let done = on_client(alloc, cluster, &mut up, address, client, port, out);
    hand_back(up, done)
}
