ghost use Rattle.std.specs.Prelude.{◌≡◌, ◌⊎◌, ◌++◌, ◌∷◌, [], None, OnOk, IfErr};
ghost use Rattle.status_report.specs.declared.entry.Entry.TheVariants as trace;
ghost use Rattle.status_report.specs.declared.node_entry.NodeEntry.TheVariants as note;
ghost use Rattle.node_model.specs.declared.output.Output.TheVariants.{Tells, Sends};
ghost use Rattle.node_model.specs.declared.stop.Stop.TheVariants.{NoMemory};
ghost use Rattle.node_model.specs.Plans.{KeepFails, cause_of};
ghost use Rattle.node_model.specs.Seats.{state_of};

use crate::seat::Seat;
use crate::stop::Stop;
use cl_base::{NodeId, Panic};
use record_disk::{DiskError, Loss, RecordDisk};
use status_report::{DownCause, Entry, NodeEntry};
use std::alloc::{AllocError, Global};
use wire::Body;

/// What a step of a node gives.
#[derive(Drop)]
pub enum Output {
    /// An entry of the trace.
    Tells(Entry),
    /// A message.
    Sends {
        /// Its receiver.
        to: NodeId,
        /// What it says.
        body: Body,
    },
}

/// The node gives this. What finds no room is let go here alone: its parts are many.
pub fn give(out: &mut Vec<Output>, output: Output) -> Result<(), AllocError>
    ensures given { OnOk result (out.new.items ≡ out.old.items ++ output ∷ []) }
{
    out.push(output)?;
    Ok(())
}

/// The node tells an entry.
pub fn tell(out: &mut Vec<Output>, entry: Entry) -> Result<(), Stop>
    ensures told { OnOk result (out.new.items ≡ out.old.items ++ Tells entry ∷ []) }
    ensures only { IfErr result (λ e. e ≡ NoMemory) }
{
    give(out, Output::Tells(entry))?;
    Ok(())
}

/// The node tells of itself.
pub fn tell_of(out: &mut Vec<Output>, me: NodeId, entry: NodeEntry) -> Result<(), Stop>
    ensures told { OnOk result (out.new.items ≡ out.old.items ++ Tells (trace.Node me entry) ∷ []) }
    ensures only { IfErr result (λ e. e ≡ NoMemory) }
{
    tell(out, Entry::Node { node: me, entry })
}

/// The node sends a message.
pub fn send(out: &mut Vec<Output>, to: NodeId, body: Body) -> Result<(), Stop>
    ensures sent { OnOk result (out.new.items ≡ out.old.items ++ Sends to body ∷ []) }
    ensures only { IfErr result (λ e. e ≡ NoMemory) }
{
    give(out, Output::Sends { to, body })?;
    Ok(())
}

/// The node saves its record, and tells it. Where the save is lost it goes down.
pub fn keep<K: RecordDisk>(
    alloc: Global,
    me: NodeId,
    disk: &mut K,
    seat: &Seat,
    out: &mut Vec<Output>,
) -> Result<(), Stop>
    ensures saved { OnOk result ((K.saving disk.old (state_of seat.now).saved).lost ≡ None) }
    ensures left { OnOk result (disk.new ≡ (K.saving disk.old (state_of seat.now).saved).after) }
    ensures told { OnOk result (out.new.items ≡ out.old.items ++ Tells (trace.Node me note.Saved) ∷ []) }
    ensures lost { IfErr result (KeepFails (K.saving disk.old (state_of seat.now).saved) out.old.items out.new.items disk.new) }
{
    match disk.save(alloc, seat.record()) {
        Ok(()) => tell_of(out, me, NodeEntry::Saved),
        Err(DiskError::Lost(loss)) => Err(Stop::Down(cause_of(loss))),
        Err(DiskError::NoMemory) => Err(Stop::NoMemory),
    }
}

/// Why a node goes down whose disk lost a save, or did not let it read its record.
pub fn cause_of(loss: Loss) -> DownCause
    ensures value { result ≡ cause_of loss }
{
    match loss {
        Loss::Stopped => DownCause::Stopped,
        Loss::Fault => DownCause::Panic(Panic::Disk),
    }
}
