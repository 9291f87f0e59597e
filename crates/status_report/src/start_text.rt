ghost use Rattle.std.specs.Prelude.{◌≡◌, ◌++◌, codes, IfOk};
ghost use Rattle.std.specs.String.{string_bytes};
ghost use Rattle.status_report.specs.StartLines.{start_text, flags_text, letter_if};
ghost use Rattle.status_report.specs.declared.start_entry.StartEntry.TheVariants.{Started, Base, Adopted};

use crate::start_entry::{AdoptedFlags, StartEntry};
use crate::words::with_bytes;
use cl_base::{Bytes, DevSet, Epoch, Name, NodeId, NodeSet};
use std::alloc::{AllocError, Global};

/// What a membership starts with.
pub fn start_line(alloc: Global, entry: &StartEntry) -> Result<Vec<u8>, AllocError>
    ensures { IfOk result (λ line. line.items ≡ start_text entry.now) }
{
    match entry {
        StartEntry::Started {
            epoch,
            members,
            held,
            base,
        } => started_line(alloc, *epoch, *members, *held, *base),
        StartEntry::Base {
            epoch,
            place,
            words,
        } => base_line(alloc, *epoch, *place, words),
        StartEntry::Adopted {
            epoch,
            node,
            resource,
            flags,
        } => adopted_line(alloc, *epoch, *node, resource, *flags),
    }
}

fn started_line(
    alloc: Global,
    epoch: Epoch,
    members: NodeSet,
    held: DevSet,
    base: u64,
) -> Result<Vec<u8>, AllocError>
    ensures { IfOk result (λ line. line.items ≡ start_text (Started epoch members held base)) }
{
    let epoch = epoch.number();
    let members = members.text(alloc)?;
    let held = held.text(alloc)?;
    Ok(format!(in alloc; "start {epoch} {members} held {held} base {base}")?.into_bytes())
}

#[tactic(auto, using(crate::proofs::Joins::joined_once))]
fn base_line(alloc: Global, epoch: Epoch, place: u64, words: &Bytes) -> Result<Vec<u8>, AllocError>
    ensures { IfOk result (λ line. line.items ≡ start_text (Base epoch place words.now)) }
{
    let epoch = epoch.number();
    with_bytes(format!(in alloc; "base {epoch} {place} ")?, words.items())
}

fn adopted_line(
    alloc: Global,
    epoch: Epoch,
    node: NodeId,
    resource: &Name,
    flags: AdoptedFlags,
) -> Result<Vec<u8>, AllocError>
    ensures { IfOk result (λ line. line.items ≡ start_text (Adopted epoch node resource.now flags)) }
{
    let epoch = epoch.number();
    let node = node.number();
    let mut line = with_bytes(
        format!(in alloc; "adopt {epoch} {node} ")?,
        resource.bytes(),
    )?;
    let flags = flags_text(alloc, flags)?;
    line.extend_from_slice(flags.as_bytes())?;
    Ok(line)
}

/// A space, and the letters of the flags that are set.
fn flags_text(alloc: Global, flags: AdoptedFlags) -> Result<String, AllocError>
    ensures { IfOk result (λ text. string_bytes text ≡ codes " " ++ flags_text flags) }
{
    let pre = letter_if(flags.pre, "p");
    let run = letter_if(flags.run, "r");
    let mon = letter_if(flags.mon, "m");
    let faulted = letter_if(flags.faulted, "f");
    let stop_failed = letter_if(flags.stop_failed, "s");
    format!(in alloc; " {pre}{run}{mon}{faulted}{stop_failed}")
}

fn letter_if(set: bool, letter: &'static str) -> &'static str
    ensures { result.now ≡ letter_if set letter.now }
{
    if set { letter } else { "" }
}
