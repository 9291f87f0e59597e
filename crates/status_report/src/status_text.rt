ghost use Rattle.std.specs.Prelude.{◌≡◌, ◌∷◌, [], IfOk};
ghost use Rattle.std.specs.Fmt.{decimal};
ghost use Rattle.status_report.specs.Words.{spaced};
ghost use Rattle.status_report.specs.StatusLines.{status_text, table_text};
ghost use Rattle.status_report.specs.declared.status_entry.StatusEntry.TheVariants.{Why, QuorumNode, QuorumDevice};
ghost use Rattle.status_report.specs.declared.status_entry.TableLine.TheVariants.{Row};

use crate::status_entry::{QuorumState, StatusEntry, TableLine};
use crate::status_words::{
    group_state_word, member_word, quorum_state_word, reason_text, resource_state_word,
};
use crate::words::{named, with_bytes};
use cl_base::{Bytes, DevId, Name, NodeId, Reason};
use std::alloc::{AllocError, Global};

/// A line of a query's answer.
pub fn status_line(alloc: Global, entry: &StatusEntry) -> Result<Vec<u8>, AllocError>
    ensures { IfOk result (λ line. line.items ≡ status_text entry.now) }
{
    match entry {
        StatusEntry::Group { group, node, state } => state_line(
            alloc,
            "rg",
            group,
            *node,
            group_state_word(*state),
        ),
        StatusEntry::Why {
            group,
            node,
            reason,
        } => why_line(alloc, group, *node, reason),
        StatusEntry::Resource {
            resource,
            node,
            state,
        } => state_line(alloc, "rs", resource, *node, resource_state_word(*state)),
        StatusEntry::QuorumVotes { total, need } => Ok(format!(in alloc;
            "quorum votes {total} need {need}"
        )?.into_bytes()),
        StatusEntry::QuorumNode { node, vote, member } => quorum_node_line(
            alloc, *node, *vote, *member,
        ),
        StatusEntry::QuorumDevice {
            device,
            votes,
            state,
        } => quorum_device_line(alloc, *device, *votes, *state),
        StatusEntry::Table(line) => table_line(alloc, line),
    }
}

fn state_line(
    alloc: Global,
    kind: &'static str,
    name: &Name,
    node: NodeId,
    state: &'static str,
) -> Result<Vec<u8>, AllocError>
    ensures { IfOk result (λ line. line.items ≡ spaced (kind.now ∷ name.now ∷ decimal node ∷ state.now ∷ [])) }
{
    let node = node.number();
    let mut line = with_bytes(format!(in alloc; "{kind} ")?, name.bytes())?;
    let rest = format!(in alloc; " {node} {state}")?;
    line.extend_from_slice(rest.as_bytes())?;
    Ok(line)
}

fn why_line(
    alloc: Global,
    group: &Name,
    node: NodeId,
    reason: &Reason,
) -> Result<Vec<u8>, AllocError>
    ensures { IfOk result (λ line. line.items ≡ status_text (Why group.now node reason.now)) }
{
    let node = node.number();
    let mut line = named(alloc, "why ", group)?;
    let place = format!(in alloc; " {node} ")?;
    line.extend_from_slice(place.as_bytes())?;
    let reason = reason_text(alloc, reason)?;
    line.extend_from_slice(reason.as_slice())?;
    Ok(line)
}

fn quorum_node_line(
    alloc: Global,
    node: NodeId,
    vote: u64,
    member: bool,
) -> Result<Vec<u8>, AllocError>
    ensures { IfOk result (λ line. line.items ≡ status_text (QuorumNode node vote member)) }
{
    let node = node.number();
    let member = member_word(member);
    Ok(format!(in alloc; "quorum node {node} {vote} {member}")?.into_bytes())
}

fn quorum_device_line(
    alloc: Global,
    device: DevId,
    votes: u64,
    state: QuorumState,
) -> Result<Vec<u8>, AllocError>
    ensures { IfOk result (λ line. line.items ≡ status_text (QuorumDevice device votes state)) }
{
    let device = device.number();
    let state = quorum_state_word(state);
    Ok(format!(in alloc; "quorum device {device} {votes} {state}")?.into_bytes())
}

fn table_line(alloc: Global, line: &TableLine) -> Result<Vec<u8>, AllocError>
    ensures { IfOk result (λ text. text.items ≡ table_text line.now) }
{
    match line {
        TableLine::Generation(number) => Ok(format!(in alloc;
            "table ccr_gennum {number}"
        )?.into_bytes()),
        TableLine::Checksum(digest) => {
            let digits = hex::encode(alloc, digest.as_slice())?;
            Ok(format!(in alloc; "table ccr_checksum {digits}")?.into_bytes())
        }
        TableLine::Row { key, value } => row_line(alloc, key, value),
    }
}

fn row_line(alloc: Global, key: &Bytes, value: &Bytes) -> Result<Vec<u8>, AllocError>
    ensures { IfOk result (λ text. text.items ≡ table_text (Row key.now value.now)) }
{
    let mut line = with_bytes(String::from_str(alloc, "table ")?, key.items())?;
    line.push(b'\t')?;
    line.extend_from_slice(value.items())?;
    Ok(line)
}
