// How the votes stand.
ghost use Rattle.std.specs.Prelude.{◌≡◌, ◌++◌, IfOk, OnOk};
ghost use Rattle.cl_base.specs.Limits.{most_devices, most_nodes};
ghost use Rattle.query_lines.specs.Lines.{device_line, device_lines_to, node_line, node_lines_to, quorum_lines, standing};

use cl_base::{DevId, DevSet, NodeId, NodeSet};
use quorum_votes::{DevState, Votes};
use status_report::{QuorumState, StatusEntry};
use std::alloc::{AllocError, Global};

/// How the votes stand in a membership with these members, which holds these devices: all votes and
/// those needed; each configured node by number; each quorum device by number.
pub fn quorum_lines(
    alloc: Global,
    votes: &Votes,
    members: NodeSet,
    held: DevSet,
) -> Result<Vec<StatusEntry>, AllocError>
    ensures value { IfOk result (λ lines. lines.items ≡ quorum_lines votes.now members held) }
{
    let mut lines = vec![in alloc;
        StatusEntry::QuorumVotes {
            total: votes.total(),
            need: votes.needed(),
        },
    ]?;
    push_nodes(&mut lines, votes, members)?;
    push_devices(&mut lines, votes, held)?;
    Ok(lines)
}

fn push_nodes(
    lines: &mut Vec<StatusEntry>,
    votes: &Votes,
    members: NodeSet,
) -> Result<(), AllocError>
    ensures { OnOk result (lines.new.items ≡ lines.old.items ++ node_lines_to votes.now members most_nodes) }
{
    for place in 0..NodeId::MOST {
        if let Ok(node) = NodeId::new(place + 1) {
            push_node(lines, votes, members, node)?;
        }
    }
    Ok(())
}

/// The line of the node, where it is configured.
fn push_node(
    lines: &mut Vec<StatusEntry>,
    votes: &Votes,
    members: NodeSet,
    node: NodeId,
) -> Result<(), AllocError>
    ensures { OnOk result (lines.new.items ≡ lines.old.items ++ node_line votes.now members node) }
{
    if votes.configured(node) {
        lines.push(StatusEntry::QuorumNode {
            node,
            vote: votes.node_vote(node),
            member: members.has(node),
        })?;
    }
    Ok(())
}

fn push_devices(lines: &mut Vec<StatusEntry>, votes: &Votes, held: DevSet) -> Result<(), AllocError>
    ensures { OnOk result (lines.new.items ≡ lines.old.items ++ device_lines_to votes.now held most_devices) }
{
    for place in 0..DevId::MOST {
        if let Ok(device) = DevId::new(place + 1) {
            push_device(lines, votes, held, device)?;
        }
    }
    Ok(())
}

/// The line of the device, where it is a quorum device.
fn push_device(
    lines: &mut Vec<StatusEntry>,
    votes: &Votes,
    held: DevSet,
    device: DevId,
) -> Result<(), AllocError>
    ensures { OnOk result (lines.new.items ≡ lines.old.items ++ device_line votes.now held device) }
{
    if let Some(state) = standing(votes.device_state(device), held.has(device)) {
        lines.push(StatusEntry::QuorumDevice {
            device,
            votes: votes.device_votes(device),
            state,
        })?;
    }
    Ok(())
}

/// How a device stands, if it is a quorum device.
fn standing(state: DevState, held: bool) -> Option<QuorumState>
    ensures { result ≡ standing state held }
{
    match state {
        DevState::Absent => None,
        DevState::Disabled => Some(QuorumState::Off),
        DevState::Enabled if held => Some(QuorumState::Held),
        DevState::Enabled => Some(QuorumState::Lost),
    }
}
