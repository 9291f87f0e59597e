// Refusals of commands on votes and nodes.
ghost use Rattle.std.specs.Prelude.{◌≡◌, ◌≤◌};
ghost use Rattle.quorum_votes.specs.Changes.{IsVote};
ghost use Rattle.ccr_tables.specs.Changes.{state_after, voted};
ghost use Rattle.ccr_tables.specs.Refusals.{vote_number};
ghost use Rattle.admin_commands.specs.Votes.{device_not_held, gives_votes, lacking, lose_quorum, node_has_vote, node_is_member};

use crate::numbers::where_so;
use ccr_tables::{Config, DeviceChange, Update};
use cl_base::{DevSet, NodeSet, Refusal};
use quorum_votes::{DevState, VoteChange, Votes};

/// 21: the node that is to lose its vote, or to be taken out, is a member.
pub fn node_is_member(members: NodeSet, u: &Update) -> Option<Refusal>
    ensures { result ≡ node_is_member members u.now }
{
    match u {
        Update::NodeVote { node, vote } => where_so(
            !*vote && members.has(*node),
            Refusal::NodeIsMember,
        ),
        Update::RemoveNode(node) => where_so(members.has(*node), Refusal::NodeIsMember),
        _ => None,
    }
}

/// 22: the membership does not hold the device that is to have votes.
pub fn device_not_held(held: DevSet, u: &Update) -> Option<Refusal>
    ensures { result ≡ device_not_held held u.now }
{
    match u {
        Update::Device { device, change } => where_so(
            gives_votes(*change) && !held.has(*device),
            Refusal::DeviceNotHeld,
        ),
        _ => None,
    }
}

fn gives_votes(change: DeviceChange) -> bool
    ensures { result ≡ gives_votes change }
{
    match change {
        DeviceChange::Add | DeviceChange::Enable => true,
        DeviceChange::Remove | DeviceChange::Disable => false,
    }
}

/// 23: under the new votes the membership would have no majority.
pub fn lose_quorum(config: &Config, members: NodeSet, held: DevSet, u: &Update) -> Option<Refusal>
    ensures { result ≡ lose_quorum config.now members held u.now }
{
    match u {
        Update::Device { device, change } => {
            let change = VoteChange::Device {
                dev: *device,
                state: state_after(*change),
            };
            lacking(&voted(config.votes(), change), members, held)
        }
        Update::NodeVote { node, vote } => {
            let change = VoteChange::NodeVote {
                node: *node,
                vote: vote_number(*vote),
            };
            lacking(&voted(config.votes(), change), members, held)
        }
        _ => None,
    }
}

fn state_after(change: DeviceChange) -> DevState
    ensures { result ≡ state_after change }
{
    match change {
        DeviceChange::Add | DeviceChange::Enable => DevState::Enabled,
        DeviceChange::Remove => DevState::Absent,
        DeviceChange::Disable => DevState::Disabled,
    }
}

fn vote_number(vote: bool) -> u64
    ensures value { result ≡ vote_number vote }
    ensures most { result ≤ 1 }
{
    if vote { 1 } else { 0 }
}

/// The votes with the change.
fn voted(votes: &Votes, change: VoteChange) -> Votes
    requires { IsVote change }
    ensures { result ≡ voted votes.now change }
{
    match votes.change(change) {
        Ok(new) => new,
        Err(_) => *votes,
    }
}

/// The refusal, where the members and the devices held have less votes than are needed.
fn lacking(votes: &Votes, members: NodeSet, held: DevSet) -> Option<Refusal>
    ensures { result ≡ lacking votes.now members held }
{
    let have = votes.held(members, held);
    let need = votes.needed();
    if have < need {
        Some(Refusal::LoseQuorum { have, need })
    } else {
        None
    }
}

/// 25: the node that is to be taken out has a vote.
pub fn node_has_vote(config: &Config, u: &Update) -> Option<Refusal>
    ensures { result ≡ node_has_vote config.now u.now }
{
    match u {
        Update::RemoveNode(node) => where_so(
            config.votes().node_vote(*node) == 1,
            Refusal::NodeHasVote,
        ),
        _ => None,
    }
}
