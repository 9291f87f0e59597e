ghost use Rattle.quorum_votes.specs.Changes.{IsVote};

use cl_base::{
    DevId, DevSet, DeviceKind, Header, HeaderDevice, HeaderDevices, NodeId, NodeSet, Version,
};
use quorum_votes::{DevState, VoteChange, VoteError, Votes};
use std::alloc::Global;
use std::process::Abort;
use std::test::Fail;

/// Four of five nodes are configured; quorum device 1 has paths to nodes 3 and 4, server 2 to nodes
/// 2 and 4, and device 3 is a data device.
fn four_nodes(alloc: Global) -> Result<Votes, Fail> {
    let one = HeaderDevice {
        kind: DeviceKind::Quorum,
        attached: NodeSet::from_bits(0b1100),
    };
    let two = HeaderDevice {
        kind: DeviceKind::Server,
        attached: NodeSet::from_bits(0b1010),
    };
    let data = HeaderDevice {
        kind: DeviceKind::Data,
        attached: NodeSet::from_bits(0b1111),
    };
    let devices = HeaderDevices::new(vec![in alloc; one, two, data]?);
    let header = Header {
        version: Version::Two,
        cluster: 42,
        nodes: 5,
        configured: NodeSet::from_bits(0b01111),
        devices,
    };
    Ok(Votes::first(&header))
}

fn expect(rt: &impl Abort, votes: &Votes, total: u64, needed: u64) {
    assert!(rt; votes.total() == total);
    assert!(rt; votes.needed() == needed);
}

fn changed(votes: &Votes, change: VoteChange) -> Result<Votes, Fail>
    requires { IsVote change }
{
    match votes.change(change) {
        Ok(votes) => Ok(votes),
        Err(_) => Err(Fail::new("refused")),
    }
}

/// The votes after the change.
fn expect_changed(
    rt: &impl Abort,
    votes: &Votes,
    change: VoteChange,
    total: u64,
    needed: u64,
) -> Result<(), Fail>
    requires { IsVote change }
{
    let votes = changed(votes, change)?;
    expect(rt, &votes, total, needed);
    Ok(())
}

fn is_unknown(votes: &Votes, change: VoteChange) -> bool
    requires { IsVote change }
{
    match votes.change(change) {
        Ok(_) => false,
        Err(error) => error == VoteError::Unknown,
    }
}

/// One more node has come, and may have a vote.
fn count_added(rt: &impl Abort, added: &Votes, node: NodeId, new: NodeId) -> Result<(), Fail> {
    expect(rt, added, 6, 4);
    let vote = VoteChange::NodeVote { node: new, vote: 1 };
    expect_changed(rt, added, vote, 7, 4)?;
    expect_changed(rt, added, VoteChange::Remove(node), 3, 2)
}

fn count(rt: &impl Abort, first: &Votes) -> Result<(), Fail> {
    let (node, new, dev) = (NodeId::new(4)?, NodeId::new(5)?, DevId::new(2)?);
    expect(rt, first, 6, 4);
    let (nodes, devices) = (NodeSet::from_bits(0b0011), DevSet::from_bits(0b010));
    assert!(rt; first.held(nodes, devices) == 3);
    let vote = VoteChange::NodeVote { node, vote: 0 };
    expect_changed(rt, first, vote, 3, 2)?;
    let state = DevState::Disabled;
    expect_changed(rt, first, VoteChange::Device { dev, state }, 5, 3)?;
    let vote = VoteChange::NodeVote { node: new, vote: 1 };
    assert!(rt; is_unknown(first, vote));
    let added = changed(first, VoteChange::Configure(new))?;
    count_added(rt, &added, node, new)
}

#[test]
fn counts_votes(rt: HostRuntime) -> Result<(), Fail> {
    let first = four_nodes(rt.alloc())?;
    count(&rt, &first)
}
