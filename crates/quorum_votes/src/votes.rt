ghost use Rattle.std.specs.Prelude.{◌≡◌, ◌≤◌, ◌<◌, ◌*◌, ◌↔◌, ℕ, length, MatchResult};
ghost use Rattle.quorum_votes.specs.Sums.{sum_to};
ghost use Rattle.quorum_votes.specs.Votes.{node_at, device_at, vote_in, vote_of, is_configured, node_votes_of, device_votes_of, state_of, total_of, held_of, needed_of, device_share, first_of, first_nodes, first_node, first_device, first_devices};
ghost use Rattle.quorum_votes.specs.Changes.{changed, with_vote, with_state, with_configured, without_node, with_node, IsVote, OthersStay};
ghost use Rattle.quorum_votes.specs.Changes.{Changes, ChangesVote, ChangesDevice, Configures, Removes};
ghost use Rattle.quorum_votes.specs.Changes.{IsRefused, IsVoteRefused, IsDeviceRefused, IsConfiguringRefused, IsRemovalRefused};
ghost use Rattle.cl_base.specs.Limits.{most_nodes, most_devices};

use crate::change::{VoteChange, VoteError};
use crate::state::{DevState, NodeState, VoteDevice};
use cl_base::{DevId, DevSet, DeviceKind, Header, HeaderDevice, NodeId, NodeSet};
use std::marker::Model;

/// Who has how many votes: what each node and each device of the header counts for. It is kept in
/// place. Contracts see it as a `VoteTable`.
#[derive(Clone, Copy, Debug, PartialEq, Eq)]
pub struct Votes {
    nodes: [NodeState; 32],
    devices: [Option<VoteDevice>; 16],
}

impl Model for Votes {
    ghost use Rattle.std.specs.Prelude.{◌≡◌, length};
    ghost use Rattle.quorum_votes.specs.Tables.{VoteTable};

    ghost Value = { VoteTable };

    ghost view = { λ v. record { nodes = v.nodes; devices = v.devices } };

    ghost invariant = { λ v. (length v.nodes ≡ 32) × (length v.devices ≡ 16) };

    ghost inverse = { λ v. record { nodes = v.nodes; devices = v.devices } };
}

impl Votes {
    /// What a cluster begins with: the nodes that the header configures have vote 1, and no other is
    /// configured; of its devices, at most 16, the quorum devices and the servers are enabled, and
    /// the data devices absent.
    pub fn first(h: &Header) -> Votes
        requires devices { length h.now.devices ≤ most_devices }
        ensures value { result ≡ first_of h.now }
        ensures nodes { (n : ℕ) → 1 ≤ n → n ≤ most_nodes → node_at result n ≡ first_node h.now.configured n }
    {
        Votes {
            nodes: first_nodes(h.configured),
            devices: first_devices(h.devices.items()),
        }
    }

    /// The node's vote: 1, or 0 in maintenance or where it is not configured.
    pub fn node_vote(&self, n: NodeId) -> u64
        ensures value { result ≡ vote_of self.now n }
        ensures most { result ≤ 1 }
    {
        self.state_of_node(n).vote()
    }

    /// Whether the node is configured.
    pub fn configured(&self, n: NodeId) -> bool
        ensures value { result ≡ is_configured self.now n }
    {
        self.state_of_node(n) != NodeState::Unconfigured
    }

    /// The device's votes: one less than its attached nodes with vote 1 where it is enabled and has
    /// any, else 0.
    pub fn device_votes(&self, d: DevId) -> u64
        ensures value { result ≡ device_votes_of self.now d }
        ensures most { result ≤ 31 }
    {
        match self.device(d) {
            Some(device) if device.state == DevState::Enabled => {
                self.node_votes(device.attached).saturating_sub(1)
            }
            _ => 0,
        }
    }

    /// The device's state; `Absent` also where the header does not have it.
    pub fn device_state(&self, d: DevId) -> DevState
        ensures value { result ≡ state_of (device_at self.now d) }
    {
        match self.device(d) {
            Some(device) => device.state,
            None => DevState::Absent,
        }
    }

    /// All votes of nodes and devices.
    pub fn total(&self) -> u64
        ensures value { result ≡ total_of self.now }
        ensures most { result ≤ 528 }
    {
        self.votes_of_nodes() + self.votes_of_devices()
    }

    /// How many votes a membership needs: more than half of all.
    pub fn needed(&self) -> u64
        ensures value { result ≡ needed_of self.now }
        ensures majority { (held : ℕ) → (result ≤ held) ↔ (total_of self.now < 2 * held) }
    {
        self.total() / 2 + 1
    }

    /// The votes of the members and of the devices held.
    pub fn held(&self, members: NodeSet, devices: DevSet) -> u64
        ensures value { result ≡ held_of self.now members devices }
        ensures within { result ≤ total_of self.now }
    {
        self.node_votes(members) + self.votes_of_held(devices)
    }

    /// The votes with this change, in which a vote is 0 or 1: all else stays. `Unknown` where it
    /// gives a vote to, or takes out, a node that is not configured, or names a device that the
    /// header does not have, else `SameValue` where it changes nothing. Each node from 1 to 32 that
    /// is not configured can be: whether the header has it is not known here. A node with vote 1 that
    /// is taken out loses its vote.
    pub fn change(&self, c: VoteChange) -> Result<Votes, VoteError>
        requires { IsVote c }
        ensures value { result ≡ changed self.now c }
        ensures outcome { MatchResult result (λ new. Changes self.now c new) (λ e. IsRefused self.now c e) }
    {
        match c {
            VoteChange::NodeVote { node, vote } => self.with_vote(node, vote),
            VoteChange::Device { dev, state } => self.with_state(dev, state),
            VoteChange::Configure(node) => self.with_configured(node),
            VoteChange::Remove(node) => self.without_node(node),
        }
    }

    fn with_vote(&self, n: NodeId, vote: u64) -> Result<Votes, VoteError>
        requires { vote ≤ 1 }
        ensures value { result ≡ with_vote self.now n vote (node_at self.now n) }
        ensures outcome { MatchResult result (λ new. ChangesVote self.now n vote new) (λ e. IsVoteRefused self.now n vote e) }
    {
        let old = self.state_of_node(n);
        if old == NodeState::Unconfigured {
            return Err(VoteError::Unknown);
        }
        if old.vote() == vote {
            return Err(VoteError::SameValue);
        }
        let state = if vote == 1 {
            NodeState::Voting
        } else {
            NodeState::Maintenance
        };
        Ok(self.with_node(n, state))
    }

    fn with_configured(&self, n: NodeId) -> Result<Votes, VoteError>
        ensures value { result ≡ with_configured self.now n (node_at self.now n) }
        ensures outcome { MatchResult result (λ new. Configures self.now n new) (λ e. IsConfiguringRefused self.now n e) }
    {
        if self.state_of_node(n) != NodeState::Unconfigured {
            return Err(VoteError::SameValue);
        }
        Ok(self.with_node(n, NodeState::Maintenance))
    }

    fn without_node(&self, n: NodeId) -> Result<Votes, VoteError>
        ensures value { result ≡ without_node self.now n (node_at self.now n) }
        ensures outcome { MatchResult result (λ new. Removes self.now n new) (λ e. IsRemovalRefused self.now n e) }
    {
        if self.state_of_node(n) == NodeState::Unconfigured {
            return Err(VoteError::Unknown);
        }
        Ok(self.with_node(n, NodeState::Unconfigured))
    }

    /// The same votes, but that the node counts for this.
    fn with_node(&self, n: NodeId, state: NodeState) -> Votes
        ensures value { result ≡ with_node self.now n state }
        ensures after { node_at result n ≡ state }
        ensures others { OthersStay self.now n result }
    {
        let mut next = *self;
        next.nodes[n.number() as usize - 1] = state;
        next
    }

    fn with_state(&self, d: DevId, state: DevState) -> Result<Votes, VoteError>
        ensures value { result ≡ with_state self.now d state (device_at self.now d) }
        ensures outcome { MatchResult result (λ new. ChangesDevice self.now d state new) (λ e. IsDeviceRefused self.now d state e) }
    {
        let device = self.device(d).ok_or(VoteError::Unknown)?;
        if device.state == state {
            return Err(VoteError::SameValue);
        }
        let mut next = *self;
        next.devices[d.number() as usize - 1] = Some(VoteDevice { state, ..device });
        Ok(next)
    }

    fn state_of_node(&self, n: NodeId) -> NodeState
        ensures { result ≡ node_at self.now n }
    {
        self.nodes[n.number() as usize - 1]
    }

    /// The device, if the header has it.
    fn device(&self, d: DevId) -> Option<VoteDevice>
        ensures { result ≡ device_at self.now d }
    {
        self.devices[d.number() as usize - 1]
    }

    /// The votes of the nodes in the set.
    #[tactic(auto, using(crate::proofs::SumLemmas::sum_to_none, crate::proofs::SumLemmas::sum_to_more))]
    fn node_votes(&self, nodes: NodeSet) -> u64
        ensures value { result ≡ node_votes_of self.now nodes }
        ensures most { result ≤ 32 }
    {
        let mut votes = 0;
        for place in 0..NodeId::MOST {
            if let Ok(n) = NodeId::new(place + 1)
                && nodes.has(n)
            {
                votes += self.node_vote(n);
            }
        }
        votes
    }

    /// The votes of all nodes.
    #[tactic(auto, using(crate::proofs::SumLemmas::sum_to_none, crate::proofs::SumLemmas::sum_to_more))]
    fn votes_of_nodes(&self) -> u64
        ensures value { result ≡ sum_to (vote_of self.now) 32 }
        ensures most { result ≤ 32 }
    {
        let mut votes = 0;
        for place in 0..NodeId::MOST {
            if let Ok(n) = NodeId::new(place + 1) {
                votes += self.node_vote(n);
            }
        }
        votes
    }

    /// The votes of the devices in the set.
    #[tactic(auto, using(crate::proofs::SumLemmas::sum_to_none, crate::proofs::SumLemmas::sum_to_more))]
    fn votes_of_held(&self, devices: DevSet) -> u64
        ensures value { result ≡ sum_to (device_share self.now devices) 16 }
        ensures most { result ≤ 496 }
    {
        let mut votes = 0;
        for place in 0..DevId::MOST {
            if let Ok(d) = DevId::new(place + 1)
                && devices.has(d)
            {
                votes += self.device_votes(d);
            }
        }
        votes
    }

    /// The votes of all devices.
    #[tactic(auto, using(crate::proofs::SumLemmas::sum_to_none, crate::proofs::SumLemmas::sum_to_more))]
    fn votes_of_devices(&self) -> u64
        ensures value { result ≡ sum_to (device_votes_of self.now) 16 }
        ensures most { result ≤ 496 }
    {
        let mut votes = 0;
        for place in 0..DevId::MOST {
            if let Ok(d) = DevId::new(place + 1) {
                votes += self.device_votes(d);
            }
        }
        votes
    }
}

impl NodeState {
    /// The vote of a node in this state.
    fn vote(self) -> u64
        ensures value { result ≡ vote_in self }
        ensures most { result ≤ 1 }
    {
        match self {
            NodeState::Voting => 1,
            NodeState::Maintenance | NodeState::Unconfigured => 0,
        }
    }
}

/// The nodes at first.
fn first_nodes(configured: NodeSet) -> [NodeState; 32]
    ensures { result ≡ first_nodes configured most_nodes }
{
    let mut nodes = [NodeState::Unconfigured; 32];
    for place in 0..nodes.len() {
        nodes[place] = first_node(configured, place as u64 + 1);
    }
    nodes
}

/// The node of this number, 1 to 32, at first.
fn first_node(configured: NodeSet, number: u64) -> NodeState
    requires high { number ≤ most_nodes }
    requires low { 1 ≤ number }
    ensures { result ≡ first_node configured number }
{
    match NodeId::new(number) {
        Ok(n) if configured.has(n) => NodeState::Voting,
        _ => NodeState::Unconfigured,
    }
}

/// The devices at first.
fn first_devices(listed: &[HeaderDevice]) -> [Option<VoteDevice>; 16]
    requires { length listed.now ≤ most_devices }
    ensures { result ≡ first_devices listed.now }
{
    let mut devices = [None; 16];
    for (place, device) in listed.iter().enumerate() {
        devices[place] = Some(first_device(*device));
    }
    devices
}

fn first_device(device: HeaderDevice) -> VoteDevice
    ensures { first_device device ≡ Some result }
{
    VoteDevice {
        state: match device.kind {
            DeviceKind::Quorum | DeviceKind::Server => DevState::Enabled,
            DeviceKind::Data => DevState::Absent,
        },
        attached: device.attached,
    }
}
