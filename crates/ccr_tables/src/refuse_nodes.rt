// Why updates of devices, nodes and load limits are refused.
ghost use Rattle.std.specs.Prelude.{◌≡◌, ◌≤◌, None};
ghost use Rattle.ccr_tables.specs.Refusals.{is_added_device, is_known_device, is_quorum_device, is_same_device, refusal_of, vote_number};
ghost use Rattle.ccr_tables.specs.declared.update.Update.TheVariants.{Device, NodeVote, AddNode, RemoveNode, CreateLimit, DeleteLimit};

use crate::config::Config;
use crate::shorthand::{unknown, unknown_device, unknown_node};
use crate::update::DeviceChange;
use cl_base::{DevId, Name, NodeId, Refusal};
use quorum_votes::DevState;

/// The greatest limit.
const MOST_LOAD: u64 = 1_000_000;

impl Config {
    pub(crate) fn device_refusal(&self, d: DevId, change: DeviceChange) -> Option<Refusal>
        ensures { result ≡ refusal_of self.now (Device d change) }
    {
        if !self.is_known_device(d, change) {
            return unknown_device(d);
        }
        if self.is_added_device(d, change) {
            return Some(Refusal::Exists);
        }
        if self.is_same_device(d, change) {
            return Some(Refusal::SameValue);
        }
        None
    }

    fn is_quorum_device(&self, d: DevId) -> bool
        ensures { result ≡ is_quorum_device self.now d }
    {
        self.votes.device_state(d) != DevState::Absent
    }

    fn is_known_device(&self, d: DevId, change: DeviceChange) -> bool
        ensures { result ≡ is_known_device self.now d change }
    {
        match change {
            DeviceChange::Add => self.has_device(d),
            DeviceChange::Remove | DeviceChange::Enable | DeviceChange::Disable => {
                self.is_quorum_device(d)
            }
        }
    }

    fn is_added_device(&self, d: DevId, change: DeviceChange) -> bool
        ensures { result ≡ is_added_device self.now d change }
    {
        match change {
            DeviceChange::Add => self.is_quorum_device(d),
            DeviceChange::Remove | DeviceChange::Enable | DeviceChange::Disable => false,
        }
    }

    fn is_same_device(&self, d: DevId, change: DeviceChange) -> bool
        ensures { result ≡ is_same_device self.now d change }
    {
        match change {
            DeviceChange::Add | DeviceChange::Remove => false,
            DeviceChange::Enable => self.votes.device_state(d) == DevState::Enabled,
            DeviceChange::Disable => self.votes.device_state(d) == DevState::Disabled,
        }
    }

    pub(crate) fn node_vote_refusal(&self, n: NodeId, vote: bool) -> Option<Refusal>
        ensures { result ≡ refusal_of self.now (NodeVote n vote) }
    {
        if !self.votes.configured(n) {
            return unknown_node(n);
        }
        if self.votes.node_vote(n) == vote_number(vote) {
            return Some(Refusal::SameValue);
        }
        None
    }

    pub(crate) fn add_node_refusal(&self, n: NodeId) -> Option<Refusal>
        ensures { result ≡ refusal_of self.now (AddNode n) }
    {
        if n.number() > self.nodes {
            return unknown_node(n);
        }
        if self.votes.configured(n) {
            return Some(Refusal::Exists);
        }
        None
    }

    pub(crate) fn remove_node_refusal(&self, n: NodeId) -> Option<Refusal>
        ensures { result ≡ refusal_of self.now (RemoveNode n) }
    {
        if !self.votes.configured(n) {
            return unknown_node(n);
        }
        match self.user_of_node(n) {
            Some(user) => Some(Refusal::InUse(user)),
            None => None,
        }
    }

    pub(crate) fn create_limit_refusal(
        &self,
        n: NodeId,
        limit: &Name,
        soft: u64,
        hard: u64,
    ) -> Option<Refusal>
        ensures { result ≡ refusal_of self.now (CreateLimit n limit.now soft hard) }
    {
        if !self.votes.configured(n) {
            return unknown_node(n);
        }
        if self.limits.limit(n, limit).is_some() {
            return Some(Refusal::Exists);
        }
        if soft > hard || hard > MOST_LOAD {
            return Some(Refusal::BadSetting);
        }
        None
    }

    pub(crate) fn delete_limit_refusal(&self, n: NodeId, limit: &Name) -> Option<Refusal>
        ensures { result ≡ refusal_of self.now (DeleteLimit n limit.now) }
    {
        if !self.votes.configured(n) {
            return unknown_node(n);
        }
        if self.limits.limit(n, limit).is_none() {
            return unknown(limit);
        }
        None
    }
}

/// A node with a vote has vote 1.
pub(crate) fn vote_number(vote: bool) -> u64
    ensures value { result ≡ vote_number vote }
    ensures most { result ≤ 1 }
{
    if vote { 1 } else { 0 }
}
