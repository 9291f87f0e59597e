ghost use Rattle.std.specs.Prelude.{◌≡◌};
ghost use Rattle.node_model.specs.Clusters.{first_valid_of, has_path, is_first_valid, is_within};

use crate::first_header::FirstHeader;
use cl_base::{DevId, DevSet, NodeId, NodeSet};
use cmm_attempt::{AttachedDevice, AttachedDevices};
use quorum_votes::Votes;

/// What every node knows of its cluster from the beginning.
#[derive(Drop)]
pub struct Cluster {
    /// The header of the schedule, which the first configuration is made of.
    pub header: FirstHeader,
    /// The number of the cluster, which is in its nodes' keys.
    pub id: u32,
    /// The nodes that there are.
    pub nodes: NodeSet,
    /// The nodes that are configured at first.
    pub configured: NodeSet,
    /// The shared devices that there are.
    pub devices: DevSet,
    /// These devices, by number, and the nodes that have a path to each.
    pub attached: AttachedDevices,
    /// The devices that are valid before its first record to each configured node with a path: the quorum devices.
    pub first_valid: DevSet,
    /// The votes at first.
    pub votes: Votes,
}

impl Cluster {
    /// Whether the node has a path to the device.
    pub fn has_path(&self, n: NodeId, d: DevId) -> bool
        ensures value { result ≡ has_path self.now.attached n d }
    {
        self.attached
            .items()
            .iter()
            .any(|a| a.device == d && a.nodes.has(n))
    }

    /// The devices that are valid to the node before its first record.
    pub fn first_valid_of(&self, me: NodeId) -> DevSet
        ensures value { result ≡ first_valid_of self.now me }
    {
        let none = DevSet::empty();
        self.attached.items().iter().fold(none, |set, a| {
            if self.is_first_valid(me, a) {
                set.with(a.device)
            } else {
                set
            }
        })
    }

    fn is_first_valid(&self, me: NodeId, a: &AttachedDevice) -> bool
        ensures { result ≡ is_first_valid self.now me a.now }
    {
        self.configured.has(me) && self.first_valid.has(a.device) && a.nodes.has(me)
    }

    /// Whether each of these nodes is there.
    pub fn has_nodes(&self, nodes: NodeSet) -> bool
        ensures value { result ≡ is_within nodes self.now.nodes }
    {
        nodes.bits() | self.nodes.bits() == self.nodes.bits()
    }

    /// Whether each of these devices is there.
    pub fn has_devices(&self, devices: DevSet) -> bool
        ensures value { result ≡ is_within devices self.now.devices }
    {
        devices.bits() | self.devices.bits() == self.devices.bits()
    }
}
