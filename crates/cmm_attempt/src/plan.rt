ghost use Rattle.std.specs.Prelude.{◌≡◌, IfOk};
ghost use Rattle.cmm_attempt.specs.Plans.{is_reachable, others_of};

use crate::attached::{AttachedDevice, AttachedDevices};
use cl_base::{Epoch, Items, NodeId, NodeSet};
use std::alloc::{AllocError, Global};

/// Nodes, ascending.
pub type Nodes = Items<NodeId>;

/// What an attempt is of; this stays from its beginning to its end.
#[derive(Drop)]
pub struct Plan {
    /// The attempt's epoch.
    pub epoch: Epoch,
    /// The node that coordinates it.
    pub coordinator: NodeId,
    /// The members.
    pub members: NodeSet,
    /// The members, ascending.
    pub nodes: Nodes,
    /// The cluster's devices.
    pub attached: AttachedDevices,
    /// The number of the cluster, which is in its nodes' keys.
    pub cluster: u32,
}

impl Plan {
    /// Whether a member has a path to the device.
    pub fn reaches(&self, device: &AttachedDevice) -> bool
        ensures value { result ≡ is_reachable self.now device.now }
    {
        self.nodes.items().iter().any(|n| device.nodes.has(*n))
    }

    /// The members but for the coordinator, ascending.
    pub fn others(&self, alloc: Global) -> Result<Vec<NodeId>, AllocError>
        ensures value { IfOk result (λ nodes. nodes.items ≡ others_of self.now) }
    {
        let nodes = self.nodes.items().iter().copied();
        nodes.filter(|n| *n != self.coordinator).collect(alloc)
    }
}
