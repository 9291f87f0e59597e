use crate::agent_list::Agents;
use interconnect::Net;
use node_model::{Cluster, Node, Output};
use pgr_device::Pgr;
use record_disk::SimulatedDisk;
use std::marker::Model;
use world_model::Scripted;

/// A simulated cluster. Contracts see a `WorldState`.
pub struct World {
    /// What its nodes know of it.
    pub(crate) cluster: Cluster,
    /// The nodes; node n is at place n - 1, and so in the other lists.
    pub(crate) nodes: Vec<Node>,
    /// Their local disks.
    pub(crate) disks: Vec<SimulatedDisk>,
    /// The shared devices; device d is at place d - 1.
    pub(crate) devices: Vec<Pgr>,
    /// For each node and device, node by node: whether its next command fails, and is done all the same.
    pub(crate) faults: Vec<Option<bool>>,
    /// The links between the nodes.
    pub(crate) links: Net,
    /// The second at which the clock stands.
    pub(crate) clock: u64,
    /// The outcomes that are queued, oldest first.
    pub(crate) script: Vec<Scripted>,
    /// Who carries out the methods of resource types.
    pub(crate) agents: Agents,
    /// Room for the bytes of a packet.
    pub(crate) bytes: Vec<u8>,
    /// Room for what a node gives in a step; between steps there is nothing in it.
    pub(crate) outputs: Vec<Output>,
}

impl Drop for World {
    fn drop(self) {
        let World {
            cluster: _,
            nodes: _,
            disks: _,
            devices: _,
            faults: _,
            links: _,
            clock: _,
            script: _,
            agents: _,
            bytes: _,
            outputs: _,
        } = self;
    }
}

impl Model for World {
    ghost use Rattle.std.specs.Prelude.{◌≡◌, [], length};
    ghost use Rattle.world_model.specs.Worlds.{WorldState};

    ghost Value = { WorldState };

    ghost view = { λ w. record { cluster = w.cluster; nodes = w.nodes.items; disks = w.disks.items; devices = w.devices.items; faults = w.faults.items; links = w.links; clock = w.clock; script = w.script.items; agents = w.agents } };

    ghost invariant = { λ w. (length w.bytes.items ≡ 131072) × (w.outputs.items ≡ []) };
}
