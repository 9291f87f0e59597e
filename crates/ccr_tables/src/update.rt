ghost use Rattle.std.specs.Prelude.{◌≡◌};
ghost use Rattle.ccr_tables.specs.Updates.{table_of};

use crate::address::Weights;
use cl_base::{Bytes, DevId, MethodSet, Name, NodeId, Policy, Table};
use rg_props::Nodes;

/// A change of the configuration, as a command asks for it.
#[derive(Drop)]
pub enum Update {
    /// `clrt register`.
    RegisterType {
        /// The type.
        name: Name,
        /// The agent that carries out its methods.
        agent: Name,
        /// Its methods.
        methods: MethodSet,
        /// Whether the cluster allows one resource of it alone.
        single: bool,
        /// Whether a group with one may be online on one node at most.
        failover: bool,
    },
    /// `clrt unregister`.
    UnregisterType(Name),
    /// `clrg create`.
    CreateGroup {
        /// The group.
        group: Name,
        /// Its Nodelist.
        nodes: Nodes,
    },
    /// `clrg delete`.
    DeleteGroup(Name),
    /// `clrg set`.
    SetGroup {
        /// The group.
        group: Name,
        /// The property's word.
        property: Bytes,
        /// The value's word.
        value: Bytes,
    },
    /// A command that sets or clears a flag of a group.
    ChangeGroup {
        /// The group.
        group: Name,
        /// The command.
        change: GroupChange,
    },
    /// `clrg switch`.
    SwitchGroup {
        /// The group.
        group: Name,
        /// Where it is to be.
        nodes: Nodes,
    },
    /// `clrs create`.
    CreateResource {
        /// The resource.
        resource: Name,
        /// Its group.
        group: Name,
        /// Its type.
        resource_type: Name,
    },
    /// `clrs delete`.
    DeleteResource(Name),
    /// `clrs set`.
    SetResource {
        /// The resource.
        resource: Name,
        /// The property's word.
        property: Bytes,
        /// The value's word.
        value: Bytes,
    },
    /// A command that sets or clears a flag of a resource.
    ChangeResource {
        /// The resource.
        resource: Name,
        /// The command.
        change: ResourceChange,
    },
    /// A `clq` command that speaks of a device.
    Device {
        /// The device.
        device: DevId,
        /// The command.
        change: DeviceChange,
    },
    /// `clq enable node` and `clq disable node`.
    NodeVote {
        /// The node.
        node: NodeId,
        /// Whether it is to have a vote.
        vote: bool,
    },
    /// `clnode add`.
    AddNode(NodeId),
    /// `clnode remove`.
    RemoveNode(NodeId),
    /// `clnode create-loadlimit`.
    CreateLimit {
        /// The node.
        node: NodeId,
        /// What the load is called.
        limit: Name,
        /// The load above which the node is taken only where no other is better.
        soft: u64,
        /// The load that is never passed.
        hard: u64,
    },
    /// `clnode delete-loadlimit`.
    DeleteLimit {
        /// The node.
        node: NodeId,
        /// What the load is called.
        limit: Name,
    },
    /// `clsa create`.
    CreateAddress {
        /// The address.
        address: Name,
        /// The group that serves it.
        group: Name,
        /// How a node is chosen.
        policy: Policy,
    },
    /// `clsa delete`.
    DeleteAddress(Name),
    /// `clsa weights`.
    SetWeights {
        /// The address.
        address: Name,
        /// Its weights.
        weights: Weights,
    },
}

/// A command that sets or clears a flag of a group.
#[derive(Clone, Copy, Debug, PartialEq, Eq)]
pub enum GroupChange {
    Manage,
    Unmanage,
    Online,
    Offline,
    Suspend,
    Resume,
}

/// A command that sets or clears a flag of a resource.
#[derive(Clone, Copy, Debug, PartialEq, Eq)]
pub enum ResourceChange {
    Enable,
    Disable,
    Monitor,
    Unmonitor,
}

/// A command that speaks of a quorum device.
#[derive(Clone, Copy, Debug, PartialEq, Eq)]
pub enum DeviceChange {
    Add,
    Remove,
    Enable,
    Disable,
}

impl Update {
    /// The one table that it changes.
    pub fn table(&self) -> Table
        ensures value { result ≡ table_of self.now }
    {
        match self {
            Update::RegisterType { .. } | Update::UnregisterType(_) => Table::Types,
            Update::CreateGroup { .. }
            | Update::DeleteGroup(_)
            | Update::SetGroup { .. }
            | Update::ChangeGroup { .. }
            | Update::SwitchGroup { .. } => Table::Groups,
            Update::CreateResource { .. }
            | Update::DeleteResource(_)
            | Update::SetResource { .. }
            | Update::ChangeResource { .. } => Table::Resources,
            Update::Device { .. }
            | Update::NodeVote { .. }
            | Update::AddNode(_)
            | Update::RemoveNode(_)
            | Update::CreateLimit { .. }
            | Update::DeleteLimit { .. } => Table::Infrastructure,
            Update::CreateAddress { .. } | Update::DeleteAddress(_) | Update::SetWeights { .. } => {
                Table::Addresses
            }
        }
    }
}
