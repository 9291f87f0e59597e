use crate::name::Name;
use crate::node::NodeId;

/// A table of the configuration repository.
#[derive(Clone, Copy, Debug, PartialEq, Eq)]
pub enum Table {
    /// Votes of nodes and states of quorum devices.
    Infrastructure,
    /// Resource types.
    Types,
    /// Resource groups.
    Groups,
    /// Resources.
    Resources,
    /// Shared addresses.
    Addresses,
}

/// How the node is chosen that serves a client of a shared address.
#[derive(Clone, Copy, Debug, PartialEq, Eq)]
pub enum Policy {
    /// In turn, each as often as its weight.
    Weighted,
    /// A client goes to the node that served it before.
    Sticky,
    /// A client and port go to the node that served them before.
    StickyPort,
}

/// What the president is asked to do without an update of the configuration.
#[derive(Clone, Copy, Debug, PartialEq, Eq)]
pub enum Ask {
    /// To restart a resource where its monitor failed.
    Restart(Name),
    /// To move the group of a resource away from where its monitor failed.
    Move(Name),
    /// To choose a group's nodes anew.
    Remaster(Name),
    /// To move all groups away from a node.
    Evacuate(NodeId),
    /// To clear a resource's stop-failed mark on a node.
    Clear {
        /// The resource.
        resource: Name,
        /// The node.
        node: NodeId,
    },
}

/// A question that the president answers at once.
#[derive(Clone, Copy, Debug, PartialEq, Eq)]
pub enum Query {
    /// How the resource groups stand.
    GroupStatus,
    /// How the resources stand.
    ResourceStatus,
    /// How the votes stand.
    QuorumStatus,
    /// The text of a table.
    Rows(Table),
}
