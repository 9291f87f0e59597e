use cl_base::{Items, Name, NodeId, Policy};

/// How often a node is chosen, compared with others.
#[derive(Clone, Copy, Debug, PartialEq, Eq)]
pub struct Weight {
    /// The node.
    pub node: NodeId,
    /// Its weight, at most 1000.
    pub weight: u64,
}

/// Weights of nodes in the order in which they were given.
pub type Weights = Items<Weight>;

/// A shared address.
#[derive(Drop)]
pub struct Address {
    /// The group that serves it.
    pub group: Name,
    /// How the node is chosen that serves a client.
    pub policy: Policy,
    /// The weights of the nodes that are named: the others have weight 1.
    pub weights: Weights,
}
