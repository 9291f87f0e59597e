ghost use Rattle.std.specs.Prelude.{⊤};

use cl_base::NodeId;
use std::alloc::{AllocError, AllocFailed};
use thiserror::Error;

/// A node that requests may be served by.
#[derive(Clone, Copy, Debug, PartialEq, Eq)]
pub struct Target {
    /// The node.
    pub node: NodeId,
    /// How many turns it has in a round, 1 to 1000.
    pub weight: u64,
}

/// A client with which a node is kept.
#[derive(Clone, Copy, Debug, PartialEq, Eq, Hash)]
pub struct Client {
    /// The client's own address.
    pub address: u32,
    /// The client's port, 0 where the node is kept for all of them.
    pub port: u16,
}

/// What a request is answered.
#[derive(Clone, Copy, Debug, PartialEq, Eq)]
pub struct Choice {
    /// The node that serves it, none where there is no target.
    pub node: Option<NodeId>,
    /// The client whose entry had to go for it.
    pub forgot: Option<Client>,
}

/// There was no memory for what a request leaves.
#[derive(Clone, Copy, Debug, PartialEq, Eq, Error)]
#[error("no memory")]
pub struct NoMemory;

impl From<AllocError> for NoMemory {
    ghost from_gives = { λ _ _. ⊤ };

    fn from(_: AllocError) -> NoMemory {
        NoMemory
    }
}

impl<T: Drop> From<AllocFailed<T>> for NoMemory {
    ghost from_gives = { λ _ _. ⊤ };

    fn from(_: AllocFailed<T>) -> NoMemory {
        NoMemory
    }
}
