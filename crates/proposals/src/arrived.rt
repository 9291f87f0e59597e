use cl_base::{Bytes, NodeId, NodeSet};

/// A request that has come to the president.
#[derive(Debug, Drop)]
pub struct Arrived {
    /// The node that asks.
    pub from: NodeId,
    /// The request's number there.
    pub number: u64,
    /// What it asks for, in words.
    pub text: Bytes,
}

/// The last answer to a node.
#[derive(Debug, Drop)]
pub struct Kept {
    /// The number of the request.
    pub number: u64,
    /// What the answer says.
    pub text: Bytes,
}

/// The update that is proposed.
#[derive(Clone, Copy, Debug)]
pub struct Proposed {
    /// Its place among the updates.
    pub place: u64,
    /// The members that have not prepared it yet.
    pub missing: NodeSet,
}

/// What a request that comes is.
#[derive(Clone, Copy, Debug, PartialEq, Eq)]
pub enum Arrival {
    /// It is new, and waits for its turn.
    New,
    /// One of its node waits already, or is being handled.
    Waits,
    /// It is the node's last that was answered: it gets the same answer again.
    Answered,
    /// It was answered before that.
    Past,
}
