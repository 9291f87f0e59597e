use cl_base::{Epoch, Method, Name, NodeId, Outcome};

/// What a node makes of a monitor's report.
#[derive(Clone, Copy)]
pub enum ProbeResult {
    /// The resource is well.
    Ok,
    /// It is to be restarted.
    Restart,
    /// Its group is to be moved.
    Move,
    /// The report is logged alone.
    Logged,
}

/// A call of a resource's method, or a monitor's report.
#[derive(Clone, Copy)]
pub enum CallEntry {
    /// The method is called.
    Called {
        /// The epoch of the membership.
        epoch: Epoch,
        /// The node.
        node: NodeId,
        /// The method.
        method: Method,
        /// The resource.
        resource: Name,
    },
    /// The call ended.
    Done {
        /// The epoch of the membership.
        epoch: Epoch,
        /// The node.
        node: NodeId,
        /// The method.
        method: Method,
        /// The resource.
        resource: Name,
        /// How it ended.
        outcome: Outcome,
    },
    /// A monitor reported.
    Probed {
        /// The node.
        node: NodeId,
        /// The resource.
        resource: Name,
        /// What the node makes of it.
        result: ProbeResult,
    },
}
