use cl_base::NodeSet;
use node_updates::Again;

/// What is due of attempts at a tick.
#[derive(Clone, Copy)]
pub enum AttemptDue {
    /// Nothing.
    Nothing,
    /// The attempt that is under way goes on.
    GoesOn,
    /// An attempt to form a membership of these nodes begins.
    Begins(NodeSet),
}

/// What is left to do of a step, once that is done which needs only a look at the node.
#[derive(Drop)]
pub enum Due {
    /// What is due of attempts at a tick.
    Attempt(AttemptDue),
    /// What a president does at a tick, with what it sends again; and then what is due of attempts.
    Govern(Again),
    /// All of it, where it is no tick.
    All,
}
