//! Votes of nodes and quorum devices: who counts how much, how much a membership holds, and how
//! one vote changes at a time. Nothing here allocates.
#![tactic(auto)]

mod change;
mod quorum;
mod state;
mod votes;

pub use change::{VoteChange, VoteError};
pub use quorum::majorities_meet;
pub use state::{DevState, NodeState, VoteDevice};
pub use votes::Votes;
