//! Which nodes may serve the clients of a shared address.
#![tactic(auto)]

mod targets;

pub use targets::targets_of;
