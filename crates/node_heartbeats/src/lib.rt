//! The Heartbeats of a node, that it sends in its ticks.
#![tactic(auto)]

mod sending;

pub use sending::send_heartbeats;
