//! What a node knows of the others by their heartbeats: how long each has been silent, the view that
//! follows, for how long it has stood, and whether an attempt on a membership is to begin.
//! Only a boot takes memory.
#![tactic(auto)]

mod due;
mod heartbeats;
mod peer;

pub use due::Membership;
pub use heartbeats::Heartbeats;
pub use peer::{Beat, Peer};
