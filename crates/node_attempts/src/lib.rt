//! What a coordinator does: it begins an attempt to form a membership, and carries out the steps that
//! the attempt gives.
#![tactic(auto)]

mod ending;
mod installing;
mod leading;
mod performing;
mod starting;
mod voting;

pub use leading::lead;
pub use performing::{go_on, own_ready};
