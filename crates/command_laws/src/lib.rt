//! What is true of commands that are accepted.
#![tactic(auto)]

mod laws;

pub use laws::{accepted_updates_hold, updates_are_counted};
