//! What the trace of a cluster must be: definitions over what happened, and what follows of them.
#![tactic(auto)]

pub mod laws;
