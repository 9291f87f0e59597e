//! What the trace of a cluster must be, of resource groups: definitions over what happened, and what follows of them.
#![tactic(auto)]

pub mod laws;
