//! Laws of the orders of groups and resources: what comes before something is there, and a cycle that
//! is told has names.
#![tactic(auto)]

mod laws;

pub use laws::{told_cycles_have_names, what_is_needed_is_there};
