//! Load limits: the named limits of nodes, and whether a group with its load factors would pass one.
#![tactic(auto)]

mod limits;

pub use limits::{Factor, Limit, Limits, load_of};
