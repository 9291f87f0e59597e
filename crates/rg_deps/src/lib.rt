//! In which order groups, and the resources of a group, come after what they depend on, and the
//! cycle that is found where there is no such order.
#![tactic(auto)]

mod arrange;
mod choice;
mod edges;
mod error;
mod graph;
pub mod laws;
mod order;
mod places;
mod things;
mod walk;

pub use error::OrderError;
pub use graph::{Edge, Thing};
pub use order::{find_cycle, group_order, resource_order};
