//! The configuration that a node's updates make, kept from one call to the next.
#![tactic(auto)]

mod basis;
mod cache;
mod coming;
mod made;
mod making;
mod same_header;
mod wanted;

pub use basis::Basis;
pub use cache::ConfigCache;
pub use update_log::NoMemory;
