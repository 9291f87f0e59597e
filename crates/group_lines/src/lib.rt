//! What queries about groups and about resources are answered: how each stands on each node that may
//! run it.
#![tactic(auto)]

mod groups;
mod resources;

pub use groups::group_lines;
pub use resources::resource_lines;
pub use rgm_president::NoMemory;
