//! Resource types: the agent that carries out the methods of a type's resources, the methods that
//! it has, and the types of a cluster in order of creation.
#![tactic(auto)]

mod resource_type;
mod types;

pub use resource_type::{ResourceType, TypeError};
pub use types::{NoMemory, Types};
