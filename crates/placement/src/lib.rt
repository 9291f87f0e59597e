//! Which nodes a resource group may run on, and which are its goal: for a node the first reason
//! against it or its score there, and for the group the nodes that it shall run on. Nothing here
//! allocates.
#![tactic(auto)]

mod affinities;
mod dependencies;
mod eligibility;
mod goals;
mod histories;
pub mod laws;
mod loads;
mod placing;
mod resources;
mod score;

pub use eligibility::eligible;
pub use goals::goal;
pub use loads::is_fixed;
pub use resources::{has_enabled, is_online, is_stop_failed};
pub use score::Score;
