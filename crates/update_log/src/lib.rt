//! The configuration that a list of updates makes of the header's, and the votes under it.
#![tactic(auto)]

mod configuration;
mod error;
mod laws;
mod text;
mod votes;

pub use configuration::{add, config_after};
pub use error::NoMemory;
pub use laws::logs_go_on;
pub use text::is_update;
pub use votes::{LogVotes, votes_after};
