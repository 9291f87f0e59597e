//! The president of a membership: it keeps what is known of groups, decides on which nodes they
//! shall run, and gives the members the orders that bring them there.
#![tactic(auto)]

mod deciding;
mod goals;
mod ordering;
mod president;
mod status;
mod statuses;
mod steady;
mod unchanged;

pub use president::President;
pub use rgm_state::NoMemory;
