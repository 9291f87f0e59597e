//! What the president of a membership has in hand: the requests of its members in order of arrival, each
//! once; the update that is proposed, and who has not prepared it yet; and the last answer to each node.
#![tactic(auto)]

mod arrived;
mod proposals;

pub use arrived::{Arrival, Arrived, Kept, Proposed};
pub use proposals::Proposals;
