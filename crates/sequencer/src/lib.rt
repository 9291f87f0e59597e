//! Which method of which resource may be called on a node, and which comes first. An `Outlook` is
//! found once for the calls of a decision; with it the calls take no memory.
#![tactic(auto)]

mod counted;
mod direction;
mod groups;
mod leaving;
mod loads;
mod methods;
mod next;
mod outlook;
mod renewing;
mod resting;
mod scopes;
mod standing;
mod starting;
mod stopping;

pub use methods::allowed;
pub use next::next_call;
pub use outlook::Outlook;
pub use resting::is_in_order;
