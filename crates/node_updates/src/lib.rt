//! What a node does with an administrator's command, with its own requests, and what a member does for an
//! update of its president's: it prepares it, and commits it.
#![tactic(auto)]

mod again;
mod foreign;
mod members;
mod prepared;
mod queries;
mod requests;

pub use again::{Again, tick_requests};
pub use foreign::{is_bad_answer, is_bad_log, is_bad_request, is_bad_update};
pub use members::{commit, prepare};
pub use prepared::take_prepared;
pub use requests::{ask, ask_if, is_idle, take_command, take_reply};
