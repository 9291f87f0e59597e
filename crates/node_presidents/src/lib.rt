//! What the president of a membership does: requests come to it, are taken up one after another, and
//! answered; an update is proposed, and acknowledged once every member has prepared it.
#![tactic(auto)]

mod acting;
mod answers;
mod arriving;
mod members;
mod proposing;
mod sending;
mod taking;
mod telling;
mod turns;
mod verdict;
mod words;

pub use arriving::{arrive, take_request};
pub use members::{is_in, is_member_in, is_of_member};
pub use proposing::{acknowledge, last_place};
pub use sending::send_prepares;
pub use telling::{copied, tell_own};
pub use turns::handle;
pub use words::word_answer;
