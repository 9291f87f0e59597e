//! The text of an answer to a command, read as the answer.
#![tactic(auto)]

mod laws;
mod number;
mod operand;
mod read;
mod refused;
mod spelling;

pub use laws::answers_are_read;
pub use read::parse_answer;
