//! What a node does at devices: the commands of its tasks, and its writes. The devices' answers come
//! from outside.
#![tactic(auto)]

mod answers;
mod before;
mod told;
mod writes;

pub use answers::take_device_answer;
pub use before::before_command;
pub use writes::{may_write, take_write_answer};
