//! A member's side of the resource groups: it carries out the president's orders, keeps the flags,
//! marks and histories of its node, and reports them. All of it is lost with the node.
#![tactic(auto)]

mod carried;
mod due;
mod flags;
mod keeping;
mod laws;
mod memory;
mod names;
mod outcomes;
mod past;
mod probed;
mod probing;
mod reporting;
mod settings;
mod tables;
mod worker;

pub use carried::Carried;
pub use due::Due;
pub use laws::{due_calls_are_made, flags_change_by_success, orders_call_once, restarts_are_few};
pub use memory::NoMemory;
pub use names::name_of;
pub use outcomes::{is_fatal, is_start_failure, marks_after};
pub use past::Past;
pub use probed::Probed;
pub use settings::charged;
pub use worker::Worker;
