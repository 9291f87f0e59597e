//! The device tasks of one node: seizings and joinings in order, each of which does one command at a
//! time, and how those ended that are over.
#![tactic(auto)]

mod laws;
mod progress;
mod queue;
mod task;

pub use laws::{
    each_task_has_a_command, joined_has_no_task, kept_results_stay, one_seizing_and_one_joining,
    plain_seizings_register_first,
};
pub use progress::{Asked, Progress};
pub use queue::DeviceQueue;
pub use task::{Task, Work};
