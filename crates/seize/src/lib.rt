//! Seizing a shared device for a membership, and joining it, one command at a time.
#![tactic(auto)]

mod answer;
mod joining;
mod key;
mod kind;
mod laws;
mod seizing;
mod step;
mod told;

pub use joining::Join;
pub use kind::{JoinResult, SeizeKind, SeizeResult};
pub use laws::{
    a_device_gives_no_fault, contended_at_the_64th, due_until_the_result, each_answer_tells,
    expelled_without_own_key, fault_only_after_a_failure, greater_is_not_the_epoch,
    held_after_members_alone, joined_after_own_key, keys_of_members,
    not_registered_before_any_change, writes_the_own_key_alone,
};
pub use seizing::Seize;
pub use step::{JoinStep, SeizeStep};
pub use told::{ToldResult, read_result, told_result};
