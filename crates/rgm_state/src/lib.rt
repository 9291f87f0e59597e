//! What the president of a membership knows of groups, and what changes it: the reports of the
//! members, the outcomes of orders, what is asked for, and updates of the configuration.
#![tactic(auto)]

mod adopting;
mod asks;
mod changes;
mod charges;
mod memory;
mod nodes;
mod outcomes;
mod reports;
mod standing;

pub use adopting::adopt;
pub use asks::take_up;
pub use changes::{clear_fault, update};
pub use memory::NoMemory;
pub use outcomes::end_order;
pub use standing::{has_flag, have_flag, is_up, resources_of};
