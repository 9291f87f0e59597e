//! What is true of the configurations that lists of updates make: the types, groups and resources that
//! something names are there, and no group or resource comes after itself.
#![tactic(auto)]

mod laws;

pub use laws::{accepted_updates_leave_no_cycle, logs_have_no_cycle, logs_name_what_is_there};
