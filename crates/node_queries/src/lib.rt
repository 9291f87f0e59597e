//! What the president of a membership makes of commands over the configuration in force, and what it
//! answers a query at once.
#![tactic(auto)]

mod checks;
mod lines;
mod queries;
mod telling;

pub use checks::checked;
pub use queries::answer_query;
pub use telling::reply;
