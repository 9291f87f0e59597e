//! The top call: it reads a schedule from a source line by line, replays it, and writes the trace
//! to a sink.
#![tactic(auto)]

mod closing;
mod counts;
mod driver;
mod generating;
mod law;
mod making;
mod status;

pub use driver::run_words;
pub use law::{
    completed_run_tells_its_schedule, completeness, entries_have_the_answers,
    made_schedule_is_read_to_its_end,
};
pub use making::{Making, read_making};
pub use status::Status;
