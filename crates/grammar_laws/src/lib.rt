//! What one layer prints another reads: laws over the grammar of schedules and the words of the
//! trace.
#![tactic(auto)]

mod laws;

pub use laws::{
    printed_commands_are_read, read_commands_fit_their_lines, read_headers_are_allowed,
    read_lines_are_allowed,
};
