//! What queries about votes and about tables of the configuration are answered.
#![tactic(auto)]

mod error;
mod quorum;
mod tables;

pub use error::NoMemory;
pub use quorum::quorum_lines;
pub use tables::table_lines;
