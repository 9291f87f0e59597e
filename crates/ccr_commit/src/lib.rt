//! The entries of the configuration repository: one list of texts, of which the last may still be
//! pending, and which of several nodes' entries are the newest.
#![tactic(auto)]

mod entries;
mod summary;

pub use entries::{Entries, Prepared};
pub use summary::{Summary, newest};
