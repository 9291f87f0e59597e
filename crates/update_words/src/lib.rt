//! The canonical words of updates and of what else a request asks for: those of the command, with one
//! space between.
#![tactic(auto)]

mod ask;
mod lists;
mod method;
mod spaced;
mod update;

pub use ask::ask_words;
pub use method::{METHODS, method_word};
pub use update::{policy_word, words};
