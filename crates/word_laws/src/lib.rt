//! What is printed as words is read back: laws over the words of updates and the commands that they
//! spell.
#![tactic(auto)]

mod laws;

pub use laws::{same_words_same_update, updates_are_spelled, words_are_read};
