//! Tests of the words of commands.
#![tactic(auto)]

#[cfg(test)]
mod words;
