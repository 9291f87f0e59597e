//! Tests of attempts on a membership.
#![tactic(auto)]

#[cfg(test)]
mod attempts;
