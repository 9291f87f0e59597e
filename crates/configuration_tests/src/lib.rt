//! Tests of the configuration.
#![tactic(auto)]

#[cfg(test)]
mod cases;
#[cfg(test)]
mod tables;
