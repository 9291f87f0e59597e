//! Tests of the configuration that is kept from one call to the next.
#![tactic(auto)]

#[cfg(test)]
mod cases;
#[cfg(test)]
mod fixture;
