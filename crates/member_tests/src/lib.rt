//! Tests of a member's part in resource groups, and of the agents.
#![tactic(auto)]

#[cfg(test)]
mod callees;
#[cfg(test)]
mod cases;
#[cfg(test)]
mod fixture;
#[cfg(test)]
mod members;
