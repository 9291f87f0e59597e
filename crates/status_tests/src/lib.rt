//! Tests of what queries about groups and resources are answered, and of when orders go again.
#![tactic(auto)]

#[cfg(test)]
mod again;
#[cfg(test)]
mod fixture;
#[cfg(test)]
mod lines;
