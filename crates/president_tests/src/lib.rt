//! Tests of the president of groups, and of what it knows of them.
#![tactic(auto)]

#[cfg(test)]
mod fixture;
#[cfg(test)]
mod knowing;
#[cfg(test)]
mod known;
#[cfg(test)]
mod scenes;
#[cfg(test)]
mod steps;
