//! Tests of the layers that everything stands on: resource types, restarts, load limits and votes.
#![tactic(auto)]

#[cfg(test)]
mod handling;
#[cfg(test)]
mod limits;
#[cfg(test)]
mod requests;
#[cfg(test)]
mod restarts;
#[cfg(test)]
mod types;
#[cfg(test)]
mod votes;
