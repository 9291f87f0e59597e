//! Tests of lists of updates, the answers to commands and queries, and the length of a record.
#![tactic(auto)]

#[cfg(test)]
mod answers;
#[cfg(test)]
mod cases;
#[cfg(test)]
mod fixture;
#[cfg(test)]
mod lengths;
#[cfg(test)]
mod logs;
#[cfg(test)]
mod queries;
#[cfg(test)]
mod waiting;
