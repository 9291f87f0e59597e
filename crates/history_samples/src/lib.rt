//! Traces of clusters: whole ones that meet the definitions of a history, and small ones that these refuse.
#![tactic(auto)]

pub mod refusals;
pub mod samples;
