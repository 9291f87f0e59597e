//! Traces of resource groups: whole ones that meet the definitions, and small ones that these refuse.
#![tactic(auto)]

pub mod refusals;
pub mod samples;
