//! Tests of the configuration and of resource groups.
#![tactic(auto)]

#[cfg(test)]
mod balancer;
#[cfg(test)]
mod properties;
#[cfg(test)]
mod views;
