//! Schedules made from a number, the seed: the same seed gives the same lines.
#![tactic(auto)]

mod draw;
mod event;
mod generator;
pub mod law;
mod opening;

pub use generator::Gen;
