//! The record of a node on its local disk, through stops and crashes.
#![tactic(auto)]

mod calls;
mod disk;
mod error;
mod simulated;
mod texts;

pub use disk::RecordDisk;
pub use error::{DiskError, Loss};
pub use simulated::SimulatedDisk;
