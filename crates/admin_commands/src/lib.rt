//! Commands of administrators over the configuration in force: what a president accepts, and why it
//! refuses.
#![tactic(auto)]

mod accepted;
mod asks;
mod checking;
mod cycles;
mod error;
mod managing;
mod numbers;
mod records;
mod settings;
mod standing;
mod updates;
mod voting;

pub use accepted::Accepted;
pub use checking::check;
pub use cycles::cycle;
pub use error::{CheckError, NoMemory};
