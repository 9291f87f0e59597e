//! The simulated cluster as a definition: nodes with their local disks, shared devices, links, what each
//! line of a schedule makes of them, and the text that it writes. Definitions alone, so that what is
//! proved of every run does not wait for the code.
#![tactic(auto)]

mod scripted;

pub use scripted::Scripted;
