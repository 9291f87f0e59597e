//! A local disk as its user sees it: what a read gives, what a crash may leave, and a stop that may be armed;
//! and a disk in memory that realises the crash model.
#![tactic(auto)]

mod disk;
mod memory;
mod parts;

pub use disk::{DISK_BYTES, Failed, LocalDisk};
pub use memory::{Choice, MemDisk};
