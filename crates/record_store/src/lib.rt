//! The record of a node on its local disk: two slots and a selector, so that a stop at any moment of a save leaves
//! the old text or the new one.
#![tactic(auto)]

mod calls;
mod laws;
mod slot;
mod store;

pub use laws::empty_disk_mounts;
pub use slot::Slot;
pub use store::{MOST_BYTES, Store, StoreError};
