//! The configuration of a cluster: what the header says, changed by each update in order, and why an
//! update is refused.
#![tactic(auto)]

mod address;
mod addresses;
mod apply;
mod change;
mod command;
mod config;
mod error;
mod generations;
mod refuse_groups;
mod refuse_nodes;
mod refuse_others;
mod refuse_resources;
mod search;
mod shorthand;
mod update;

pub use address::{Address, Weight, Weights};
pub use addresses::Addresses;
pub use command::{AdminCommand, table_named};
pub use config::Config;
pub use error::{ApplyError, NoMemory};
pub use generations::Generations;
pub use update::{DeviceChange, GroupChange, ResourceChange, Update};
