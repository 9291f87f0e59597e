//! A step of a node: it boots, crashes, ticks, is delivered a packet, or is answered by a device.
#![tactic(auto)]

mod boot;
mod configured;
mod due;
mod finish;
mod govern;
mod handing;
mod packet;
mod stepping;
mod tick;

pub use node_addresses::client_refusal;
pub use node_devices::may_write;
pub use node_groups::call_due;
pub use node_model::Input;
pub use stepping::step;
