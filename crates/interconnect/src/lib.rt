//! The links between the nodes: packets in flight, numbered in the order of their sending.
//!
//! Packets stand in a slab, and their bytes in the cells of a pool. All memory is taken when the links
//! are made, and no slot or cell is written before a packet needs it.

#![tactic(auto)]

mod by_link;
mod by_number;
mod flight;
mod net;
mod packet;

pub use net::Net;
pub use packet::{Delivery, NoSuchPacket, Sent};
