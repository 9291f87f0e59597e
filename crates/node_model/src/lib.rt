//! A node of the cluster: what it keeps in memory, what it gives, and why it stops. The rules of its
//! steps stand in `specs/`; the crates above carry them out.
#![tactic(auto)]

mod cluster;
mod first_header;
mod handing;
mod input;
mod node;
mod output;
mod presidency;
mod seat;
mod slot;
mod stop;

pub use cluster::Cluster;
pub use first_header::FirstHeader;
pub use handing::hand_over;
pub use input::Input;
pub use node::{Node, UpNode};
pub use output::{Output, cause_of, give, keep, send, tell, tell_of};
pub use presidency::Presidency;
pub use seat::Seat;
pub use slot::Slot;
pub use stop::Stop;
