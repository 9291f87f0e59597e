//! The balancer of shared addresses: for each client's request of a shared address it chooses a
//! node among the targets, by weights, and by what it keeps of earlier requests.
#![tactic(auto)]

mod address;
mod balancer;
mod choice;
mod laws;
mod turns;

pub use balancer::Balancer;
pub use choice::{Choice, Client, NoMemory, Target};
pub use laws::{few_are_kept, requests_stick, weights_are_exact};
