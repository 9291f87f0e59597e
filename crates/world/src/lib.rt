//! The simulated cluster: nodes, their disks, the shared devices and the links, moved by the lines of a
//! schedule.
#![tactic(auto)]

mod agent_list;
mod calls;
mod clients;
mod devices;
mod line;
mod making;
mod naming;
mod nodes;
mod packets;
mod rounds;
mod telling;
mod world;

pub use agent_list::Agents;
pub use world::World;
