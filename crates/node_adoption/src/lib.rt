//! What the coordinator of an attempt takes over as its membership starts: the members' reports of
//! groups and resources, and what it tells of them.
#![tactic(auto)]

mod adopted;
mod copies;
mod presiding;
mod reported;

pub use adopted::tell_adopted;
pub use presiding::preside;
pub use reported::reports;
