//! An attempt of a node to form a membership: what its coordinator does next, from the votes, the
//! answers of the members and the ticks of its clock alone.
#![tactic(auto)]

mod attached;
mod attempt;
mod counting;
mod phase;
mod plan;
mod promised;
mod seizing;
mod sending;
mod step;

pub use attached::{AttachedDevice, AttachedDevices};
pub use attempt::Attempt;
pub use counting::BothVotes;
pub use phase::{Phase, Readied};
pub use plan::{Nodes, Plan};
pub use promised::{Promised, Shown};
pub use seizing::Seizing;
pub use step::{AttemptEnd, Step, Steps};
