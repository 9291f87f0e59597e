//! Reads a schedule piece by piece, and does line by line what it says: a device answers to a reservation
//! schedule, and a world moves with a cluster schedule; or the lines are read alone. What the lines write
//! is appended to a text that is kept.
#![tactic(auto)]

mod reader;
mod session;
mod stop;
mod task;

pub use reader::{LONGEST_PIECE, Reader};
pub use session::{Body, State};
pub use stop::Stop;
pub use task::{Task, read_task};
