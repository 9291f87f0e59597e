//! What nodes do for resource groups: members carry out the orders of their president and report of
//! their monitors, and the president learns how its orders ended and sends them again.
#![tactic(auto)]

mod again;
mod calls;
mod carrying;
mod done;
mod due;
mod monitors;
mod orders;

pub use again::send_orders_again;
pub use done::take_done;
pub use due::call_due;
pub use monitors::take_report;
pub use orders::{carry_own, take_order};
