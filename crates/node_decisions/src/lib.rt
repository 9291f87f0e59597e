//! The configurations that a node's record makes, and what a president decides under them: the goals
//! of groups, and the orders that it gives.
#![tactic(auto)]

mod configurations;
mod deciding;
mod orders;

pub use configurations::{in_force, own_config, tidy};
pub use deciding::{decide, may_order};
pub use orders::send_orders;
