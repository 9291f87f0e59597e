//! When the orders that the president of a membership has sent go again.
#![tactic(auto)]

mod laws;
mod orders;

pub use laws::an_order_goes_again_at_each_fourth_tick;
pub use orders::SentOrders;
