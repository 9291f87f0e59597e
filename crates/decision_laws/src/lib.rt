//! Laws of a president's decisions: the orders that it has outstanding stay safe whatever it does in
//! its membership, where it is quiet each group that is not online has a reason, and goals are within
//! limits.
#![tactic(auto)]

mod laws;

pub use laws::{
    decisions_stay_safe, gaps_have_reasons, goals_are_within_limits, orders_are_safe_throughout,
    quiet_is_settled,
};
