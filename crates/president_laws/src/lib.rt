//! Laws of the president of a membership: of each decision, whatever is known.
#![tactic(auto)]

mod laws;

pub use laws::{goals_stay, groups_begin, orders_are_allowed, quiet};
