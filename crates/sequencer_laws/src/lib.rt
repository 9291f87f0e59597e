//! The laws of the calls that a president may order: each is safe over every map of flags that its
//! view may stand for, and stays so while other nodes carry out theirs.
#![tactic(auto)]

mod laws;

pub use laws::{allowed_calls_are_safe, orders_stay_safe};
