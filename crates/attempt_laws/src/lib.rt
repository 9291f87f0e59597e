//! The laws of attempts on a membership, over the definitions that the calls of the crate `cmm_attempt` are proved to follow.
//!
//! Each function here is a law. It has no body, and its contract is proved of every attempt and every call.
#![tactic(auto)]

mod laws;

pub use laws::{
    attempts_ask, attempts_end, attempts_keep, attempts_repeat, attempts_send, attempts_show,
    attempts_stay,
};
