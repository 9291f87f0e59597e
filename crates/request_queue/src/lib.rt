//! The requests that a node has for the president of its membership: those that wait for their answers,
//! oldest first, and when the oldest goes again.
#![tactic(auto)]

mod queue;
mod request;

pub use queue::RequestQueue;
pub use request::Request;
