//! A client's request of a shared address, at the president.
#![tactic(auto)]

mod refusal;
mod serving;

pub use refusal::client_refusal;
pub use serving::on_client;
