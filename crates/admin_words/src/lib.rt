//! The words of an administrator's command, and those of a request from one node to another, read as
//! what they ask for.
#![tactic(auto)]

mod addresses;
mod command;
mod error;
mod groups;
mod methods;
mod nodes;
mod number;
mod operand;
mod quorum;
mod read;
mod request;
mod resources;
mod types;
mod weights;

pub use error::WordError;
pub use read::parse;
pub use request::{Request, parse_request};
