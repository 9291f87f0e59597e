//! The rows of the tables of the configuration repository.
#![tactic(auto)]

mod addresses;
mod error;
mod groups;
mod infrastructure;
mod items;
mod resource_types;
mod resources;
mod row;
mod rows;
mod words;

pub use error::NoMemory;
pub use rows::table;
