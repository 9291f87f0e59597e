//! A pool of cells of 256 bytes, in which texts of bytes stand as chains of cells.
//!
//! All memory is taken when the pool is made, and a cell is first written when a chain needs it.
//! Each cell is free or belongs to one chain.

#![tactic(auto)]

mod made;
mod pool;
mod region;

pub use made::Chain;
pub use pool::Pool;
