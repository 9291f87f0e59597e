//! The text of a table of the configuration repository, printed and read.
#![tactic(auto)]

mod error;
mod laws;
mod lines;
mod print;
mod read;
mod rows;

pub use error::{Digest, TextError};
pub use laws::texts_have_their_length;
pub use print::{checksum, print_table};
pub use read::read_table;
pub use rows::{Row, TableRows};
