//! The law of the rows of tables: what commands make of a configuration always has rows that a
//! table's text can hold.
#![tactic(auto)]

mod laws;

pub use laws::tables_have_their_form;
