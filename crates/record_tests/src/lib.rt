//! Tests of what a node keeps: its local disk, its record, its updates, and the text of tables.
#![tactic(auto)]

#[cfg(test)]
mod check;
#[cfg(test)]
mod disk;
#[cfg(test)]
mod entries;
#[cfg(test)]
mod members;
#[cfg(test)]
mod records;
#[cfg(test)]
mod store;
#[cfg(test)]
mod tables;
