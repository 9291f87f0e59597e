//! Tests of messages, of links and of the cells that packets stand in.
#![tactic(auto)]

#[cfg(test)]
mod links;
#[cfg(test)]
mod pool;
#[cfg(test)]
mod spelling;
