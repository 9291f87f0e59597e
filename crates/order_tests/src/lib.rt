//! Tests of orders, of places and of calls.
#![tactic(auto)]

#[cfg(test)]
mod answers;
#[cfg(test)]
mod calls;
#[cfg(test)]
mod following;
#[cfg(test)]
mod given;
#[cfg(test)]
mod orders;
#[cfg(test)]
mod places;
#[cfg(test)]
mod scene;
#[cfg(test)]
mod view;
#[cfg(test)]
mod words;
