//! Tests of the shared devices: the reservation device, seizing and joining, a node's tasks.
#![tactic(auto)]

#[cfg(test)]
mod devices;
#[cfg(test)]
mod queue;
#[cfg(test)]
mod seizing;
