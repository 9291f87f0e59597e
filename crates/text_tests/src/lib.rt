//! Tests of the text that is read and written: lines of schedules, entries of the trace, generated schedules.
#![tactic(auto)]

#[cfg(test)]
mod generating;
#[cfg(test)]
mod printing;
#[cfg(test)]
mod reading;
