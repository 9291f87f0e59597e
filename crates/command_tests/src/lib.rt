//! Tests of what commands are answered: each refusal, and what is accepted beside it.
#![tactic(auto)]

#[cfg(test)]
mod cases;
#[cfg(test)]
mod cycles;
#[cfg(test)]
mod fixture;
#[cfg(test)]
mod groups;
#[cfg(test)]
mod lengths;
#[cfg(test)]
mod numbers;
#[cfg(test)]
mod properties;
#[cfg(test)]
mod queries;
#[cfg(test)]
mod requests;
#[cfg(test)]
mod states;
#[cfg(test)]
mod tasks;
#[cfg(test)]
mod things;
#[cfg(test)]
mod votes;
