//! What the abstract machines of this repository share: a state that is a function of a number,
//! changed at one number by each step, and which node coordinates an epoch. Definitions and lemmas alone.
#![tactic(auto)]
