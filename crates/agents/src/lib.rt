//! Agents that carry out the methods of resource types: one that always succeeds, one of which each
//! third START fails, and one that gives the outcomes of a list. `call_named` finds who carries out a call.
#![tactic(auto)]

mod calls;
mod every_third;
mod obedient;
mod script;
mod stock;

pub use calls::call_named;
pub use every_third::EveryThird;
pub use obedient::Obedient;
pub use script::Script;
pub use stock::StockAgent;
