ghost use Rattle.std.specs.Prelude.{◌≡◌};
ghost use Rattle.agents.specs.Calls.{called, states_of};
ghost use Rattle.agents.specs.Stock.{kept_of, name_of};
ghost use Rattle.world_model.specs.Calls.{stock_rules};

use agents::{StockAgent, call_named};
use cl_base::{Call, Name, Outcome};
use std::marker::Model;

/// The agents that carry out the methods of resource types, in order. Contracts see each one's name and
/// what it has kept.
#[derive(Drop)]
pub struct Agents {
    list: Vec<StockAgent>,
}

impl Model for Agents {
    ghost use Rattle.std.specs.Prelude.{List};
    ghost use Rattle.agents.specs.Calls.{AgentState, states_of};
    ghost use Rattle.agents.specs.Stock.{kept_of, name_of};

    ghost Value = { List AgentState };

    ghost view = { λ a. states_of name_of kept_of a.list.items };
}

impl Agents {
    /// These agents. Of those of one name the first is asked.
    pub fn new(list: Vec<StockAgent>) -> Agents
        ensures value { result ≡ states_of name_of kept_of list.items }
    {
        Agents { list }
    }

    /// Has the first agent of this name carry out the call. Without one it is a failure.
    pub fn call(&mut self, name: &Name, call: &Call) -> Outcome
        ensures outcome { result ≡ (called stock_rules self.old name.now call.now).outcome }
        ensures after { self.new ≡ (called stock_rules self.old name.now call.now).agents }
    {
        call_named(&mut self.list, name, call)
    }
}
