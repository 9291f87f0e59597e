ghost use Rattle.std.specs.Prelude.{◌≡◌};
ghost use Rattle.agents.specs.Stock.{kept_of, name_of, outcome_by, then_kept_by};

use crate::every_third::EveryThird;
use crate::obedient::Obedient;
use crate::script::Script;
use cl_base::{Agent, Call, Outcome};

/// An agent of any of the kinds of this crate.
#[derive(Drop)]
pub enum StockAgent {
    /// One that always succeeds.
    Obedient(Obedient),
    /// One of which each third START fails.
    EveryThird(EveryThird),
    /// One that gives the outcomes of a list.
    Script(Script),
}

impl Agent for StockAgent {
    ghost named = { name_of };

    ghost kept = { kept_of };

    ghost outcome = { outcome_by };

    ghost then_kept = { then_kept_by };

    fn name(&self) -> &[u8] {
        match self {
            StockAgent::Obedient(a) => a.name(),
            StockAgent::EveryThird(a) => a.name(),
            StockAgent::Script(a) => a.name(),
        }
    }

    fn call(&mut self, call: &Call) -> Outcome {
        match self {
            StockAgent::Obedient(a) => a.call(call),
            StockAgent::EveryThird(a) => a.call(call),
            StockAgent::Script(a) => a.call(call),
        }
    }
}
