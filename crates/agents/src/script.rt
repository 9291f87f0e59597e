ghost use Rattle.std.specs.Prelude.{◌≡◌, map};
ghost use Rattle.agents.specs.Answers.{follows, left_after, code_of};

use cl_base::{Agent, Call, Name, Outcome};
use std::marker::Model;

/// An agent that gives the outcomes of a list, in order, and then success.
#[derive(Drop)]
pub struct Script {
    name: Name,
    outcomes: Vec<Outcome>,
    /// How many were given.
    given: usize,
}

impl Model for Script {
    ghost use Rattle.std.specs.Prelude.{drop};
    ghost use Rattle.agents.specs.State.{Scripted};

    ghost Value = { Scripted };

    ghost view = { λ a. record { name = a.name; left = drop a.given a.outcomes.items } };
}

impl Script {
    /// The agent of this name that is to give these outcomes.
    pub fn new(name: Name, outcomes: Vec<Outcome>) -> Script
        ensures value { result ≡ record { name = name; left = outcomes.items } }
    {
        Script {
            name,
            outcomes,
            given: 0,
        }
    }
}

impl Agent for Script {
    ghost named = { λ a. a.name };

    ghost kept = { λ a. map code_of a.left };

    ghost outcome = { follows };

    ghost then_kept = { left_after };

    fn name(&self) -> &[u8] {
        self.name.bytes()
    }

    fn call(&mut self, _call: &Call) -> Outcome {
        match self.outcomes.get(self.given) {
            Some(outcome) => {
                let outcome = *outcome;
                self.given += 1;
                outcome
            }
            None => Outcome::Success,
        }
    }
}
