ghost use Rattle.std.specs.Prelude.{◌≡◌, ◌∷◌, []};
ghost use Rattle.agents.specs.Answers.{fails_each_third, starts_after};

use cl_base::{Agent, Call, Method, Name, Outcome};
use std::marker::Model;

/// An agent of which each third call of START fails; every other call is a success.
#[derive(Drop)]
pub struct EveryThird {
    name: Name,
    /// The START calls since the last that failed, 0 to 2.
    starts: u8,
}

impl Model for EveryThird {
    ghost use Rattle.agents.specs.State.{Counting};

    ghost Value = { Counting };

    ghost view = { λ a. record { name = a.name; starts = a.starts } };
}

impl EveryThird {
    /// The agent of this name, without a call so far.
    pub fn new(name: Name) -> EveryThird
        ensures value { result ≡ record { name = name; starts = 0 } }
    {
        EveryThird { name, starts: 0 }
    }
}

impl Agent for EveryThird {
    ghost named = { λ a. a.name };

    ghost kept = { λ a. a.starts ∷ [] };

    ghost outcome = { fails_each_third };

    ghost then_kept = { starts_after };

    fn name(&self) -> &[u8] {
        self.name.bytes()
    }

    fn call(&mut self, call: &Call) -> Outcome {
        if call.method != Method::Start {
            return Outcome::Success;
        }
        if self.starts >= 2 {
            self.starts = 0;
            return Outcome::Failure;
        }
        self.starts += 1;
        Outcome::Success
    }
}
