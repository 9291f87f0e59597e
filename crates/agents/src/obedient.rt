ghost use Rattle.std.specs.Prelude.{◌≡◌, []};
ghost use Rattle.agents.specs.Answers.{obeys, same_kept};

use cl_base::{Agent, Call, Name, Outcome};
use std::marker::Model;

/// An agent whose every call is a success. Contracts see its name.
#[derive(Drop)]
pub struct Obedient {
    name: Name,
}

impl Model for Obedient {
    ghost use Rattle.std.specs.Prelude.{List, ℕ};

    ghost Value = { List ℕ };

    ghost view = { λ a. a.name };
}

impl Obedient {
    /// The agent of this name.
    pub fn new(name: Name) -> Obedient
        ensures value { result ≡ name }
    {
        Obedient { name }
    }
}

impl Agent for Obedient {
    ghost named = { λ a. a };

    ghost kept = { λ a. [] };

    ghost outcome = { obeys };

    ghost then_kept = { same_kept };

    fn name(&self) -> &[u8] {
        self.name.bytes()
    }

    fn call(&mut self, _call: &Call) -> Outcome {
        Outcome::Success
    }
}
