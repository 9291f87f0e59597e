ghost use Rattle.std.specs.Prelude.{◌≡◌, IfOk, OnOk, OnErr, option_map};
ghost use Rattle.schedule_gen.specs.Progress.{next_of, after};

use crate::draw::draw;
use crate::event::event;
use crate::opening::{OPENING, opening_line};
use std::alloc::{AllocError, Global};
use std::marker::Model;

/// A schedule line by line. Contracts see its seed, how many lines follow the opening, and how
/// many lines it has given.
#[derive(Drop)]
pub struct Gen {
    // Kept for contracts to name: the lines come from the state.
    seed: u64,
    // How many lines follow the opening.
    count: u64,
    // How many opening lines were given, and then how many after them.
    opened: u64,
    drawn: u64,
    // That of the last draw.
    state: u64,
}

impl Model for Gen {
    ghost use Rattle.std.specs.Prelude.{◌+◌};
    ghost use Rattle.schedule_gen.specs.Progress.{Progress, IsGenerator};

    ghost Value = { Progress };

    ghost view = { λ g. record { seed = g.seed; count = g.count; given = g.opened + g.drawn } };

    ghost invariant = { λ g. IsGenerator g.seed g.count g.opened g.drawn g.state };
}

impl Gen {
    /// The schedule of the seed, with so many lines after the opening.
    pub fn new(seed: u64, count: u64) -> Gen
        ensures value { result ≡ record { seed = seed; count = count; given = 0 } }
    {
        Gen {
            seed,
            count,
            opened: 0,
            drawn: 0,
            state: seed,
        }
    }

    /// The next line, without a newline; None after the last. Without memory nothing has changed.
    pub fn next_line(&mut self, alloc: Global) -> Result<Option<Vec<u8>>, AllocError>
        ensures line { IfOk result (λ line. option_map (λ text. text.items) line ≡ next_of self.old) }
        ensures after { OnOk result (self.new ≡ after self.old) }
        ensures unchanged { OnErr result (self.new ≡ self.old) }
    {
        if self.opened < OPENING {
            let text = opening_line(alloc, self.opened)?;
            self.opened += 1;
            return Ok(Some(text.into_bytes()));
        }
        if self.drawn == self.count {
            return Ok(None);
        }
        let state = draw(self.state);
        let text = event(alloc, state, self.drawn)?;
        self.state = state;
        self.drawn += 1;
        Ok(Some(text.into_bytes()))
    }
}
