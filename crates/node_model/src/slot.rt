ghost use Rattle.std.specs.Prelude.{◌≡◌, None, Some, OnOk, OnErr};
ghost use Rattle.std.specs.Option.{option_map};

use std::alloc::{AllocError, Global};
use std::marker::Model;

/// Room for one value, which stands apart in memory, so that what has the slot is quick to move.
/// Contracts see the value, if there is one.
#[derive(Drop)]
pub struct Slot<T> {
    held: Option<Box<T>>,
}

impl<T> Model for Slot<T> {
    ghost use Rattle.std.specs.Prelude.{Option};
    ghost use Rattle.std.specs.Option.{option_map};

    ghost Value = { Option T };

    ghost view = { λ s. option_map (λ b. b.value) s.held };
}

impl<T: Drop> Slot<T> {
    /// Nothing is in it.
    pub fn empty() -> Slot<T>
        ensures value { result ≡ None }
    {
        Slot { held: None }
    }

    /// What is in it.
    pub fn get(&self) -> Option<&T>
        ensures value { option_map (λ x. x.now) result ≡ self.now }
    {
        match &self.held {
            Some(held) => Some(&**held),
            None => None,
        }
    }

    /// Puts the value in, in place of what was there.
    pub fn put(&mut self, alloc: Global, value: T) -> Result<(), AllocError>
        ensures ok { OnOk result (self.new ≡ Some value) }
        ensures no_memory { OnErr result (self.new ≡ self.old) }
    {
        let held = Box::new(alloc, value)?;
        self.held = Some(held);
        Ok(())
    }

    /// Takes out what is in it.
    pub fn take(&mut self) -> Option<T>
        ensures value { result ≡ self.old }
        ensures left { self.new ≡ None }
    {
        match self.held.take() {
            Some(held) => Some(Box::into_inner(held)),
            None => None,
        }
    }
}
