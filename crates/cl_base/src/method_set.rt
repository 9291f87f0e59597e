ghost use Rattle.std.specs.Prelude.{◌≡◌, ◌==◌, ◌||◌, false, ℕ};
ghost use Rattle.cl_base.specs.Methods.{has_method, place_of};
ghost use Rattle.cl_base.specs.Sets.{set_with};
ghost use Rattle.cl_base.specs.declared.method.Method.{Method};

use crate::method::Method;
use crate::number_set::NumberSet;
use std::marker::Model;

/// A set of methods. Contracts see it through `has_method set m`, or as built up by `set_with`.
#[derive(Clone, Copy, Debug, PartialEq, Eq)]
pub struct MethodSet {
    places: NumberSet,
}

impl Model for MethodSet {
    ghost use Rattle.std.specs.Prelude.{ℕ};

    ghost Value = { ℕ };

    ghost view = { λ s. s.places };

    ghost inverse = { λ n. record { places = n } };
}

impl MethodSet {
    /// The set without a method.
    pub fn empty() -> MethodSet
        ensures value { result ≡ 0 }
        ensures members { (m : Method) → has_method result m ≡ false }
    {
        MethodSet {
            places: NumberSet::empty(),
        }
    }

    /// The set and this method.
    pub fn with(self, m: Method) -> MethodSet
        ensures value { result ≡ set_with self (place_of m) }
        ensures members { (other : Method) → has_method result other ≡ ((place_of other == place_of m) || has_method self other) }
    {
        MethodSet {
            places: self.places.with(m.place()),
        }
    }

    /// Whether the method is in the set.
    pub fn has(self, m: Method) -> bool
        ensures value { result ≡ has_method self m }
    {
        self.places.has(m.place())
    }
}
