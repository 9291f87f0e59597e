ghost use Rattle.std.specs.Prelude.{◌≡◌, ◌<◌, ◌≤◌, ◌+◌, ◌*◌, ◌/◌, ◌%◌, ◌^◌, ℕ};

use crate::node::NodeId;
use std::marker::Model;

/// The number of a membership attempt: a count times 64 plus the number of the node that
/// coordinates it. 0 is no attempt's.
#[derive(Clone, Copy, Debug, PartialEq, Eq, PartialOrd, Ord)]
pub struct Epoch {
    number: u64,
}

impl Model for Epoch {
    ghost use Rattle.std.specs.Prelude.{ℕ};

    ghost Value = { ℕ };

    ghost view = { λ e. e.number };

    ghost inverse = { λ n. record { number = n } };
}

impl Epoch {
    /// No attempt's number.
    pub fn zero() -> Epoch
        ensures value { result ≡ 0 }
    {
        Epoch { number: 0 }
    }

    /// The epoch of this number.
    pub fn from_number(n: u64) -> Epoch
        ensures value { result ≡ n }
    {
        Epoch { number: n }
    }

    /// The epoch's number.
    pub fn number(self) -> u64
        ensures value { result ≡ self }
    {
        self.number
    }

    /// The epoch of this count that the node coordinates. The count is below 2^57.
    pub fn new(count: u64, node: NodeId) -> Epoch
        requires { count < 2 ^ 57 }
        ensures value { result ≡ count * 64 + node }
        ensures coordinator { result % 64 ≡ node }
    {
        Epoch {
            number: count * 64 + node.number(),
        }
    }

    /// The node's first epoch with a greater count. The count stays below 2^57.
    pub fn next_above(self, node: NodeId) -> Epoch
        requires { self / 64 + 1 < 2 ^ 57 }
        ensures value { result ≡ (self / 64 + 1) * 64 + node }
        ensures above { self < result }
        ensures coordinator { result % 64 ≡ node }
    {
        Epoch::new(self.number / 64 + 1, node)
    }
}
