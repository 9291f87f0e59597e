ghost use Rattle.std.specs.Prelude.{◌≡◌, ◌<◌, ◌≤◌, ◌⊎◌, ℕ, MatchResult};
ghost use Rattle.cl_base.specs.Limits.{most_nodes};

use crate::number::BadNumber;
use std::marker::Model;

/// The number of a node, 1 to 32.
#[derive(Clone, Copy, Debug, PartialEq, Eq, PartialOrd, Ord)]
pub struct NodeId {
    number: u8,
}

impl Model for NodeId {
    ghost use Rattle.std.specs.Prelude.{ℕ, ◌≤◌};
    ghost use Rattle.cl_base.specs.Limits.{most_nodes};

    ghost Value = { ℕ };

    ghost view = { λ n. n.number };

    ghost invariant = { λ n. (1 ≤ n.number) × (n.number ≤ most_nodes) };

    ghost inverse = { λ n. record { number = n } };
}

impl NodeId {
    /// The greatest number of a node.
    pub const MOST: u64 = 32;

    /// The greatest number of a node in a schedule of the first version, and of a sender.
    pub const MOST_AT_FIRST: u64 = 16;

    /// The node with this number, or `BadNumber` where it is 0 or above 32.
    pub fn new(n: u64) -> Result<NodeId, BadNumber>
        ensures answer { MatchResult result (λ node. (node ≡ n) × (1 ≤ n) × (n ≤ most_nodes)) (λ e. (e.0 ≡ n) × ((n ≡ 0) ⊎ (most_nodes < n))) }
    {
        if n == 0 || n > NodeId::MOST {
            return Err(BadNumber(n));
        }
        Ok(NodeId { number: n as u8 })
    }

    /// The node's number, 1 to 32.
    pub fn number(self) -> u64
        ensures value { result ≡ self }
        ensures low { 1 ≤ result }
        ensures high { result ≤ most_nodes }
    {
        self.number as u64
    }
}
