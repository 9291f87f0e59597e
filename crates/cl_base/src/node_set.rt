ghost use Rattle.std.specs.Prelude.{◌≡◌, ◌<◌, ◌≤◌, ◌==◌, ◌||◌, ◌&&◌, not, true, false, ℕ, MatchOption, IfOk, nat_le};
ghost use Rattle.std.specs.String.{string_bytes};
ghost use Rattle.cl_base.specs.Sets.{has, count_to, set_with, set_without};
ghost use Rattle.cl_base.specs.Numbers.{numbers_to, first_numbers, set_text};
ghost use Rattle.cl_base.specs.Limits.{most_nodes, most_devices};

use crate::node::NodeId;
use crate::number_set::NumberSet;
use crate::numbers::set_text;
use std::alloc::{AllocError, Global};
use std::marker::Model;

/// A set of nodes. Contracts see it through `has set n`, which tells whether node n is in it.
#[derive(Clone, Copy, Debug, PartialEq, Eq)]
pub struct NodeSet {
    numbers: NumberSet,
}

impl Model for NodeSet {
    ghost use Rattle.std.specs.Prelude.{ℕ};

    ghost Value = { ℕ };

    ghost view = { λ s. s.numbers };

    ghost inverse = { λ n. record { numbers = n } };
}

impl NodeSet {
    /// The set without a node.
    pub fn empty() -> NodeSet
        ensures value { result ≡ 0 }
        ensures members { (m : ℕ) → has result m ≡ false }
    {
        NodeSet {
            numbers: NumberSet::empty(),
        }
    }

    /// The set of the nodes n whose bit n - 1 is set.
    pub fn from_bits(bits: u32) -> NodeSet
        ensures value { result ≡ bits }
    {
        NodeSet {
            numbers: NumberSet::from_bits(bits),
        }
    }

    /// The set as a number: bit n - 1 is set for each node n in it.
    pub fn bits(self) -> u32
        ensures value { result ≡ self }
    {
        self.numbers.bits()
    }

    /// The set and this node.
    pub fn with(self, n: NodeId) -> NodeSet
        ensures value { result ≡ set_with self n }
        ensures members { (m : ℕ) → has result m ≡ ((m == n) || has self m) }
    {
        NodeSet {
            numbers: self.numbers.with(n.number() as u8),
        }
    }

    /// The set less this node.
    pub fn without(self, n: NodeId) -> NodeSet
        ensures value { result ≡ set_without self n }
        ensures members { (m : ℕ) → has result m ≡ (not (m == n) && has self m) }
    {
        NodeSet {
            numbers: self.numbers.without(n.number() as u8),
        }
    }

    /// Whether the node is in the set.
    pub fn has(self, n: NodeId) -> bool
        ensures value { result ≡ has self n }
        ensures low { 1 ≤ n }
        ensures high { n ≤ most_nodes }
    {
        self.numbers.has(n.number() as u8)
    }

    /// The node of the set with the least number, if there is one.
    pub fn least(self) -> Option<NodeId>
        ensures value { MatchOption result ((m : ℕ) → has self m ≡ false) (λ n. (has self n ≡ true) × ((m : ℕ) → m < n → has self m ≡ false)) }
    {
        let number = self.numbers.least()?;
        NodeId::new(number as u64).ok()
    }

    /// How many nodes the set has.
    pub fn count(self) -> u64
        ensures value { result ≡ count_to self most_nodes }
        ensures most { result ≤ most_nodes }
    {
        self.numbers.count_to(32)
    }

    /// The numbers of the set's nodes by commas, or `none`.
    pub fn text(self, alloc: Global) -> Result<String, AllocError>
        ensures value { IfOk result (λ text. string_bytes text ≡ set_text self) }
    {
        set_text(alloc, self.numbers)
    }

    /// The nodes of the set, in ascending order.
    pub fn nodes(self, alloc: Global) -> Result<Vec<NodeId>, AllocError>
        ensures value { IfOk result (λ nodes. nodes.items ≡ numbers_to self most_nodes) }
    {
        let mut nodes = Vec::new(alloc);
        for n in 0..NodeId::MOST {
            match NodeId::new(n + 1) {
                Ok(node) if self.has(node) => nodes.push(node)?,
                _ => {}
            }
        }
        Ok(nodes)
    }

    /// The set of the nodes 1 to n, n being at most 32.
    pub fn first(n: u64) -> NodeSet
        requires { n ≤ most_nodes }
        ensures value { result ≡ first_numbers n }
        ensures members { (m : ℕ) → has result m ≡ (nat_le 1 m && nat_le m n) }
    {
        let mut numbers = NumberSet::empty();
        for k in 0..n {
            numbers = numbers.with(k as u8 + 1);
        }
        NodeSet { numbers }
    }
}
