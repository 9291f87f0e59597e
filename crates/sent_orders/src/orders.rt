ghost use Rattle.std.specs.Prelude.{◌≡◌, ◌≤◌, ℕ, None, Some};
ghost use Rattle.std.specs.List.{All};
ghost use Rattle.cl_base.specs.Limits.{most_nodes};
ghost use Rattle.cl_base.specs.Sets.{has};
ghost use Rattle.sent_orders.specs.Ages.{age_of, AgesAfter, IsYoung, nothing_sent, with_ended, with_sent};
ghost use Rattle.sent_orders.specs.Ticks.{age_after, due, due_to, goes_again, is_due, ticked, with_due};

use cl_base::{NodeId, NodeSet};
use std::marker::Model;

/// At which tick after it was sent last an order goes again.
const AGAIN: u8 = 4;

/// The orders that were sent and are not answered, at most one a node. Contracts see for each node,
/// from node 1 to the greatest, how many ticks ago its order was sent last, or None.
#[derive(Clone, Copy, Debug)]
pub struct SentOrders {
    ages: [Option<u8>; 32],
}

impl Model for SentOrders {
    ghost use Rattle.std.specs.Prelude.{ℕ, List, Option};

    ghost Value = { List (Option ℕ) };

    ghost use Rattle.std.specs.Prelude.{◌≡◌, length};
    ghost use Rattle.std.specs.List.{All};
    ghost use Rattle.sent_orders.specs.Ages.{IsYoung};

    ghost view = { λ s. s.ages };

    ghost invariant = { λ s. (length s.ages ≡ 32) × All IsYoung s.ages };

    ghost inverse = { λ ages. record { ages = ages } };
}

impl SentOrders {
    /// No order was sent.
    pub fn new() -> SentOrders
        ensures value { result ≡ nothing_sent }
    {
        SentOrders { ages: [None; 32] }
    }

    /// An order has just been sent to the node, for the first time or again.
    pub fn sent(&mut self, n: NodeId)
        ensures value { self.new ≡ with_sent self.old n }
        ensures after { AgesAfter self.old n (Some 0) self.new }
    {
        self.ages[n.number() as usize - 1] = Some(0);
    }

    /// The node's order is answered: nothing goes again to it.
    pub fn ended(&mut self, n: NodeId)
        ensures value { self.new ≡ with_ended self.old n }
        ensures after { AgesAfter self.old n None self.new }
    {
        self.ages[n.number() as usize - 1] = None;
    }

    /// Whether the node's order goes again at the tick that comes, which is the fourth after it was
    /// sent last.
    pub fn is_due(&self, n: NodeId) -> bool
        ensures value { result ≡ is_due self.now n }
    {
        goes_again(self.ages[n.number() as usize - 1])
    }

    #[tactic(auto, using(crate::proofs::Due::has_due, crate::proofs::Due::age_ticked))]
    /// A tick of the president: the nodes to which their orders go again. To these they have just been
    /// sent; each other order is older by a tick.
    pub fn tick(&mut self) -> NodeSet
        ensures value { result ≡ due self.old }
        ensures nodes { (m : ℕ) → 1 ≤ m → m ≤ most_nodes → has result m ≡ is_due self.old m }
        ensures after { self.new ≡ ticked self.old }
        ensures ages { (m : ℕ) → age_of self.new m ≡ age_after (age_of self.old m) }
    {
        let due = self.due();
        grow(&mut self.ages);
        due
    }

    /// The nodes to which their orders go again at the tick that comes.
    fn due(&self) -> NodeSet
        ensures value { result ≡ due self.now }
    {
        let mut due = NodeSet::empty();
        for place in 0..NodeId::MOST {
            if let Ok(node) = NodeId::new(place + 1) {
                due = self.with_due(due, node);
            }
        }
        due
    }

    /// The set, and the node where its order goes again.
    fn with_due(&self, due: NodeSet, node: NodeId) -> NodeSet
        ensures { result ≡ with_due self.now due node }
    {
        if self.is_due(node) {
            due.with(node)
        } else {
            due
        }
    }
}

/// Each of them after the tick.
fn grow(ages: &mut [Option<u8>])
    requires { All IsYoung ages.old }
    ensures value { ages.new ≡ ticked ages.old }
    ensures young { All IsYoung ages.new }
{
    for age in ages.iter_mut() {
        *age = age_after(*age);
    }
}

fn goes_again(age: Option<u8>) -> bool
    requires { IsYoung age }
    ensures { result ≡ goes_again age }
{
    match age {
        Some(age) => age + 1 >= AGAIN,
        None => false,
    }
}

/// How old an order is after the tick.
fn age_after(age: Option<u8>) -> Option<u8>
    requires { IsYoung age }
    ensures value { result ≡ age_after age }
    ensures young { IsYoung result }
{
    match age {
        Some(age) if age + 1 >= AGAIN => Some(0),
        Some(age) => Some(age + 1),
        None => None,
    }
}
