ghost use Rattle.std.specs.Prelude.{◌≡◌, ◌≤◌, ◌<◌, ◌++◌, ◌∷◌, ◌+◌, ◌-◌, ◌^◌, [], None, IsSome, OnOk, OnErr, length, min};
ghost use Rattle.std.specs.List.{filter};
ghost use Rattle.std.specs.Option.{option_map};
ghost use Rattle.load_limits.specs.Loads.{brings_over, first_over_of, is_limit, is_over_soft, limit_of, limits_of_others, limits_without, load, share};

use cl_base::{Name, NodeId};
use std::alloc::{AllocError, Global};
use std::marker::Model;

/// The greatest load that is told: a sum that would pass it stays there.
const MOST: u64 = (1 << 63) - 1;

/// A limit of a node.
#[derive(Clone, Copy)]
pub struct Limit {
    /// The node.
    pub node: NodeId,
    /// What the load is called.
    pub name: Name,
    /// The load above which the node is taken only where no other is better.
    pub soft: u64,
    /// The load that is never passed, at least the soft one and at most 1,000,000.
    pub hard: u64,
}

/// What a group adds to a load of each node that runs it.
#[derive(Clone, Copy)]
pub struct Factor {
    /// What the load is called.
    pub name: Name,
    /// How much of it.
    pub load: u64,
}

/// The limits of all nodes. Contracts see the list of them in order of creation.
#[derive(Drop)]
pub struct Limits {
    limits: Vec<Limit>,
}

impl Model for Limits {
    ghost use Rattle.std.specs.Prelude.{List};
    ghost use Rattle.load_limits.specs.declared.limits.Limit.{Limit};

    ghost Value = { List Limit };

    ghost view = { λ l. l.limits.items };
}

impl Limits {
    /// No limits yet.
    pub fn new(alloc: Global) -> Limits
        ensures value { result ≡ [] }
    {
        Limits {
            limits: Vec::new(alloc),
        }
    }

    /// The node's limit of this name: its soft and its hard bound.
    pub fn limit(&self, n: NodeId, name: &Name) -> Option<(u64, u64)>
        ensures value { result ≡ option_map (λ l. (l.soft, l.hard)) (limit_of self.now n name.now) }
    {
        self.limits
            .iter()
            .find(|l| is_limit(l, n, name))
            .map(|l| (l.soft, l.hard))
    }

    /// The limits in order of creation.
    pub fn items(&self) -> &[Limit]
        ensures value { result.now ≡ self.now }
    {
        self.limits.as_slice()
    }

    /// Adds a limit of a name that the node has no limit of. Without memory nothing is changed.
    pub fn create(&mut self, limit: Limit) -> Result<(), AllocError>
        requires new { limit_of self.old limit.node limit.name ≡ None }
        requires order { limit.soft ≤ limit.hard }
        requires most { limit.hard ≤ 1000000 }
        ensures ok { OnOk result (self.new ≡ self.old ++ limit ∷ []) }
        ensures err { OnErr result (self.new ≡ self.old) }
    {
        self.limits.push(limit)?;
        Ok(())
    }

    /// Removes the node's limit of this name. The others keep their order.
    pub fn delete(&mut self, n: NodeId, name: &Name)
        requires { IsSome (limit_of self.old n name.now) }
        ensures value { self.new ≡ limits_without self.old n name.now }
    {
        self.limits.retain(|l| !is_limit(l, n, name));
    }

    /// Removes all limits of the node. The others keep their order.
    pub fn delete_node(&mut self, n: NodeId)
        ensures value { self.new ≡ limits_of_others self.old n }
    {
        self.limits.retain(|l| l.node != n);
    }

    /// The name of the first limit of the node whose hard bound a group with these factors of its own
    /// would pass, where these are counted there already; None exactly where it passes none.
    pub fn first_over(&self, n: NodeId, counted: &[Factor], own: &[Factor]) -> Option<Name>
        ensures value { result ≡ option_map (λ l. l.name) (first_over_of self.now n counted.now own.now) }
    {
        self.limits
            .iter()
            .find(|l| l.node == n && brings_over(counted, own, &l.name, l.hard))
            .map(|l| l.name)
    }

    /// How many limits of the node a group with these factors of its own would bring above their soft
    /// bound, where these are counted there already.
    pub fn soft_over(&self, n: NodeId, counted: &[Factor], own: &[Factor]) -> u64
        ensures value { result ≡ length (filter (is_over_soft n counted.now own.now) self.now) }
    {
        self.limits
            .iter()
            .filter(|l| l.node == n && brings_over(counted, own, &l.name, l.soft))
            .count() as u64
    }
}

fn is_limit(l: &Limit, n: NodeId, name: &Name) -> bool
    ensures { result ≡ is_limit n name.now l.now }
{
    l.node == n && l.name.bytes() == name.bytes()
}

fn brings_over(counted: &[Factor], own: &[Factor], name: &Name, bound: u64) -> bool
    ensures { result ≡ brings_over counted.now own.now name.now bound }
{
    let load = load_of(name, own);
    load > 0 && (load + load_of(name, counted)).min(MOST) > bound
}

#[tactic(auto, unfolding(crate::specs::Loads::load), using(crate::proofs::Sums::load_more))]
/// The load of this name by all the factors: a sum that would pass 2^63 - 1 stays there.
pub fn load_of(name: &Name, factors: &[Factor]) -> u64
    ensures value { result ≡ load name.now factors.now }
    ensures most { result ≤ 2 ^ 63 - 1 }
{
    let mut load = 0u64;
    for factor in factors {
        load = load.saturating_add(share(name, factor)).min(MOST);
    }
    load
}

fn share(name: &Name, factor: &Factor) -> u64
    ensures { result ≡ share name.now factor.now }
{
    if factor.name.bytes() == name.bytes() {
        factor.load
    } else {
        0
    }
}
