ghost use Rattle.std.specs.Prelude.{◌≡◌, ◌<◌, ◌≤◌, ◌↔◌, [], true, length, IfOk, OnOk, OnErr, IfSome, IsSomeAnd, IsNone, None, Some};
ghost use Rattle.indexmap.specs.IndexMap.{spare};
ghost use Rattle.shared_address.specs.Choosing.{answer_of, forgotten_of, is_target, keeping, kept_target, others, served, staying, HaveWeights, WantsMemory};
ghost use Rattle.shared_address.specs.States.{fresh};

use crate::choice::{Choice, Client, NoMemory, Target};
use crate::turns::Turns;
use cl_base::NodeId;
use indexmap::IndexMap;
use std::alloc::Global;
use std::marker::Model;

/// How many entries an address keeps at most.
const MOST_KEPT: usize = 1024;

/// What the requests for an address have left. Contracts see the kept clients with their nodes in
/// the order in which they were kept.
#[derive(Debug, Drop)]
pub struct Address {
    turns: Turns,
    kept: IndexMap<Client, NodeId>,
}

impl Model for Address {
    ghost use Rattle.shared_address.specs.States.{AddressState};

    ghost Value = { AddressState };

    ghost view = { λ a. record { turns = a.turns; kept = a.kept.entries } };
}

impl Address {
    /// Before the first request.
    pub fn new(alloc: Global) -> Address
        ensures value { result ≡ fresh }
    {
        Address {
            turns: Turns::new(alloc),
            kept: IndexMap::new(alloc),
        }
    }

    /// Chooses for a request. `client` is the one that a node is kept with, if the policy keeps one.
    pub fn choose(&mut self, client: Option<Client>, targets: &[Target]) -> Result<Choice, NoMemory>
        requires weights { HaveWeights targets.now }
        ensures answer { IfOk result (λ c. c ≡ answer_of (served self.old client targets.now)) }
        ensures after { OnOk result (self.new ≡ (served self.old client targets.now).after) }
        ensures err { OnErr result (self.new ≡ self.old) }
        ensures wanted { OnErr result (WantsMemory self.old client targets.now) }
        ensures target { IfOk result (λ c. IfSome c.node (λ n. is_target targets.now n ≡ true)) }
        ensures none { IfOk result (λ c. IsNone c.node ↔ (targets.now ≡ [])) }
    {
        if targets.is_empty() {
            self.turns.see(targets)?;
            return Ok(Choice {
                node: None,
                forgot: None,
            });
        }
        match client {
            None => self.choose_by_turn(targets),
            Some(client) => self.choose_for(client, targets),
        }
    }

    /// Chooses by the next turn alone.
    fn choose_by_turn(&mut self, targets: &[Target]) -> Result<Choice, NoMemory>
        requires weights { HaveWeights targets.now }
        requires some { 0 < length targets.now }
        ensures answer { IfOk result (λ c. c ≡ answer_of (served self.old None targets.now)) }
        ensures after { OnOk result (self.new ≡ (served self.old None targets.now).after) }
        ensures err { OnErr result (self.new ≡ self.old) }
        ensures wanted { OnErr result (WantsMemory self.old None targets.now) }
        ensures target { IfOk result (λ c. IsSomeAnd c.node (λ n. is_target targets.now n ≡ true)) }
    {
        self.turns.see(targets)?;
        Ok(Choice {
            node: Some(self.turns.next()),
            forgot: None,
        })
    }

    /// Chooses the node that is kept with the client, or by the next turn, which is then kept.
    fn choose_for(&mut self, client: Client, targets: &[Target]) -> Result<Choice, NoMemory>
        requires weights { HaveWeights targets.now }
        requires some { 0 < length targets.now }
        ensures answer { IfOk result (λ c. c ≡ answer_of (served self.old (Some client) targets.now)) }
        ensures after { OnOk result (self.new ≡ (served self.old (Some client) targets.now).after) }
        ensures err { OnErr result (self.new ≡ self.old) }
        ensures wanted { OnErr result (WantsMemory self.old (Some client) targets.now) }
        ensures target { IfOk result (λ c. IsSomeAnd c.node (λ n. is_target targets.now n ≡ true)) }
    {
        if let Some(kept) = kept_target(&self.kept, client, targets) {
            self.turns.see(targets)?;
            return Ok(Choice {
                node: Some(kept),
                forgot: None,
            });
        }
        // Room comes first: after it and the targets nothing fails.
        self.kept.reserve(1)?;
        self.turns.see(targets)?;
        let node = self.turns.next();
        let forgot = keep(&mut self.kept, client, node);
        Ok(Choice {
            node: Some(node),
            forgot,
        })
    }
}

/// The node that is kept with the client, where it is a target.
fn kept_target(
    kept: &IndexMap<Client, NodeId>,
    client: Client,
    targets: &[Target],
) -> Option<NodeId>
    ensures value { result ≡ kept_target kept.now.entries client targets.now }
    ensures target { IfSome result (λ n. is_target targets.now n ≡ true) }
{
    match kept.get(&client) {
        Some(node) if is_target(targets, *node) => Some(*node),
        _ => None,
    }
}

/// Whether the node is one of the targets.
fn is_target(targets: &[Target], n: NodeId) -> bool
    ensures { result ≡ is_target targets.now n }
{
    targets.iter().any(|t| t.node == n)
}

/// Keeps the client with the node, in the place of its old entry. Who is forgotten for it?
fn keep(kept: &mut IndexMap<Client, NodeId>, client: Client, node: NodeId) -> Option<Client>
    requires room { 0 < spare kept.old }
    ensures forgot { result ≡ forgotten_of (others kept.old.entries client) }
    ensures kept { kept.new.entries ≡ keeping kept.old.entries client node }
{
    kept.shift_remove(&client);
    let forgot = forget_first(kept);
    kept.insert(client, node).unwrap();
    forgot
}

/// Forgets the first client where no more can be kept. The others move up one by one.
fn forget_first(kept: &mut IndexMap<Client, NodeId>) -> Option<Client>
    ensures forgot { result ≡ forgotten_of kept.old.entries }
    ensures kept { kept.new.entries ≡ staying kept.old.entries }
    ensures room { spare kept.old ≤ spare kept.new }
{
    if kept.len() < MOST_KEPT {
        return None;
    }
    kept.shift_remove_index(0).map(|(client, _)| client)
}
