ghost use Rattle.std.specs.Prelude.{◌≡◌, ◌↔◌, [], ◌∷◌, Some, List, ℕ, true, false, map, IfOk, OnOk, OnErr, IfSome, IsNone, IsSome};
ghost use Rattle.std.specs.Map.{lookup};
ghost use Rattle.std.specs.List.Sorted.{IsStrictlyIncreasing};
ghost use Rattle.std.specs.Str.{bytes_eq};
ghost use Rattle.shared_address.specs.Choosing.{answer_of, asked, chosen, is_target, kept_client, served, HaveWeights, WantsMemory};
ghost use Rattle.shared_address.specs.History.{outcome_after, requests_for, state_of, with_state, without_address, Event, Asked, Dropped, StandsFor};
ghost use Rattle.shared_address.specs.States.{fresh};

use crate::address::Address;
use crate::choice::{Choice, Client, NoMemory, Target};
use cl_base::{Name, Policy};
use indexmap::IndexMap;
use std::alloc::Global;
use std::marker::Model;

/// The balancer of all shared addresses. Contracts see what the requests for each address have
/// left, beside its name.
#[derive(Debug, Drop)]
pub struct Balancer {
    addresses: IndexMap<Name, Address>,
}

impl Model for Balancer {
    ghost use Rattle.std.specs.Prelude.{List, ℕ};
    ghost use Rattle.shared_address.specs.States.{AddressState};

    ghost Value = { List (List ℕ × AddressState) };

    ghost view = { λ b. b.addresses.entries };
}

impl Balancer {
    /// No request has come yet.
    pub fn new(alloc: Global) -> Balancer
        ensures value { result ≡ [] }
        ensures history { StandsFor result [] }
    {
        Balancer {
            addresses: IndexMap::new(alloc),
        }
    }

    /// Chooses the node that serves a client's request of the address `a`. A policy stays the same
    /// until the address is dropped; else what is kept serves the new one as it is. Where an entry
    /// is the 1,025th, the first goes, and the others move up one by one.
    pub fn choose(
        &mut self,
        a: &Name,
        policy: Policy,
        client: u32,
        port: u16,
        targets: &[Target],
    ) -> Result<Choice, NoMemory>
        requires order { IsStrictlyIncreasing (map (λ t. t.node) targets.now) }
        requires weights { HaveWeights targets.now }
        ensures answer { IfOk result (λ c. c ≡ answer_of (chosen (state_of self.old a.now) (asked policy client port targets.now))) }
        ensures after { OnOk result (self.new ≡ with_state self.old a.now (chosen (state_of self.old a.now) (asked policy client port targets.now)).after) }
        ensures state { OnOk result (state_of self.new a.now ≡ (chosen (state_of self.old a.now) (asked policy client port targets.now)).after) }
        ensures others { OnOk result ((other : List ℕ) → bytes_eq a.now other ≡ false → state_of self.new other ≡ state_of self.old other) }
        ensures err { OnErr result (self.new ≡ self.old) }
        ensures wanted { OnErr result (IsSome (lookup (bytes_eq a.now) self.old) → WantsMemory (state_of self.old a.now) (kept_client policy client port) targets.now) }
        ensures target { IfOk result (λ c. IfSome c.node (λ n. is_target targets.now n ≡ true)) }
        ensures none { IfOk result (λ c. IsNone c.node ↔ (targets.now ≡ [])) }
        ensures history { IfOk result (λ c. (events : List Event) → StandsFor self.old events → c ≡ answer_of (outcome_after (requests_for a.now events) (asked policy client port targets.now))) }
        ensures goes_on { OnOk result ((events : List Event) → StandsFor self.old events → StandsFor self.new (Asked a.now (asked policy client port targets.now) ∷ events)) }
    {
        choose_among(
            &mut self.addresses,
            a,
            kept_client(policy, client, port),
            targets,
        )
    }

    /// Forgets the address `a` wholly.
    pub fn drop_address(&mut self, a: &Name)
        ensures after { self.new ≡ without_address self.old a.now }
        ensures state { state_of self.new a.now ≡ fresh }
        ensures others { (other : List ℕ) → bytes_eq a.now other ≡ false → state_of self.new other ≡ state_of self.old other }
        ensures goes_on { (events : List Event) → StandsFor self.old events → StandsFor self.new (Dropped a.now ∷ events) }
    {
        self.addresses.shift_remove(a);
    }
}

/// Chooses for a request of the address `a`, the first one too.
fn choose_among(
    addresses: &mut IndexMap<Name, Address>,
    a: &Name,
    client: Option<Client>,
    targets: &[Target],
) -> Result<Choice, NoMemory>
    requires weights { HaveWeights targets.now }
    ensures answer { IfOk result (λ c. c ≡ answer_of (served (state_of addresses.old.entries a.now) client targets.now)) }
    ensures after { OnOk result (addresses.new.entries ≡ with_state addresses.old.entries a.now (served (state_of addresses.old.entries a.now) client targets.now).after) }
    ensures err { OnErr result (addresses.new.entries ≡ addresses.old.entries) }
    ensures wanted { OnErr result (IsSome (lookup (bytes_eq a.now) addresses.old.entries) → WantsMemory (state_of addresses.old.entries a.now) client targets.now) }
    ensures target { IfOk result (λ c. IfSome c.node (λ n. is_target targets.now n ≡ true)) }
    ensures none { IfOk result (λ c. IsNone c.node ↔ (targets.now ≡ [])) }
{
    if let Some(address) = addresses.get_mut(a) {
        return address.choose(client, targets);
    }
    let mut address = Address::new(*addresses.allocator());
    let choice = address.choose(client, targets)?;
    addresses.insert(*a, address)?;
    Ok(choice)
}

/// The client that a node is kept with.
fn kept_client(policy: Policy, address: u32, port: u16) -> Option<Client>
    ensures { result ≡ kept_client policy address port }
{
    match policy {
        Policy::Weighted => None,
        Policy::StickyPort => Some(Client { address, port }),
        Policy::Sticky => Some(Client { address, port: 0 }),
    }
}
