ghost use Rattle.std.specs.Prelude.{◌≡◌, ◌++◌, ◌∷◌, [], None, IsSome, OnOk, OnErr, length, slice_get};
ghost use Rattle.std.specs.Option.{option_copied, option_map};
ghost use Rattle.rg_props.specs.Lookups.{named, without};
ghost use Rattle.ccr_tables.specs.Changes.{new_address, weighted};
ghost use Rattle.ccr_tables.specs.Uses.{first_named, is_served_by};

use crate::address::{Address, Weights};
use crate::error::NoMemory;
use cl_base::{Items, Name, Policy};
use indexmap::IndexMap;
use std::alloc::Global;
use std::marker::Model;

/// The shared addresses of a cluster. Contracts see the list of their names with what they are, in
/// order of creation.
#[derive(Drop)]
pub struct Addresses {
    addresses: IndexMap<Name, Address>,
}

impl Model for Addresses {
    ghost use Rattle.std.specs.Prelude.{List, ℕ};
    ghost use Rattle.ccr_tables.specs.declared.address.Address.{Address};

    ghost Value = { List (List ℕ × Address) };

    ghost view = { λ a. a.addresses.entries };
}

impl Addresses {
    /// No addresses yet.
    pub fn new(alloc: Global) -> Addresses
        ensures value { result ≡ [] }
    {
        Addresses {
            addresses: IndexMap::new(alloc),
        }
    }

    /// The address of this name, if there is one.
    pub fn address(&self, name: &Name) -> Option<&Address>
        ensures value { option_copied result ≡ named self.now name.now }
    {
        self.addresses.get(name)
    }

    /// How many addresses there are.
    pub fn len(&self) -> usize
        ensures value { result ≡ length self.now }
    {
        self.addresses.len()
    }

    /// The name and the address at this place in order of creation, counted from 0.
    pub fn at(&self, place: usize) -> Option<(&Name, &Address)>
        ensures value { option_map (λ p. (p.0.now, p.1.now)) result ≡ slice_get self.now place }
    {
        self.addresses.get_index(place)
    }

    #[tactic(auto, using(crate::proofs::Firsts::none_more, crate::proofs::Firsts::none_past, crate::proofs::Firsts::none_there, crate::proofs::Firsts::found_here))]
    /// The name of the first address that the group serves, if it serves one.
    pub fn first_served_by(&self, group: &Name) -> Option<Name>
        ensures value { result ≡ first_named (is_served_by group.now) self.now }
    {
        for place in 0..self.len() {
            if let Some((name, address)) = self.at(place)
                && is_served_by(address, group)
            {
                return Some(*name);
            }
        }
        None
    }

    /// Adds an address of a new name after the others, with no weights. After `NoMemory` nothing is
    /// changed.
    pub fn create(&mut self, name: Name, group: Name, policy: Policy) -> Result<(), NoMemory>
        requires { named self.old name ≡ None }
        ensures ok { OnOk result (self.new ≡ self.old ++ (name, new_address group policy) ∷ []) }
        ensures err { OnErr result (self.new ≡ self.old) }
    {
        let address = Address {
            group,
            policy,
            weights: Items::new(Vec::new(*self.addresses.allocator())),
        };
        match self.addresses.insert(name, address) {
            Ok(_) => Ok(()),
            Err(_) => Err(NoMemory),
        }
    }

    /// Removes the address of this name. The others keep their order.
    pub fn delete(&mut self, name: &Name)
        requires { IsSome (named self.old name.now) }
        ensures value { self.new ≡ without self.old name.now }
    {
        self.addresses.shift_remove(name);
    }

    /// Gives the address of this name these weights, where there is one.
    pub fn set_weights(&mut self, name: &Name, weights: Weights)
        ensures value { self.new ≡ weighted self.old name.now weights (named self.old name.now) }
    {
        if let Some(address) = self.addresses.get_mut(name) {
            address.weights = weights;
        }
    }
}

fn is_served_by(address: &Address, group: &Name) -> bool
    ensures { result ≡ is_served_by group.now address.now }
{
    address.group.bytes() == group.bytes()
}
