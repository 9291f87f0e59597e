ghost use Rattle.std.specs.Prelude.{◌≡◌, ◌==◌, ℕ, ◌<◌, ◌≤◌, ◌++◌, ◌∷◌, [], length, filter, not, slice_get, replicate, IfOk};
ghost use Rattle.interconnect.specs.Keys.{AreNodes, IsOther, link_of, keys_on};

use arrayvec::ArrayVec;
use cl_base::NodeId;
use std::alloc::{AllocError, Global};
use std::marker::Model;

/// How many nodes there may be.
const NODES: usize = 32;

/// Links from each node to each of them.
const LINKS: usize = NODES * NODES;

/// The keys of the packets on one link, oldest first: 64, and one more while it is sent.
type Keys = ArrayVec<u32, 65>;

/// The keys of the packets in flight, link by link, each list oldest first.
#[derive(Drop)]
pub(crate) struct ByLink {
    links: Vec<Keys>,
}

impl Model for ByLink {
    ghost use Rattle.std.specs.Prelude.{◌≡◌, ℕ, List, map, length};

    ghost Value = { List (List ℕ) };

    ghost view = { λ b. map (λ v. v.items) b.links.items };

    ghost invariant = { λ b. length b.links.items ≡ 1024 };
}

impl ByLink {
    /// No packet on any link.
    pub(crate) fn new(alloc: Global) -> Result<ByLink, AllocError>
        ensures { IfOk result (λ b. b ≡ replicate 1024 []) }
    {
        let mut links = Vec::with_capacity(alloc, LINKS)?;
        for _ in 0..LINKS {
            links.push(Keys::new())?;
        }
        Ok(ByLink { links })
    }

    /// Puts a key behind the others of its link.
    pub(crate) fn push(&mut self, from: NodeId, to: NodeId, key: u32)
        requires { AreNodes from to → length (keys_on self.old from to) ≤ 64 }
        ensures nodes { AreNodes from to }
        ensures own { keys_on self.new from to ≡ keys_on self.old from to ++ key ∷ [] }
        ensures others { (f t : ℕ) → AreNodes f t → IsOther f t from to → keys_on self.new f t ≡ keys_on self.old f t }
    {
        let place = place_of_link(from, to);
        self.links[place].push(key);
    }

    /// Takes a key away from its link. The later ones, at most 64, move up.
    pub(crate) fn remove(&mut self, from: NodeId, to: NodeId, key: u32)
        ensures nodes { AreNodes from to }
        ensures own { keys_on self.new from to ≡ filter (λ k. not (k == key)) (keys_on self.old from to) }
        ensures others { (f t : ℕ) → AreNodes f t → IsOther f t from to → keys_on self.new f t ≡ keys_on self.old f t }
    {
        let place = place_of_link(from, to);
        without(&mut self.links[place], key);
    }

    /// The first key on a link.
    pub(crate) fn oldest(&self, from: NodeId, to: NodeId) -> Option<u32>
        ensures nodes { AreNodes from to }
        ensures value { result ≡ slice_get (keys_on self.now from to) 0 }
    {
        self.links[place_of_link(from, to)].first().copied()
    }

    /// How many keys are on a link.
    pub(crate) fn count(&self, from: NodeId, to: NodeId) -> u64
        ensures nodes { AreNodes from to }
        ensures value { result ≡ length (keys_on self.now from to) }
    {
        self.links[place_of_link(from, to)].len() as u64
    }
}

/// Takes a key out of a list.
fn without(keys: &mut Keys, key: u32)
    ensures { keys.new.items ≡ filter (λ k. not (k == key)) keys.old.items }
{
    keys.retain(|k| *k != key);
}

/// The place of a link in the table.
fn place_of_link(from: NodeId, to: NodeId) -> usize
    ensures nodes { AreNodes from to }
    ensures value { result ≡ link_of from to }
    ensures inside { result < 1024 }
{
    (from.number() as usize - 1) * NODES + (to.number() as usize - 1)
}
