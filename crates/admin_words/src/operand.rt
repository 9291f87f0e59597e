// What single operands spell, and how many there are.
ghost use Rattle.std.specs.Prelude.{◌≡◌, ◌≤◌, nat_lt, length, map, IfOk};
ghost use Rattle.rg_props.specs.Values.{most_of};
ghost use Rattle.rg_props.specs.Words.{name_in, parts_at};
ghost use Rattle.admin_words.specs.Operands.{device_in, load_in, node_in, policy_in};

use crate::number::number;
use cl_base::{Bytes, DevId, Items, Name, NodeId, Policy, Version};
use std::alloc::{AllocError, Global};

/// The greatest soft or hard limit of a load.
const MOST_LOAD: u64 = 1_000_000;

/// The parts of the bytes between these separators.
pub fn parts(alloc: Global, bytes: &[u8], separator: u8) -> Result<Vec<&[u8]>, AllocError>
    ensures { IfOk result (λ parts. map (λ p. p.now) parts.items ≡ parts_at separator bytes.now) }
{
    bytes.split(|b| *b == separator).collect(alloc)
}

#[tactic(auto, using(rg_props::proofs::ListLemmas::length_lent))]
/// Whether there are fewer words than so many.
pub fn are_fewer(words: &[&[u8]], least: usize) -> bool
    ensures { result ≡ nat_lt (length (map (λ w. w.now) words.now)) least }
{
    words.len() < least
}

/// The name that the word is.
pub fn name(word: &[u8]) -> Option<Name>
    ensures { result ≡ name_in word.now }
{
    Name::new(word).ok()
}

/// The node with the number that the word is.
pub fn node(version: Version, word: &[u8]) -> Option<NodeId>
    ensures { result ≡ node_in version word.now }
{
    NodeId::new(number(word, 1, most_nodes(version))?).ok()
}

/// The greatest number of a node.
fn most_nodes(version: Version) -> u64
    ensures value { result ≡ most_of version }
    ensures most { result ≤ 32 }
{
    match version {
        Version::One => NodeId::MOST_AT_FIRST,
        Version::Two => NodeId::MOST,
    }
}

/// The device with the number that the word is.
pub fn device(word: &[u8]) -> Option<DevId>
    ensures { result ≡ device_in word.now }
{
    DevId::new(number(word, 1, DevId::MOST)?).ok()
}

/// The load that the word is.
pub fn load(word: &[u8]) -> Option<u64>
    ensures { result ≡ load_in word.now }
{
    number(word, 0, MOST_LOAD)
}

#[tactic(auto, unfolding(crate::specs::Operands::policy_in))]
/// The policy that the word names.
pub fn policy(word: &[u8]) -> Option<Policy>
    ensures { result ≡ policy_in word.now }
{
    if word == b"LB_WEIGHTED".as_slice() {
        Some(Policy::Weighted)
    } else if word == b"LB_STICKY".as_slice() {
        Some(Policy::Sticky)
    } else if word == b"STICKY_PORT".as_slice() {
        Some(Policy::StickyPort)
    } else {
        None
    }
}

/// The word, to be kept.
pub fn kept(alloc: Global, word: &[u8]) -> Result<Bytes, AllocError>
    ensures { IfOk result (λ bytes. bytes ≡ word.now) }
{
    Ok(Items::new(word.to_vec(alloc)?))
}
