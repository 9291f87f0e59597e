// Lists in the values of properties.
ghost use Rattle.std.specs.Prelude.{◌≡◌, ◌≤◌, [], map, length, take, drop, IfOk};
ghost use Rattle.std.specs.List.{list_any};
ghost use Rattle.std.specs.Option.{option_map};
ghost use Rattle.rg_props.specs.Words.{name_in, number_in};
ghost use Rattle.rg_props.specs.Values.{affine_in, affinities_in, are_distinct, are_few, factor_in, factor_of, factors_in, items_from, list_in, names_in, nodes_in, same_limit, same_node, signed};

use crate::affinity::{Affine, Affinity};
use crate::group::{Affinities, Factors, Nodes};
use crate::number::number;
use crate::word::{name, parts};
use cl_base::{Items, Name, Names, NodeId};
use load_limits::Factor;
use std::alloc::{AllocError, Global};

/// The most items of a list.
const MOST_ITEMS: usize = 32;

/// The greatest load of a factor.
const MOST_LOAD: u64 = 1_000_000;

/// The nodes that the value lists, each once, with numbers up to the most.
pub fn nodes(alloc: Global, most: u64, value: &[u8]) -> Result<Option<Nodes>, AllocError>
    requires { most ≤ 32 }
    ensures { IfOk result (λ found. found ≡ nodes_in most value.now) }
{
    let parts = parts(alloc, value, b',')?;
    if !are_few(&parts) {
        return Ok(None);
    }
    match each_node(alloc, most, &parts)? {
        Some(nodes) if are_distinct_nodes(&nodes) => Ok(Some(Items::new(nodes))),
        _ => Ok(None),
    }
}

#[tactic(auto, using(crate::proofs::ListLemmas::length_lent))]
/// Whether a list may have so many parts.
fn are_few(parts: &[&[u8]]) -> bool
    ensures { result ≡ are_few (map (λ p. p.now) parts.now) }
{
    parts.len() <= MOST_ITEMS
}

fn each_node(alloc: Global, most: u64, parts: &[&[u8]]) -> Result<Option<Vec<NodeId>>, AllocError>
    requires { most ≤ 32 }
    ensures { IfOk result (λ found. option_map (λ v. v.items) found ≡ items_from (number_in 1 most) [] (map (λ p. p.now) parts.now)) }
{
    let mut nodes = Vec::new(alloc);
    for part in parts {
        match node(most, part) {
            Some(node) => nodes.push(node)?,
            None => return Ok(None),
        }
    }
    Ok(Some(nodes))
}

fn node(most: u64, part: &[u8]) -> Option<NodeId>
    requires { most ≤ 32 }
    ensures { result ≡ number_in 1 most part.now }
{
    NodeId::new(number(part, 1, most)?).ok()
}

fn are_distinct_nodes(nodes: &[NodeId]) -> bool
    ensures { result ≡ are_distinct same_node nodes.now }
{
    match nodes {
        [] => true,
        [first, rest @ ..] => !has_node(*first, rest) && are_distinct_nodes(rest),
    }
}

fn has_node(node: NodeId, nodes: &[NodeId]) -> bool
    ensures { result ≡ list_any (same_node node) nodes.now }
{
    nodes.iter().any(|n| node == *n)
}

/// The names that the value lists.
pub fn names(alloc: Global, value: &[u8]) -> Result<Option<Names>, AllocError>
    ensures { IfOk result (λ found. found ≡ names_in value.now) }
{
    if value == b"none".as_slice() {
        return Ok(Some(Items::new(Vec::new(alloc))));
    }
    let parts = parts(alloc, value, b',')?;
    if !are_few(&parts) {
        return Ok(None);
    }
    Ok(each_name(alloc, &parts)?.map(|names| Items::new(names)))
}

fn each_name(alloc: Global, parts: &[&[u8]]) -> Result<Option<Vec<Name>>, AllocError>
    ensures { IfOk result (λ found. option_map (λ v. v.items) found ≡ items_from name_in [] (map (λ p. p.now) parts.now)) }
{
    let mut names = Vec::new(alloc);
    for part in parts {
        match name(part) {
            Some(name) => names.push(name)?,
            None => return Ok(None),
        }
    }
    Ok(Some(names))
}

/// The affinities that the value lists.
pub fn affinities(alloc: Global, value: &[u8]) -> Result<Option<Affinities>, AllocError>
    ensures { IfOk result (λ found. found ≡ affinities_in value.now) }
{
    if value == b"none".as_slice() {
        return Ok(Some(Items::new(Vec::new(alloc))));
    }
    let parts = parts(alloc, value, b',')?;
    if !are_few(&parts) {
        return Ok(None);
    }
    Ok(each_affine(alloc, &parts)?.map(|affinities| Items::new(affinities)))
}

fn each_affine(alloc: Global, parts: &[&[u8]]) -> Result<Option<Vec<Affine>>, AllocError>
    ensures { IfOk result (λ found. option_map (λ v. v.items) found ≡ items_from affine_in [] (map (λ p. p.now) parts.now)) }
{
    let mut affinities = Vec::new(alloc);
    for part in parts {
        match affine(part) {
            Some(affine) => affinities.push(affine)?,
            None => return Ok(None),
        }
    }
    Ok(Some(affinities))
}

#[tactic(auto, unfolding(crate::specs::Values::affine_in))]
/// The group with its sign that the part is. A name begins with a letter, so one sign fits at most.
fn affine(part: &[u8]) -> Option<Affine>
    ensures { result ≡ affine_in part.now }
{
    signed(Affinity::PlusPlusPlus, part)
        .or_else(|| signed(Affinity::PlusPlus, part))
        .or_else(|| signed(Affinity::Plus, part))
        .or_else(|| signed(Affinity::MinusMinus, part))
        .or_else(|| signed(Affinity::Minus, part))
}

fn signed(affinity: Affinity, part: &[u8]) -> Option<Affine>
    ensures { result ≡ signed affinity part.now }
{
    let group = name(part.strip_prefix(affinity.sign())?)?;
    Some(Affine { affinity, group })
}

/// The load factors that the value lists, of each limit one.
pub fn factors(alloc: Global, value: &[u8]) -> Result<Option<Factors>, AllocError>
    ensures { IfOk result (λ found. found ≡ factors_in value.now) }
{
    match listed_factors(alloc, value)? {
        Some(factors) if are_of_distinct_limits(&factors) => Ok(Some(Items::new(factors))),
        _ => Ok(None),
    }
}

fn listed_factors(alloc: Global, value: &[u8]) -> Result<Option<Vec<Factor>>, AllocError>
    ensures { IfOk result (λ found. option_map (λ v. v.items) found ≡ list_in factor_in value.now) }
{
    if value == b"none".as_slice() {
        return Ok(Some(Vec::new(alloc)));
    }
    let parts = parts(alloc, value, b',')?;
    if !are_few(&parts) {
        return Ok(None);
    }
    each_factor(alloc, &parts)
}

fn each_factor(alloc: Global, parts: &[&[u8]]) -> Result<Option<Vec<Factor>>, AllocError>
    ensures { IfOk result (λ found. option_map (λ v. v.items) found ≡ items_from factor_in [] (map (λ p. p.now) parts.now)) }
{
    let mut factors = Vec::new(alloc);
    for part in parts {
        match factor(alloc, part)? {
            Some(factor) => factors.push(factor)?,
            None => return Ok(None),
        }
    }
    Ok(Some(factors))
}

#[tactic(auto, unfolding(crate::specs::Values::factor_in))]
fn factor(alloc: Global, part: &[u8]) -> Result<Option<Factor>, AllocError>
    ensures { IfOk result (λ found. found ≡ factor_in part.now) }
{
    let words = parts(alloc, part, b'@')?;
    Ok(factor_of(&words))
}

fn factor_of(words: &[&[u8]]) -> Option<Factor>
    ensures { result ≡ factor_of (map (λ w. w.now) words.now) }
{
    let [limit, load] = words else {
        return None;
    };
    let name = name(limit)?;
    let load = number(load, 0, MOST_LOAD)?;
    Some(Factor { name, load })
}

fn are_of_distinct_limits(factors: &[Factor]) -> bool
    ensures { result ≡ are_distinct same_limit factors.now }
{
    match factors {
        [] => true,
        [first, rest @ ..] => !has_limit(first, rest) && are_of_distinct_limits(rest),
    }
}

fn has_limit(factor: &Factor, factors: &[Factor]) -> bool
    ensures { result ≡ list_any (same_limit factor.now) factors.now }
{
    factors.iter().any(|f| same_limit(factor, f))
}

fn same_limit(one: &Factor, other: &Factor) -> bool
    ensures { result ≡ same_limit one.now other.now }
{
    one.name.bytes() == other.name.bytes()
}
