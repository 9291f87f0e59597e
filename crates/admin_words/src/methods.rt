// The set of methods that a word spells.
ghost use Rattle.std.specs.Prelude.{◌≡◌, ◌&&◌, [], map, find, Some, IfOk};
ghost use Rattle.std.specs.List.{filter};
ghost use Rattle.std.specs.Option.{option_map};
ghost use Rattle.std.specs.Str.{bytes_eq};
ghost use Rattle.update_words.specs.Methods.{method_text};
ghost use Rattle.rg_props.specs.Values.{are_few, items_from, items_in, kept_if};
ghost use Rattle.cl_base.specs.Methods.{has_method};
ghost use Rattle.cl_base.specs.declared.method.Method.{Method};
ghost use Rattle.cl_base.specs.declared.method.Method.TheVariants.{Start, Stop, MonitorStart, MonitorStop};
ghost use Rattle.ccr_tables.specs.Refusals.{both_or_neither};
ghost use Rattle.admin_words.specs.Methods.{are_complete, in_order, lists, method_in, methods_in, plain_set, set_of};

use crate::operand::parts;
use cl_base::{Method, MethodSet};
use std::alloc::{AllocError, Global};
use update_words::{METHODS, method_word};

/// The set of methods that the word spells.
pub fn methods(alloc: Global, word: &[u8]) -> Result<Option<MethodSet>, AllocError>
    ensures { IfOk result (λ found. found ≡ methods_in word.now) }
{
    match method_list(alloc, word)? {
        Some(methods) => Ok(complete_set(&methods)),
        None => Ok(None),
    }
}

/// The methods that the word lists.
fn method_list(alloc: Global, word: &[u8]) -> Result<Option<Vec<Method>>, AllocError>
    ensures { IfOk result (λ found. option_map (λ v. v.items) found ≡ items_in method_in word.now) }
{
    let parts = parts(alloc, word, b',')?;
    if !are_few(&parts) {
        return Ok(None);
    }
    each_method(alloc, &parts)
}

#[tactic(auto, using(rg_props::proofs::ListLemmas::length_lent))]
/// Whether a list may have so many parts.
pub fn are_few(parts: &[&[u8]]) -> bool
    ensures { result ≡ are_few (map (λ p. p.now) parts.now) }
{
    parts.len() <= 32
}

fn each_method(alloc: Global, parts: &[&[u8]]) -> Result<Option<Vec<Method>>, AllocError>
    ensures { IfOk result (λ found. option_map (λ v. v.items) found ≡ items_from method_in [] (map (λ p. p.now) parts.now)) }
{
    let mut methods = Vec::new(alloc);
    for part in parts {
        match method(part) {
            Some(method) => methods.push(method)?,
            None => return Ok(None),
        }
    }
    Ok(Some(methods))
}

#[tactic(auto, unfolding(crate::specs::Methods::method_in))]
/// The method that the word names.
fn method(word: &[u8]) -> Option<Method>
    ensures { result ≡ method_in word.now }
{
    named_among(&METHODS, word)
}

fn named_among(methods: &[Method], word: &[u8]) -> Option<Method>
    ensures { result ≡ find (λ m. bytes_eq (method_text m) word.now) methods.now }
{
    methods.iter().copied().find(|m| method_word(*m) == word)
}

/// The set of the methods, where they make a resource type.
fn complete_set(methods: &[Method]) -> Option<MethodSet>
    ensures { result ≡ option_map (λ ms. set_of (in_order ms)) (kept_if are_complete (Some methods.now)) }
{
    let set = set_of(methods);
    if are_complete(set) {
        Some(in_order(set))
    } else {
        None
    }
}

#[tactic(auto, unfolding(update_words::specs::Methods::listed))]
/// The same methods, put into the set in the order of listing.
fn in_order(set: MethodSet) -> MethodSet
    ensures { result ≡ plain_set set }
{
    those_in(set, &METHODS)
}

/// Those of the methods that the set has, put into a set one after the other.
fn those_in(set: MethodSet, among: &[Method]) -> MethodSet
    ensures { result ≡ set_of (filter (has_method set) among.now) }
{
    let mut those = MethodSet::empty();
    for method in among {
        if set.has(*method) {
            those = those.with(*method);
        }
    }
    those
}

fn set_of(methods: &[Method]) -> MethodSet
    ensures { (m : Method) → has_method result m ≡ lists methods.now m }
{
    let mut set = MethodSet::empty();
    for method in methods {
        set = set.with(*method);
    }
    set
}

fn are_complete(set: MethodSet) -> bool
    ensures { result ≡ (has_method set Start && has_method set Stop && both_or_neither (has_method set MonitorStart) (has_method set MonitorStop)) }
{
    set.has(Method::Start)
        && set.has(Method::Stop)
        && set.has(Method::MonitorStart) == set.has(Method::MonitorStop)
}
