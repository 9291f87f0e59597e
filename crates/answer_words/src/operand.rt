// What single operands spell.
ghost use Rattle.std.specs.Prelude.{◌≡◌, [], map, IfOk};
ghost use Rattle.std.specs.Option.{option_map};
ghost use Rattle.rg_props.specs.Values.{items_from};
ghost use Rattle.rg_props.specs.Words.{name_in, parts_at};
ghost use Rattle.answer_words.specs.Operands.{names_in, node_in, thing_in};

use crate::number::decimal;
use cl_base::{Items, Name, Names, NodeId, Thing};
use std::alloc::{AllocError, Global};

/// The parts of the bytes between these separators.
pub fn parts(alloc: Global, bytes: &[u8], separator: u8) -> Result<Vec<&[u8]>, AllocError>
    ensures { IfOk result (λ parts. map (λ p. p.now) parts.items ≡ parts_at separator bytes.now) }
{
    bytes.split(|b| *b == separator).collect(alloc)
}

/// The name that the word is.
pub fn name(word: &[u8]) -> Option<Name>
    ensures { result ≡ name_in word.now }
{
    Name::new(word).ok()
}

#[tactic(auto, unfolding(crate::specs::Operands::node_in))]
/// The node with the number that the word is.
pub fn node(word: &[u8]) -> Option<NodeId>
    ensures { result ≡ node_in word.now }
{
    NodeId::new(decimal(word)?).ok()
}

#[tactic(auto, unfolding(crate::specs::Operands::thing_in))]
/// What the word names: by a number, or by a name.
pub fn thing(word: &[u8]) -> Option<Thing>
    ensures { result ≡ thing_in word.now }
{
    match decimal(word) {
        Some(number) => Some(Thing::Numbered(number)),
        None => Some(Thing::Named(name(word)?)),
    }
}

#[tactic(auto, unfolding(crate::specs::Operands::names_in))]
/// The names that the word lists.
pub fn names(alloc: Global, word: &[u8]) -> Result<Option<Names>, AllocError>
    ensures { IfOk result (λ found. found ≡ names_in word.now) }
{
    let parts = parts(alloc, word, b',')?;
    Ok(each_name(alloc, &parts)?.map(|names| Items::new(names)))
}

fn each_name(alloc: Global, parts: &[&[u8]]) -> Result<Option<Vec<Name>>, AllocError>
    ensures { IfOk result (λ found. option_map (λ v. v.items) found ≡ items_from name_in [] (map (λ p. p.now) parts.now)) }
{
    let mut names = Vec::new(alloc);
    for part in parts {
        match name(part) {
            Some(name) => names.push(name)?,
            None => return Ok(None),
        }
    }
    Ok(Some(names))
}
