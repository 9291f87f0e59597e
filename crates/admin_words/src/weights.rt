// Weights of nodes, and lists of nodes.
ghost use Rattle.std.specs.Prelude.{◌≡◌, [], map, IfOk};
ghost use Rattle.std.specs.Option.{option_map};
ghost use Rattle.rg_props.specs.Values.{items_from, most_of, nodes_in};
ghost use Rattle.admin_words.specs.Operands.{weight_in, weight_of, weights_in};

use crate::methods::are_few;
use crate::number::number;
use crate::operand::{node, parts};
use ccr_tables::{Weight, Weights};
use cl_base::{Items, Version};
use rg_props::{GroupSetting, Nodes, SetError, group_setting};
use std::alloc::{AllocError, Global};

/// The greatest weight.
const MOST_WEIGHT: u64 = 1_000;

#[tactic(auto, unfolding(rg_props::specs::Settings::group_setting_in, rg_props::specs::Properties::group_property_named))]
/// The nodes that the word lists, in the form of a Nodelist.
pub fn nodes(alloc: Global, version: Version, word: &[u8]) -> Result<Option<Nodes>, AllocError>
    ensures { IfOk result (λ found. found ≡ nodes_in (most_of version) word.now) }
{
    match group_setting(alloc, version, b"Nodelist", word) {
        Ok(GroupSetting::Nodelist(nodes)) => Ok(Some(nodes)),
        Err(SetError::NoMemory) => Err(AllocError),
        _ => Ok(None),
    }
}

/// The weights that the word lists.
pub fn weights(alloc: Global, version: Version, word: &[u8]) -> Result<Option<Weights>, AllocError>
    ensures { IfOk result (λ found. found ≡ weights_in version word.now) }
{
    let parts = parts(alloc, word, b',')?;
    if !are_few(&parts) {
        return Ok(None);
    }
    Ok(each_weight(alloc, version, &parts)?.map(|weights| Items::new(weights)))
}

fn each_weight(
    alloc: Global,
    version: Version,
    parts: &[&[u8]],
) -> Result<Option<Vec<Weight>>, AllocError>
    ensures { IfOk result (λ found. option_map (λ v. v.items) found ≡ items_from (weight_in version) [] (map (λ p. p.now) parts.now)) }
{
    let mut weights = Vec::new(alloc);
    for part in parts {
        match weight(alloc, version, part)? {
            Some(weight) => weights.push(weight)?,
            None => return Ok(None),
        }
    }
    Ok(Some(weights))
}

#[tactic(auto, unfolding(crate::specs::Operands::weight_in))]
fn weight(alloc: Global, version: Version, part: &[u8]) -> Result<Option<Weight>, AllocError>
    ensures { IfOk result (λ found. found ≡ weight_in version part.now) }
{
    let words = parts(alloc, part, b'@')?;
    Ok(weight_of(version, &words))
}

fn weight_of(version: Version, words: &[&[u8]]) -> Option<Weight>
    ensures { result ≡ weight_of version (map (λ w. w.now) words.now) }
{
    let [weight, of_node] = words else {
        return None;
    };
    let weight = number(weight, 0, MOST_WEIGHT)?;
    let node = node(version, of_node)?;
    Some(Weight { node, weight })
}
