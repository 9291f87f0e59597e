ghost use Rattle.std.specs.Prelude.{◌≡◌, ◌≢◌, ◌≤◌, ◌==◌, ◌∷◌, ◌&&◌, not, if◌then◌else◌, length, map, IfSome, IfOk, Err};
ghost use Rattle.std.specs.List.{list_all};
ghost use Rattle.cl_base.specs.Limits.{most_nodes};
ghost use Rattle.schedule_text.specs.Allowed.{AreNodes};
ghost use Rattle.schedule_text.specs.Headers.{ascending, nodes_in, numbers_in, in_order};
ghost use Rattle.schedule_text.specs.Words.{is_decimal, decimal_in};

use crate::kind::Kind;
use crate::number::{Numeral, decimal, is_decimal};
use cl_base::{NodeId, NodeSet};

/// Whether each word is a decimal number.
pub fn all_decimal(words: &[&[u8]]) -> bool
    ensures { result ≡ list_all (λ w. is_decimal w.now) words.now }
{
    words.iter().all(|word| is_decimal(word))
}

/// Nodes that were listed in ascending order.
#[derive(Clone, Copy)]
pub struct NodeList {
    /// The nodes.
    pub nodes: NodeSet,
    /// The greatest number among them.
    pub greatest: u64,
}

/// The nodes with these numbers, where they ascend from 1 to at most this number.
pub fn ascending(most: u64, numbers: &[&[u8]]) -> Option<NodeList>
    requires some { length numbers.now ≢ 0 }
    requires most { most ≤ most_nodes }
    ensures value { result ≡ ascending most 0 0 (map (λ w. decimal_in w.now) numbers.now) }
    ensures allowed { IfSome result (λ list. (list.greatest ≤ most) × AreNodes list.greatest list.nodes) }
{
    let mut greatest = 0;
    let mut nodes = NodeSet::empty();
    for word in numbers {
        let Some(Numeral::Within(number)) = decimal(word) else {
            return None;
        };
        if number <= greatest || number > most {
            return None;
        }
        nodes = nodes.with(NodeId::new(number).ok()?);
        greatest = number;
    }
    Some(NodeList { nodes, greatest })
}

/// The nodes of a line that has this name in front: at least one, and they ascend up to this number.
pub fn listed_nodes(name: &[u8], most: u64, words: &[&[u8]]) -> Result<NodeList, Kind>
    requires { most ≤ most_nodes }
    ensures value { result ≡ nodes_in name.now most (map (λ w. w.now) words.now) }
    ensures allowed { IfOk result (λ list. (list.greatest ≤ most) × AreNodes list.greatest list.nodes) }
{
    match words {
        [first, numbers @ ..] => named_nodes(name, most, first, numbers),
        [] => Err(Kind::Header),
    }
}

fn named_nodes(name: &[u8], most: u64, first: &[u8], numbers: &[&[u8]]) -> Result<NodeList, Kind>
    requires { most ≤ most_nodes }
    ensures value { result ≡ nodes_in name.now most (first.now ∷ map (λ w. w.now) numbers.now) }
    ensures allowed { IfOk result (λ list. (list.greatest ≤ most) × AreNodes list.greatest list.nodes) }
{
    if first == name {
        numbered_nodes(most, numbers)
    } else {
        Err(Kind::Header)
    }
}

fn numbered_nodes(most: u64, numbers: &[&[u8]]) -> Result<NodeList, Kind>
    requires { most ≤ most_nodes }
    ensures value { result ≡ (if not (length numbers.now == 0) && list_all (λ w. is_decimal w.now) numbers.now
        then in_order (ascending most 0 0 (map (λ w. decimal_in w.now) numbers.now)) else Err Kind.Header) }
    ensures allowed { IfOk result (λ list. (list.greatest ≤ most) × AreNodes list.greatest list.nodes) }
{
    if numbers.is_empty() || !all_decimal(numbers) {
        return Err(Kind::Header);
    }
    match ascending(most, numbers) {
        Some(list) => Ok(list),
        None => Err(Kind::Number),
    }
}
