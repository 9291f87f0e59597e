// Numbers and sets of numbers as a record's table has them.
ghost use Rattle.std.specs.Prelude.{◌≡◌, ◌≤◌, ◌<◌, ◌^◌, ◌==◌, ◌||◌, ℕ, IfOk, Some, if◌then◌else◌};
ghost use Rattle.std.specs.Fmt.{decimal};
ghost use Rattle.cl_base.specs.Sets.{has};
ghost use Rattle.cl_base.specs.Numbers.{set_text};
ghost use Rattle.cmm_member.specs.Lists.{is_listed};

use cl_base::{DevId, DevSet, NodeId, NodeSet};
use itoa::Buffer;
use std::alloc::{AllocError, Global};

/// The number in decimal digits.
pub fn number_text(alloc: Global, number: u64) -> Result<Vec<u8>, AllocError>
    ensures { IfOk result (λ text. text.items ≡ decimal number) }
{
    let mut buffer = Buffer::new();
    buffer.format(number).as_bytes().to_vec(alloc)
}

/// The nodes by commas, or `none`.
pub fn node_list(alloc: Global, nodes: NodeSet) -> Result<Vec<u8>, AllocError>
    ensures text { IfOk result (λ text. text.items ≡ set_text nodes) }
    ensures width { nodes < 2 ^ 32 }
{
    let _bits = nodes.bits();
    Ok(nodes.text(alloc)?.into_bytes())
}

/// The devices by commas, or `none`.
pub fn device_list(alloc: Global, devices: DevSet) -> Result<Vec<u8>, AllocError>
    ensures text { IfOk result (λ text. text.items ≡ set_text devices) }
    ensures width { devices < 2 ^ 16 }
{
    let _bits = devices.bits();
    Ok(devices.text(alloc)?.into_bytes())
}

/// The number that the digits spell, if they are such.
pub fn number_of(digits: &[u8]) -> Option<u64>
    ensures { (n : ℕ) → n < 2 ^ 64 → digits.now ≡ decimal n → result ≡ Some n }
{
    let Ok(text) = str::from_utf8(digits) else {
        return None;
    };
    match text.parse::<u64>() {
        Ok(number) => Some(number),
        Err(_) => None,
    }
}

/// The nodes that the text lists.
pub fn nodes_of(text: &[u8]) -> NodeSet
    ensures { (set : ℕ) → set < 2 ^ 32 → text.now ≡ set_text set → result ≡ set }
{
    let mut nodes = NodeSet::empty();
    for n in 1..33 {
        nodes = with_node(nodes, text, n);
    }
    NodeSet::from_bits(nodes.bits())
}

// The nodes, and this one if the text lists it.
fn with_node(nodes: NodeSet, text: &[u8], n: u64) -> NodeSet
    requires low { 1 ≤ n }
    requires high { n ≤ 32 }
    ensures { (m : ℕ) → has result m ≡ (if is_listed text.now n then (m == n) || has nodes m else has nodes m) }
{
    match NodeId::new(n) {
        Ok(node) if is_listed(text, n) => nodes.with(node),
        _ => nodes,
    }
}

/// The devices that the text lists.
pub fn devices_of(text: &[u8]) -> DevSet
    ensures { (set : ℕ) → set < 2 ^ 16 → text.now ≡ set_text set → result ≡ set }
{
    let mut devices = DevSet::empty();
    for n in 1..17 {
        devices = with_device(devices, text, n);
    }
    DevSet::from_bits(devices.bits())
}

// The devices, and this one if the text lists it.
fn with_device(devices: DevSet, text: &[u8], n: u64) -> DevSet
    requires low { 1 ≤ n }
    requires high { n ≤ 16 }
    ensures { (m : ℕ) → has result m ≡ (if is_listed text.now n then (m == n) || has devices m else has devices m) }
{
    match DevId::new(n) {
        Ok(device) if is_listed(text, n) => devices.with(device),
        _ => devices,
    }
}

// Whether the number is one of those that stand between commas.
fn is_listed(text: &[u8], number: u64) -> bool
    ensures { result ≡ is_listed text.now number }
{
    let mut buffer = Buffer::new();
    let digits = buffer.format(number).as_bytes();
    text.split(|b| *b == b',').any(|word| word == digits)
}
