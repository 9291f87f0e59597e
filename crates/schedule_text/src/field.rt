ghost use Rattle.std.specs.Prelude.{◌≡◌, ◌≤◌, ◌<◌, ◌==◌, ◌+◌, length, map, Ok, Err, IfOk};
ghost use Rattle.cl_base.specs.Names.{IsName};
ghost use Rattle.schedule_text.specs.Allowed.{IsNode, IsDevice, AreNodes, AreWithin};
ghost use Rattle.schedule_text.specs.Fields.{rank, first_kind, both, one_of, listed, node_in, device_in, number_of, number_in, calls_in, rounds_in, second_in, client_in, port_in, named_in, with_node, nodes_from};

use crate::kind::Kind;
use crate::line::SoFar;
use crate::number::{Numeral, decimal};
use crate::version::most_nodes;
use cl_base::{DevId, Header, Name, NodeId, NodeSet};

/// The most local disk calls to the one that stops.
const MOST_CALLS: u64 = 1_000;
/// The most rounds of one line.
const MOST_ROUNDS: u64 = 100;
/// The most rounds of a schedule.
const ALL_ROUNDS: u64 = 100_000;

/// Two fields of a line, or the first kind of refusal that fits either.
pub fn both<A: Copy, B: Copy>(
    first: Result<A, Kind>,
    second: Result<B, Kind>,
) -> Result<(A, B), Kind>
    ensures { result ≡ both first second }
{
    match (first, second) {
        (Ok(a), Ok(b)) => Ok((a, b)),
        (Ok(_), Err(kind)) => Err(kind),
        (Err(kind), Ok(_)) => Err(kind),
        (Err(kind), Err(other)) => Err(first_kind(kind, other)),
    }
}

fn first_kind(kind: Kind, other: Kind) -> Kind
    ensures { result ≡ first_kind kind other }
{
    if rank(kind) <= rank(other) {
        kind
    } else {
        other
    }
}

fn rank(kind: Kind) -> u64
    ensures { result ≡ rank kind }
{
    match kind {
        Kind::Header => 0,
        Kind::Line => 1,
        Kind::NotBuilt => 2,
        Kind::Number => 3,
        Kind::Unknown => 4,
    }
}

/// What a word that is one of a few stands for.
pub fn one_of<A: Copy>(found: Option<A>) -> Result<A, Kind>
    ensures { result ≡ one_of found }
{
    match found {
        Some(value) => Ok(value),
        None => Err(Kind::Line),
    }
}

/// The number, from 1 to the most, where there are so many of them.
fn listed(most: u64, there: u64, numeral: Option<Numeral>) -> Result<u64, Kind>
    ensures value { result ≡ listed most there numeral }
    ensures range { IfOk result (λ n. (1 ≤ n) × (n ≤ most) × (n ≤ there)) }
{
    let Some(numeral) = numeral else {
        return Err(Kind::Line);
    };
    let Numeral::Within(number) = numeral else {
        return Err(Kind::Number);
    };
    if number == 0 || number > most {
        return Err(Kind::Number);
    }
    if number > there {
        return Err(Kind::Unknown);
    }
    Ok(number)
}

/// A node of the header.
#[tactic(auto, unfolding(crate::specs::Fields::node_in))]
pub fn node(header: &Header, word: &[u8]) -> Result<NodeId, Kind>
    ensures value { result ≡ node_in header.now word.now }
    ensures allowed { IfOk result (IsNode header.now) }
{
    let number = listed(most_nodes(header.version), header.nodes, decimal(word))?;
    match NodeId::new(number) {
        Ok(node) => Ok(node),
        Err(_) => Err(Kind::Number),
    }
}

/// A device of the header.
#[tactic(auto, unfolding(crate::specs::Fields::device_in))]
pub fn device(header: &Header, word: &[u8]) -> Result<DevId, Kind>
    ensures value { result ≡ device_in header.now word.now }
    ensures allowed { IfOk result (IsDevice header.now) }
{
    let number = listed(
        DevId::MOST,
        header.devices.items().len() as u64,
        decimal(word),
    )?;
    match DevId::new(number) {
        Ok(device) => Ok(device),
        Err(_) => Err(Kind::Number),
    }
}

/// Any number.
#[tactic(auto, unfolding(crate::specs::Fields::number_in))]
pub fn number(word: &[u8]) -> Result<u64, Kind>
    ensures { result ≡ number_in word.now }
{
    within(decimal(word))
}

fn within(numeral: Option<Numeral>) -> Result<u64, Kind>
    ensures { result ≡ number_of numeral }
{
    match numeral {
        Some(Numeral::Within(number)) => Ok(number),
        Some(Numeral::Beyond) => Err(Kind::Number),
        None => Err(Kind::Line),
    }
}

/// Which of the next local disk calls it is.
#[tactic(auto, unfolding(crate::specs::Fields::calls_in))]
pub fn calls(word: &[u8]) -> Result<u64, Kind>
    ensures value { result ≡ calls_in word.now }
    ensures range { IfOk result (λ n. (1 ≤ n) × (n ≤ 1000)) }
{
    let number = within(decimal(word))?;
    if number == 0 || number > MOST_CALLS {
        return Err(Kind::Number);
    }
    Ok(number)
}

/// How many rounds there are now.
#[tactic(auto, unfolding(crate::specs::Fields::rounds_in))]
pub fn rounds(so_far: SoFar, word: &[u8]) -> Result<u64, Kind>
    ensures value { result ≡ rounds_in so_far word.now }
    ensures range { IfOk result (λ n. (1 ≤ n) × (n ≤ 100) × (so_far.rounds + n ≤ 100000)) }
{
    let number = within(decimal(word))?;
    if number == 0 || number > MOST_ROUNDS || so_far.rounds > ALL_ROUNDS - number {
        return Err(Kind::Number);
    }
    Ok(number)
}

/// A second that is not before the clock's.
#[tactic(auto, unfolding(crate::specs::Fields::second_in))]
pub fn second(so_far: SoFar, word: &[u8]) -> Result<u64, Kind>
    ensures value { result ≡ second_in so_far word.now }
    ensures range { IfOk result (λ n. so_far.clock ≤ n) }
{
    let number = within(decimal(word))?;
    if number < so_far.clock {
        return Err(Kind::Number);
    }
    Ok(number)
}

/// A client's number, of 32 bits.
#[tactic(auto, unfolding(crate::specs::Fields::client_in))]
pub fn client(word: &[u8]) -> Result<u32, Kind>
    ensures { result ≡ client_in word.now }
{
    match u32::try_from(within(decimal(word))?) {
        Ok(number) => Ok(number),
        Err(_) => Err(Kind::Number),
    }
}

/// A port, of 16 bits.
#[tactic(auto, unfolding(crate::specs::Fields::port_in))]
pub fn port(word: &[u8]) -> Result<u16, Kind>
    ensures { result ≡ port_in word.now }
{
    match u16::try_from(within(decimal(word))?) {
        Ok(number) => Ok(number),
        Err(_) => Err(Kind::Number),
    }
}

/// The name of a resource or of a shared address.
pub fn named(word: &[u8]) -> Result<Name, Kind>
    ensures value { result ≡ named_in word.now }
    ensures allowed { IfOk result IsName }
{
    match Name::new(word) {
        Ok(name) => Ok(name),
        Err(_) => Err(Kind::Line),
    }
}

/// The set of these nodes of the header.
pub fn nodes(header: &Header, words: &[&[u8]]) -> Result<NodeSet, Kind>
    requires { 0 < length words.now }
    ensures value { result ≡ nodes_from header.now (Ok 0) (map (λ w. w.now) words.now) }
    ensures allowed { IfOk result (AreNodes header.now.nodes) }
{
    let mut nodes = Ok(NodeSet::empty());
    for word in words {
        nodes = with_node(header, nodes, word);
    }
    nodes
}

/// The set and one more node.
fn with_node(header: &Header, nodes: Result<NodeSet, Kind>, word: &[u8]) -> Result<NodeSet, Kind>
    requires { IfOk nodes (AreWithin header.now.nodes) }
    ensures value { result ≡ with_node nodes (node_in header.now word.now) }
    ensures allowed { IfOk result (AreNodes header.now.nodes) }
{
    let (nodes, node) = both(nodes, node(header, word))?;
    Ok(nodes.with(node))
}
