ghost use Rattle.std.specs.Prelude.{◌≡◌, ◌<◌, ◌^◌, ◌==◌, [], ◌∷◌, map, IfOk};
ghost use Rattle.std.specs.List.{list_all, list_any, join_with_byte};
ghost use Rattle.schedule_text.specs.Allowed.{IsAllowedEvent, IsNode};
ghost use Rattle.schedule_text.specs.Answers.{Tells};
ghost use Rattle.schedule_text.specs.Events.{event_line, named_event, event_of, made, one_node, two_nodes, one_packet, crash_at, fault, write, command, outcome, call_in, probe, clock, rounds, client, asked_in, unbuilt, server, server_stop, since_two};
ghost use Rattle.schedule_text.specs.Choices.{is_ask};
ghost use Rattle.schedule_text.specs.Words.{is_word};
ghost use Rattle.schedule_text.specs.declared.event.Event.TheVariants as event;
ghost use Rattle.schedule_text.specs.declared.line.SoFar.{SoFar};
ghost use Rattle.cl_base.specs.declared.header.Header.{Header};

use crate::choice::{is_ask, is_done, is_good, outcome, stop_choice};
use crate::event::Event;
use crate::event_name::{EventName, event_name};
use crate::field::{
    both, calls, client, device, named, node, nodes, number, one_of, port, rounds, second,
};
use crate::kind::{Kind, ReadError};
use crate::line::SoFar;
use crate::method_name::method;
use crate::number::is_decimal;
use cl_base::{Bytes, Header, Method, NodeId, Outcome, Version};
use std::alloc::{AllocError, Global};

/// How a call of a method ends.
#[derive(Clone, Copy)]
pub struct CallEnd {
    method: Method,
    outcome: Outcome,
}

/// A client, and the port that it asks for.
#[derive(Clone, Copy)]
pub struct ClientPort {
    client: u32,
    port: u16,
}

/// The event that the words of a line spell, or why there is none.
pub fn event(
    alloc: Global,
    header: &Header,
    so_far: SoFar,
    words: &[&[u8]],
) -> Result<Event, ReadError>
    ensures reading { Tells result (event_line header.now so_far (map (λ w. w.now) words.now)) }
    ensures allowed { IfOk result (IsAllowedEvent header.now so_far) }
{
    match words {
        [name, fields @ ..] => spelled_event(alloc, header, so_far, event_name(name), fields),
        [] => Err(ReadError::Refused(Kind::Line)),
    }
}

fn spelled_event(
    alloc: Global,
    header: &Header,
    so_far: SoFar,
    name: Option<EventName>,
    fields: &[&[u8]],
) -> Result<Event, ReadError>
    ensures reading { Tells result (named_event header.now so_far name (map (λ w. w.now) fields.now)) }
    ensures allowed { IfOk result (IsAllowedEvent header.now so_far) }
{
    match name {
        Some(name) => named_event(alloc, header, so_far, name, fields),
        None => Err(ReadError::Refused(Kind::Line)),
    }
}

/// The event of this name and these fields.
fn named_event(
    alloc: Global,
    header: &Header,
    so_far: SoFar,
    name: EventName,
    fields: &[&[u8]],
) -> Result<Event, ReadError>
    ensures reading { Tells result (event_of header.now so_far name (map (λ w. w.now) fields.now)) }
    ensures allowed { IfOk result (IsAllowedEvent header.now so_far) }
{
    match name {
        EventName::Boot => Ok(Event::Boot(one_node(header, fields)?)),
        EventName::Crash => Ok(Event::Crash(one_node(header, fields)?)),
        EventName::CrashAt => Ok(crash_at(header, fields)?),
        EventName::Tick => Ok(Event::Tick(one_node(header, fields)?)),
        EventName::Deliver => Ok(Event::Deliver(one_packet(fields)?)),
        EventName::Lose => Ok(Event::Lose(one_packet(fields)?)),
        EventName::Repeat => Ok(Event::Repeat(one_packet(fields)?)),
        EventName::Next => Ok(next_packet(header, fields)?),
        EventName::Drop => Ok(drop_packet(header, fields)?),
        EventName::Again => Ok(again(header, fields)?),
        EventName::Disk => Ok(Event::Disk(one_node(header, fields)?)),
        EventName::Fault => Ok(fault(header, fields)?),
        EventName::Write => Ok(write(header, fields)?),
        EventName::Command => command(alloc, header, fields),
        EventName::Outcome => Ok(call_outcome(header, fields)?),
        EventName::Probe => Ok(probe(header, fields)?),
        EventName::Clock => Ok(clock(so_far, fields)?),
        EventName::Rounds => Ok(some_rounds(header, so_far, fields)?),
        EventName::Client => Ok(client_since_two(header, fields)?),
        EventName::Server => Ok(server(header.version, fields)?),
        EventName::ServerStop => Ok(server_stop(header.version, fields)?),
    }
}

/// N
fn one_node(header: &Header, fields: &[&[u8]]) -> Result<NodeId, Kind>
    ensures reading { result ≡ one_node header.now (map (λ w. w.now) fields.now) }
    ensures allowed { IfOk result (IsNode header.now) }
{
    match fields {
        [word] => node(header, word),
        _ => Err(Kind::Line),
    }
}

/// A B
fn two_nodes(header: &Header, fields: &[&[u8]]) -> Result<(NodeId, NodeId), Kind>
    ensures reading { result ≡ two_nodes header.now (map (λ w. w.now) fields.now) }
    ensures allowed { IfOk result (λ f. IsNode header.now f.0 × IsNode header.now f.1) }
{
    match fields {
        [from, to] => both(node(header, from), node(header, to)),
        _ => Err(Kind::Line),
    }
}

/// P
fn one_packet(fields: &[&[u8]]) -> Result<u64, Kind>
    ensures reading { result ≡ one_packet (map (λ w. w.now) fields.now) }
{
    match fields {
        [word] => number(word),
        _ => Err(Kind::Line),
    }
}

/// A B
fn next_packet(header: &Header, fields: &[&[u8]]) -> Result<Event, Kind>
    ensures reading { result ≡ made (λ f. event.Next f.0 f.1) (two_nodes header.now (map (λ w. w.now) fields.now)) }
    ensures allowed { (s : SoFar) → IfOk result (IsAllowedEvent header.now s) }
{
    let (from, to) = two_nodes(header, fields)?;
    Ok(Event::Next { from, to })
}

/// A B
fn drop_packet(header: &Header, fields: &[&[u8]]) -> Result<Event, Kind>
    ensures reading { result ≡ made (λ f. event.Drop f.0 f.1) (two_nodes header.now (map (λ w. w.now) fields.now)) }
    ensures allowed { (s : SoFar) → IfOk result (IsAllowedEvent header.now s) }
{
    let (from, to) = two_nodes(header, fields)?;
    Ok(Event::Drop { from, to })
}

/// A B
fn again(header: &Header, fields: &[&[u8]]) -> Result<Event, Kind>
    ensures reading { result ≡ made (λ f. event.Again f.0 f.1) (two_nodes header.now (map (λ w. w.now) fields.now)) }
    ensures allowed { (s : SoFar) → IfOk result (IsAllowedEvent header.now s) }
{
    let (from, to) = two_nodes(header, fields)?;
    Ok(Event::Again { from, to })
}

/// N K CHOICE
fn crash_at(header: &Header, fields: &[&[u8]]) -> Result<Event, Kind>
    ensures reading { result ≡ crash_at header.now (map (λ w. w.now) fields.now) }
    ensures allowed { (s : SoFar) → IfOk result (IsAllowedEvent header.now s) }
{
    let [number, count, choice] = fields else {
        return Err(Kind::Line);
    };
    let rest = both(calls(count), one_of(stop_choice(choice)));
    let (node, (calls, choice)) = both(node(header, number), rest)?;
    Ok(Event::CrashAt {
        node,
        calls,
        choice,
    })
}

/// N D `done` or `undone`
fn fault(header: &Header, fields: &[&[u8]]) -> Result<Event, Kind>
    ensures reading { result ≡ fault header.now (map (λ w. w.now) fields.now) }
    ensures allowed { (s : SoFar) → IfOk result (IsAllowedEvent header.now s) }
{
    let [number, place, done] = fields else {
        return Err(Kind::Line);
    };
    let rest = both(device(header, place), one_of(is_done(done)));
    let (node, (device, done)) = both(node(header, number), rest)?;
    Ok(Event::Fault { node, device, done })
}

/// N D V
fn write(header: &Header, fields: &[&[u8]]) -> Result<Event, Kind>
    ensures reading { result ≡ write header.now (map (λ w. w.now) fields.now) }
    ensures allowed { (s : SoFar) → IfOk result (IsAllowedEvent header.now s) }
{
    let [writer, place, value] = fields else {
        return Err(Kind::Line);
    };
    let rest = both(device(header, place), number(value));
    let (node, (device, value)) = both(node(header, writer), rest)?;
    Ok(Event::Write {
        node,
        device,
        value,
    })
}

/// N R METHOD and how it ends
fn call_outcome(header: &Header, fields: &[&[u8]]) -> Result<Event, Kind>
    ensures reading { result ≡ outcome header.now (map (λ w. w.now) fields.now) }
    ensures allowed { (s : SoFar) → IfOk result (IsAllowedEvent header.now s) }
{
    let [number, name, called, ending] = fields else {
        return Err(Kind::Line);
    };
    let rest = both(named(name), call(called, ending));
    let (node, (resource, end)) = both(node(header, number), rest)?;
    Ok(Event::Outcome {
        node,
        resource,
        method: end.method,
        outcome: end.outcome,
    })
}

/// METHOD and how it ends
#[tactic(auto, unfolding(crate::specs::Events::call_in))]
fn call(called: &[u8], ending: &[u8]) -> Result<CallEnd, Kind>
    ensures { result ≡ call_in called.now ending.now }
{
    let (method, outcome) = both(one_of(method(called)), one_of(outcome(ending)))?;
    Ok(CallEnd { method, outcome })
}

/// N R `ok` or `fail`
fn probe(header: &Header, fields: &[&[u8]]) -> Result<Event, Kind>
    ensures reading { result ≡ probe header.now (map (λ w. w.now) fields.now) }
    ensures allowed { (s : SoFar) → IfOk result (IsAllowedEvent header.now s) }
{
    let [number, name, good] = fields else {
        return Err(Kind::Line);
    };
    let rest = both(named(name), one_of(is_good(good)));
    let (node, (resource, good)) = both(node(header, number), rest)?;
    Ok(Event::Probe {
        node,
        resource,
        good,
    })
}

/// S
fn clock(so_far: SoFar, fields: &[&[u8]]) -> Result<Event, Kind>
    ensures reading { result ≡ clock so_far (map (λ w. w.now) fields.now) }
    ensures allowed { (h : Header) → IfOk result (IsAllowedEvent h so_far) }
{
    match fields {
        [word] => Ok(Event::Clock(second(so_far, word)?)),
        _ => Err(Kind::Line),
    }
}

/// K N N ..
fn some_rounds(header: &Header, so_far: SoFar, fields: &[&[u8]]) -> Result<Event, Kind>
    ensures reading { result ≡ rounds header.now so_far (map (λ w. w.now) fields.now) }
    ensures allowed { IfOk result (IsAllowedEvent header.now so_far) }
{
    match fields {
        [count, words @ ..] => counted_rounds(header, so_far, count, words),
        [] => Err(Kind::Line),
    }
}

fn counted_rounds(
    header: &Header,
    so_far: SoFar,
    count: &[u8],
    words: &[&[u8]],
) -> Result<Event, Kind>
    ensures reading { result ≡ rounds header.now so_far (count.now ∷ map (λ w. w.now) words.now) }
    ensures allowed { IfOk result (IsAllowedEvent header.now so_far) }
{
    if words.is_empty() {
        return Err(Kind::Line);
    }
    let (count, nodes) = both(rounds(so_far, count), nodes(header, words))?;
    Ok(Event::Rounds { count, nodes })
}

fn client_since_two(header: &Header, fields: &[&[u8]]) -> Result<Event, Kind>
    ensures reading { result ≡ since_two header.now.version (client header.now (map (λ w. w.now) fields.now)) }
    ensures allowed { (s : SoFar) → IfOk result (IsAllowedEvent header.now s) }
{
    match header.version {
        Version::One => Err(Kind::Line),
        Version::Two => client_request(header, fields),
    }
}

/// N A CLIENT PORT
fn client_request(header: &Header, fields: &[&[u8]]) -> Result<Event, Kind>
    requires { header.now.version ≡ Version.Two }
    ensures reading { result ≡ client header.now (map (λ w. w.now) fields.now) }
    ensures allowed { (s : SoFar) → IfOk result (IsAllowedEvent header.now s) }
{
    let [number, name, sender, wanted] = fields else {
        return Err(Kind::Line);
    };
    let rest = both(named(name), client_port(sender, wanted));
    let (node, (address, asked)) = both(node(header, number), rest)?;
    Ok(Event::Client {
        node,
        address,
        client: asked.client,
        port: asked.port,
    })
}

/// CLIENT PORT
#[tactic(auto, unfolding(crate::specs::Events::asked_in))]
fn client_port(sender: &[u8], wanted: &[u8]) -> Result<ClientPort, Kind>
    ensures value { result ≡ asked_in sender.now wanted.now }
    ensures ranges { IfOk result (λ asked. (asked.client < 2 ^ 32) × (asked.port < 2 ^ 16)) }
{
    let (client, port) = both(client(sender), port(wanted))?;
    Ok(ClientPort { client, port })
}

/// N D WORDS
fn server(version: Version, fields: &[&[u8]]) -> Result<Event, Kind>
    ensures { result ≡ since_two version (server (map (λ w. w.now) fields.now)) }
{
    match version {
        Version::One => Err(Kind::Line),
        Version::Two => server_asks(fields),
    }
}

fn server_asks(fields: &[&[u8]]) -> Result<Event, Kind>
    ensures { result ≡ server (map (λ w. w.now) fields.now) }
{
    match fields {
        [node, device, first, words @ ..] => unbuilt(
            is_decimal(node)
                && is_decimal(device)
                && is_ask(first)
                && words.len() <= 3
                && all_asks(words),
        ),
        _ => Err(Kind::Line),
    }
}

/// Whether each word says what becomes of an ask.
fn all_asks(words: &[&[u8]]) -> bool
    ensures { result ≡ list_all is_ask (map (λ w. w.now) words.now) }
{
    are_asks(words)
}

fn are_asks(words: &[&[u8]]) -> bool
    ensures { result ≡ list_all (λ w. is_ask w.now) words.now }
{
    words.iter().all(|word| is_ask(word))
}

/// D K CHOICE
fn server_stop(version: Version, fields: &[&[u8]]) -> Result<Event, Kind>
    ensures { result ≡ since_two version (server_stop (map (λ w. w.now) fields.now)) }
{
    match version {
        Version::One => Err(Kind::Line),
        Version::Two => server_stop_armed(fields),
    }
}

fn server_stop_armed(fields: &[&[u8]]) -> Result<Event, Kind>
    ensures { result ≡ server_stop (map (λ w. w.now) fields.now) }
{
    match fields {
        [device, calls, choice] => unbuilt(
            is_decimal(device) && is_decimal(calls) && stop_choice(choice).is_some(),
        ),
        _ => Err(Kind::Line),
    }
}

/// A line that has a form which is not built, or has none.
fn unbuilt(is_formed: bool) -> Result<Event, Kind>
    ensures { result ≡ unbuilt is_formed }
{
    if is_formed {
        Err(Kind::NotBuilt)
    } else {
        Err(Kind::Line)
    }
}

/// N WORDS
fn command(alloc: Global, header: &Header, fields: &[&[u8]]) -> Result<Event, ReadError>
    ensures reading { Tells result (command header.now (map (λ w. w.now) fields.now)) }
    ensures allowed { (s : SoFar) → IfOk result (IsAllowedEvent header.now s) }
{
    match fields {
        [number, first, words @ ..] => worded(alloc, header, number, first, words),
        _ => Err(ReadError::Refused(Kind::Line)),
    }
}

fn worded(
    alloc: Global,
    header: &Header,
    number: &[u8],
    first: &[u8],
    words: &[&[u8]],
) -> Result<Event, ReadError>
    ensures reading { Tells result (command header.now (number.now ∷ first.now ∷ map (λ w. w.now) words.now)) }
    ensures allowed { (s : SoFar) → IfOk result (IsAllowedEvent header.now s) }
{
    if !is_word(first) || !all_words(words) {
        return Err(ReadError::Refused(Kind::Line));
    }
    let node = node(header, number)?;
    let words = Bytes::new(joined(alloc, first, words)?);
    Ok(Event::Command { node, words })
}

/// Whether each word may stand in a command.
fn all_words(words: &[&[u8]]) -> bool
    ensures { result ≡ list_all is_word (map (λ w. w.now) words.now) }
{
    are_words(words)
}

fn are_words(words: &[&[u8]]) -> bool
    ensures { result ≡ list_all (λ w. is_word w.now) words.now }
{
    words.iter().all(|word| is_word(word))
}

fn is_word(word: &[u8]) -> bool
    ensures { result ≡ is_word word.now }
{
    !word.is_empty() && !has_newline(word)
}

fn has_newline(word: &[u8]) -> bool
    ensures { result ≡ list_any (λ b. b == 10) word.now }
{
    word.iter().any(|b| *b == b'\n')
}

/// The words with one space between two.
fn joined(alloc: Global, first: &[u8], words: &[&[u8]]) -> Result<Vec<u8>, AllocError>
    ensures { IfOk result (λ text. text.items ≡ join_with_byte 32 (first.now ∷ map (λ w. w.now) words.now)) }
{
    let mut text = Vec::new(alloc);
    text.extend_from_slice(first)?;
    for word in words {
        text.push(b' ')?;
        text.extend_from_slice(word)?;
    }
    Ok(text)
}
