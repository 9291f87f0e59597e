ghost use Rattle.wire.specs.Spelling.{IsShort};

use cl_base::{Epoch, NodeId};
use std::alloc::Global;
use std::process::Abort;
use std::test::Fail;
use wire::{Body, Message, copy_install, copy_promise, copy_ready, decode, encode};

/// Spellings, each with its kind and its bytes.
const SPELLINGS: &str = "\
Heartbeat: 1 1 0 0 0 0 0 0 0 65 0 0 0 0 0 0 0 65 1\n\
Collect: 2 1 0 0 0 0 0 0 0 65 0 0 0 3\n\
Promise: 3 2 0 0 0 0 0 0 0 129 0 0 0 0 0 0 0 65 0 0 0 3 0 0 0 1 0 0 2 0 0 0 1 97 0 0 0 2 98 99 \
    0 1 0 0 0 1 100\n\
Nack: 4 2 0 0 0 0 0 0 0 65 0 0 0 0 0 0 0 129\n\
SeizeQuorum: 5 1 0 0 0 0 0 0 0 65 0 0 0 3 1\n\
SeizeData: 6 1 0 0 0 0 0 0 0 65 0 0 0 3 16\n\
Seized: 7 2 0 0 0 0 0 0 0 65 1 0 0 0 0 0 0 0 0 0 0 2 0 0 0 0 0 0 0 1 0 0 0 0 0 0 0 2\n\
Seized: 7 2 0 0 0 0 0 0 0 65 1 2 0 0 0 0 0 0 0 129 0 0\n\
Seized: 7 2 0 0 0 0 0 0 0 65 1 3 0 0 0 0 0 0 0 0 0 0\n\
Install: 8 1 0 0 0 0 0 0 0 65 0 0 0 3 0 1 0 0 0 1 97 0 0 0 1 1 2 0 1 0 0 0 0 0 0 0 7\n\
Ready: 9 2 0 0 0 0 0 0 0 65 0 0 0 1 0 1 0 0 0 1 114 35 0 1 0 0 0 1 103 0 2 0 0 0 0 0 0 0 5 0 0 \
    0 0 0 0 0 9 0 1 0 0 0 0 0 0 0 8\n\
Start: 10 1 0 0 0 0 0 0 0 65\n\
Prepare: 11 1 0 0 0 0 0 0 0 65 0 0 0 0 0 0 0 1 0 0 0 1 97\n\
Prepared: 12 2 0 0 0 0 0 0 0 65 0 0 0 0 0 0 0 1\n\
Commit: 13 1 0 0 0 0 0 0 0 65 0 0 0 0 0 0 0 1\n\
Order: 14 1 0 0 0 0 0 0 0 65 0 0 0 0 0 0 0 4 12 0 0 0 1 114\n\
Order: 14 1 0 0 0 0 0 0 0 65 0 0 0 0 0 0 0 4 0 0 0 0 1 114\n\
Done: 15 2 0 0 0 0 0 0 0 65 0 0 0 0 0 0 0 4 2\n\
Request: 16 32 0 0 0 0 0 0 0 65 0 0 0 0 0 0 0 1 0 0 0 2 97 98\n\
Answer: 17 1 0 0 0 0 0 0 0 65 0 0 0 0 0 0 0 1 0 0 0 2 111 107\n\
Excluded: 18 1 0 0 0 0 0 0 0 65 0 0 0 0 0 0 0 129\n\
";

/// Bytes that spell nothing, each with the reason.
const NO_SPELLINGS: &str = "\
a truth value of 2: 1 1 0 0 0 0 0 0 0 65 0 0 0 0 0 0 0 65 2\n\
a byte more: 1 1 0 0 0 0 0 0 0 65 0 0 0 0 0 0 0 65 1 0\n\
a byte less: 1 1 0 0 0 0 0 0 0 65 0 0 0 0 0 0 0 65\n\
a kind of 0: 0 1 0 0 0 0 0 0 0 65\n\
a kind of 19: 19 1 0 0 0 0 0 0 0 65\n\
a sender of 0: 10 0 0 0 0 0 0 0 0 65\n\
a sender of 33: 10 33 0 0 0 0 0 0 0 65\n\
a device of 17: 5 1 0 0 0 0 0 0 0 65 0 0 0 3 17\n\
a set with device 17: 9 2 0 0 0 0 0 0 0 65 0 1 0 0 0 0 0 0\n\
two pending texts: 8 1 0 0 0 0 0 0 0 65 0 0 0 3 0 0 0 2 0 0 0 1 97 0 0 0 1 98 0 0\n\
marks of 64: 9 2 0 0 0 0 0 0 0 65 0 0 0 1 0 1 0 0 0 1 114 64 0 0\n\
three seconds: 9 2 0 0 0 0 0 0 0 65 0 0 0 1 0 0 0 1 0 0 0 1 103 0 3 0 0 0 0 0 0 0 5 0 0 0 0 0 \
    0 0 6 0 0 0 0 0 0 0 9 0 0\n\
held, with a number: 7 2 0 0 0 0 0 0 0 65 1 0 0 0 0 0 0 0 0 1 0 0\n\
greater, with a key: 7 2 0 0 0 0 0 0 0 65 1 2 0 0 0 0 0 0 0 129 0 1 0 0 0 0 0 0 0 1\n\
a method of 13: 14 1 0 0 0 0 0 0 0 65 0 0 0 0 0 0 0 4 13 0 0 0 1 114\n\
an outcome of 3: 15 2 0 0 0 0 0 0 0 65 0 0 0 0 0 0 0 4 3\n\
a count with its low byte first: 3 2 0 0 0 0 0 0 0 129 0 0 0 0 0 0 0 65 0 0 0 3 0 0 0 1 0 1 0 \
    0 0 0 1 97 0 0\n\
";

/// The bytes of a line.
fn push_all(bytes: &mut Vec<u8>, numbers: &str) -> Result<(), Fail> {
    for number in numbers.split(' ') {
        bytes.push(number.parse::<u8>()?)?;
    }
    Ok(())
}

fn bytes_of(alloc: Global, line: &str) -> Result<Vec<u8>, Fail> {
    let (_, numbers) = line.split_once(": ").ok_or("a name")?;
    let mut bytes = Vec::new(alloc);
    push_all(&mut bytes, numbers)?;
    Ok(bytes)
}

/// What is copied of a message is copied where there is memory.
fn copied(alloc: Global, m: &Message) -> Result<(), Fail> {
    copy_promise(alloc, m)?;
    copy_ready(alloc, m)?;
    if let Body::Install(install) = &m.body {
        copy_install(alloc, install)?;
    }
    Ok(())
}

fn is_spelled(alloc: Global, m: &Message, bytes: &[u8]) -> Result<bool, Fail>
    requires { IsShort m.now.body }
{
    let again = encode(alloc, m)?;
    Ok(again.as_slice() == bytes)
}

fn heartbeat(sender: NodeId) -> Message
    ensures { IsShort result.body }
{
    Message {
        sender,
        body: Body::Heartbeat {
            promised: Epoch::from_number(65),
            session: Epoch::from_number(65),
            member: true,
        },
    }
}

const HEARTBEAT: &[u8] = &[1, 1, 0, 0, 0, 0, 0, 0, 0, 65, 0, 0, 0, 0, 0, 0, 0, 65, 1];

#[test]
fn worked(rt: HostRuntime) -> Result<(), Fail> {
    let heartbeat = heartbeat(NodeId::new(1)?);
    assert!(rt; is_spelled(rt.alloc(), &heartbeat, HEARTBEAT)?);
    Ok(())
}

/// These are the bytes of the message.
fn same(rt: &impl Abort, alloc: Global, m: &Message, bytes: &[u8]) -> Result<(), Fail> {
    assert!(rt; bytes.first() == Some(&m.body.kind().byte()));
    assert!(rt; m.body.is_short());
    assert!(rt; is_spelled(alloc, m, bytes)?);
    copied(alloc, m)
}

fn decoded(alloc: Global, bytes: &[u8]) -> Result<Message, Fail> {
    match decode(alloc, bytes)? {
        Some(message) => Ok(message),
        None => Err(Fail::new("no message")),
    }
}

fn read(rt: &impl Abort, alloc: Global, bytes: &[u8]) -> Result<(), Fail> {
    let found = decoded(alloc, bytes)?;
    same(rt, alloc, &found, bytes)
}

/// The line is the spelling of a message.
fn spelled(rt: &impl Abort, alloc: Global, line: &str) -> Result<(), Fail> {
    let bytes = bytes_of(alloc, line)?;
    read(rt, alloc, &bytes)
}

fn is_none(alloc: Global, bytes: &[u8]) -> Result<bool, Fail> {
    Ok(decode(alloc, bytes)?.is_none())
}

/// The line is the spelling of no message.
fn unspelled(rt: &impl Abort, alloc: Global, line: &str) -> Result<(), Fail> {
    let bytes = bytes_of(alloc, line)?;
    assert!(rt; is_none(alloc, &bytes)?);
    Ok(())
}

/// Each line is the spelling of a message.
fn all_spelled(rt: &impl Abort, alloc: Global, lines: &str) -> Result<(), Fail> {
    for line in lines.lines() {
        spelled(rt, alloc, line)?;
    }
    Ok(())
}

/// No line is the spelling of a message.
fn none_spelled(rt: &impl Abort, alloc: Global, lines: &str) -> Result<(), Fail> {
    for line in lines.lines() {
        unspelled(rt, alloc, line)?;
    }
    Ok(())
}

#[test]
fn tables(rt: HostRuntime) -> Result<(), Fail> {
    all_spelled(&rt, rt.alloc(), SPELLINGS)?;
    none_spelled(&rt, rt.alloc(), NO_SPELLINGS)
}
