// Printing, where there is memory; what each entry prints as stands in the law on examples.
ghost use Rattle.pgr_device.specs.Allowed.{IsAllowed};

use cl_base::{Bytes, Epoch, MessageKind, MessageName, Name, NodeId, NodeSet};
use pgr_device::{Pgr, PrCommand, PrKind};
use status_report::{
    AddressEntry, AttemptEntry, Entry, PacketEntry, print, print_onto, print_powered, print_reply,
};
use std::alloc::Global;
use std::process::Abort;
use std::test::Fail;

fn prints_alone(alloc: Global, entry: &Entry, line: &[u8]) -> Result<bool, Fail> {
    let text = print(alloc, entry)?;
    Ok(text.as_slice() == line)
}

fn is_line_behind(text: &[u8], line: &[u8]) -> bool {
    match text {
        [b'u', b'p', b' ', b'1', b'\n', rest @ ..] => rest == line,
        _ => false,
    }
}

fn prints_behind(alloc: Global, entry: &Entry, line: &[u8]) -> Result<bool, Fail> {
    let mut text = Vec::from_slice(alloc, b"up 1\n".as_slice())?;
    print_onto(alloc, &mut text, entry)?;
    Ok(is_line_behind(text.as_slice(), line))
}

fn expect_line(rt: &impl Abort, alloc: Global, entry: &Entry, line: &[u8]) -> Result<(), Fail> {
    assert!(rt; prints_alone(alloc, entry, line)?);
    assert!(rt; prints_behind(alloc, entry, line)?);
    Ok(())
}

/// The entry prints as this line, alone and behind another line.
fn expect(rt: &impl Abort, alloc: Global, entry: Entry, line: &[u8]) -> Result<(), Fail> {
    expect_line(rt, alloc, &entry, line)
}

fn sent(alloc: Global, one: NodeId) -> Result<Entry, Fail> {
    let bytes = Bytes::new(Vec::from_slice(alloc, [1, 171].as_slice())?);
    let message = MessageName {
        kind: MessageKind::Seized,
        number: Some(3),
    };
    Ok(Entry::Packet(PacketEntry::Sent {
        number: 7,
        from: one,
        to: one,
        message,
        bytes,
    }))
}

fn begun(one: NodeId) -> Entry {
    Entry::Attempt(AttemptEntry::Begun {
        epoch: Epoch::from_number(65),
        members: NodeSet::empty().with(one),
    })
}

fn served(one: NodeId) -> Result<Entry, Fail> {
    Ok(Entry::Address(AddressEntry::Served {
        address: Name::new(b"web")?,
        client: 10,
        port: 80,
        node: Some(one),
    }))
}

#[test]
fn entries(rt: HostRuntime) -> Result<(), Fail> {
    let (alloc, one) = (rt.alloc(), NodeId::new(1)?);
    expect(&rt, alloc, sent(alloc, one)?, b"sent 7 1 1 Seized 3 01ab\n")?;
    expect(&rt, alloc, begun(one), b"attempt 65 1\n")?;
    expect(&rt, alloc, served(one)?, b"served web 10 80 1\n")
}

/// A device, and what it has answered.
#[derive(Drop)]
struct Answered {
    device: Pgr,
    text: Vec<u8>,
    words: String,
}

impl Answered {
    fn send(&mut self, sender: NodeId, command: PrCommand) -> Result<(), Fail>
        requires { IsAllowed command }
    {
        let reply = self.device.reply(sender, command);
        Ok(print_reply(&mut self.text, &mut self.words, &self.device, reply)?)
    }
}

fn replies(alloc: Global) -> Result<Answered, Fail> {
    let (one, two) = (NodeId::new(1)?, NodeId::new(2)?);
    let kind = PrKind::ExclusiveAccess;
    let mut answered = Answered {
        device: Pgr::new(NodeSet::empty().with(one).with(two)),
        text: Vec::new(alloc),
        words: String::new(alloc),
    };
    answered.send(one, PrCommand::Keys)?;
    answered.send(one, PrCommand::Register { key: 0, new: 161 })?;
    answered.send(two, PrCommand::Register { key: 0, new: 178 })?;
    answered.send(one, PrCommand::Reserve { kind, key: 161 })?;
    answered.send(two, PrCommand::Keys)?;
    answered.send(two, PrCommand::Holder)?;
    answered.send(two, PrCommand::Read)?;
    answered.send(one, PrCommand::Word)?;
    print_powered(&mut answered.text)?;
    Ok(answered)
}

#[test]
fn answers_in_a_kept_text(rt: HostRuntime) -> Result<(), Fail> {
    let answered = replies(rt.alloc())?;
    let lines =
        b"keys none\ngood\ngood\ngood\nkeys a1 b2\nreservation a1 3\nconflict\nword 0\npowered\n";
    assert!(&rt; answered.text.as_slice() == lines.as_slice());
    Ok(())
}
