// The lines of a cluster's trace are appended to a text that is kept. The many lines of packets and ticks
// take memory only where it has no room for them.
ghost use Rattle.std.specs.Prelude.{◌≡◌, ◌++◌, ◌∷◌, [], OnOk};
ghost use Rattle.std.specs.Fmt.{decimal};
ghost use Rattle.hex.specs.Hex.{encode_lower};
ghost use Rattle.status_report.specs.Lines.{printed};
ghost use Rattle.status_report.specs.PacketLines.{message_text};
ghost use Rattle.status_report.specs.declared.entry.Entry.TheVariants as trace;
ghost use Rattle.status_report.specs.declared.node_entry.NodeEntry.TheVariants.{Ticked};
ghost use Rattle.status_report.specs.declared.packet_entry.PacketEntry.TheVariants.{Sent, Delivered};

use crate::entry::Entry;
use crate::node_entry::NodeEntry;
use crate::packet_entry::PacketEntry;
use crate::packet_text::kind_word;
use crate::printing::print;
use cl_base::{Bytes, MessageName, NodeId};
use itoa::Buffer;
use std::alloc::{AllocError, Global};

/// Appends the line of the entry, with its newline.
pub fn print_onto(alloc: Global, text: &mut Vec<u8>, entry: &Entry) -> Result<(), AllocError>
    ensures printed { OnOk result (text.new.items ≡ text.old.items ++ printed entry.now) }
{
    match entry {
        Entry::Packet(
            PacketEntry::Sent {
                number,
                from,
                to,
                message,
                bytes,
            },
        ) => print_sent(text, *number, *from, *to, *message, bytes),
        Entry::Packet(PacketEntry::Delivered { number, from, to }) => {
            print_delivered(text, *number, *from, *to)
        }
        Entry::Node {
            node,
            entry: NodeEntry::Ticked,
        } => print_ticked(text, *node),
        _ => {
            let line = print(alloc, entry)?;
            text.extend_from_slice(&line)
        }
    }
}

#[tactic(auto, using(crate::proofs::Joins::ticked))]
fn print_ticked(text: &mut Vec<u8>, node: NodeId) -> Result<(), AllocError>
    ensures { OnOk result (text.new.items ≡ text.old.items ++ printed (trace.Node node Ticked)) }
{
    text.extend_from_slice(b"ticked ".as_slice())?;
    push_number(text, node.number(), b'\n')
}

/// Appends the line of a packet that is delivered.
#[tactic(auto, using(crate::proofs::Joins::delivered))]
pub fn print_delivered(
    text: &mut Vec<u8>,
    number: u64,
    from: NodeId,
    to: NodeId,
) -> Result<(), AllocError>
    ensures printed { OnOk result (text.new.items ≡ text.old.items ++ printed (trace.Packet (Delivered number from to))) }
{
    text.extend_from_slice(b"delivered ".as_slice())?;
    push_number(text, number, b' ')?;
    push_number(text, from.number(), b' ')?;
    push_number(text, to.number(), b'\n')
}

/// Appends the line of a packet that is sent.
#[tactic(auto, using(crate::proofs::Joins::sent))]
pub fn print_sent(
    text: &mut Vec<u8>,
    number: u64,
    from: NodeId,
    to: NodeId,
    message: MessageName,
    bytes: &Bytes,
) -> Result<(), AllocError>
    ensures printed { OnOk result (text.new.items ≡ text.old.items ++ printed (trace.Packet (Sent number from to message bytes.now))) }
{
    text.extend_from_slice(b"sent ".as_slice())?;
    push_number(text, number, b' ')?;
    push_number(text, from.number(), b' ')?;
    push_number(text, to.number(), b' ')?;
    push_name(text, message)?;
    push_digits(text, bytes.items())?;
    text.push(b'\n')?;
    Ok(())
}

/// Appends the number and the byte that stands after it.
pub(crate) fn push_number(text: &mut Vec<u8>, number: u64, after: u8) -> Result<(), AllocError>
    ensures { OnOk result (text.new.items ≡ (text.old.items ++ decimal number) ++ after ∷ []) }
{
    push_decimal(text, number)?;
    text.push(after)?;
    Ok(())
}

/// Appends the number.
#[tactic(auto, using(crate::proofs::Joins::one_digit))]
fn push_decimal(text: &mut Vec<u8>, number: u64) -> Result<(), AllocError>
    ensures { OnOk result (text.new.items ≡ text.old.items ++ decimal number) }
{
    // Most numbers of nodes have one digit.
    if number < 10 {
        text.push(b'0' + number as u8)?;
        return Ok(());
    }
    let mut buffer = Buffer::new();
    text.extend_from_slice(buffer.format(number).as_bytes())
}

/// Appends the words of a message and a space.
#[tactic(auto, using(crate::proofs::Joins::numbered))]
fn push_name(text: &mut Vec<u8>, message: MessageName) -> Result<(), AllocError>
    ensures { OnOk result (text.new.items ≡ (text.old.items ++ message_text message) ++ 32 ∷ []) }
{
    text.extend_from_slice(kind_word(message.kind).as_bytes())?;
    text.push(b' ')?;
    match message.number {
        Some(told) => push_number(text, told, b' '),
        None => Ok(()),
    }
}

/// Appends the bytes as hexadecimal digits.
fn push_digits(text: &mut Vec<u8>, bytes: &[u8]) -> Result<(), AllocError>
    ensures { OnOk result (text.new.items ≡ text.old.items ++ encode_lower bytes.now) }
{
    let start = text.len();
    let digits = bytes.len().checked_mul(2);
    let Some(end) = digits.and_then(|n| n.checked_add(start)) else {
        return Err(AllocError);
    };
    text.resize(end, 0)?;
    hex::encode_to_slice(bytes, &mut text[start..]).unwrap();
    Ok(())
}
