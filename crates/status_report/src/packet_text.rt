ghost use Rattle.std.specs.Prelude.{◌≡◌, IfOk};
ghost use Rattle.std.specs.String.{string_bytes};
ghost use Rattle.status_report.specs.PacketLines.{packet_text, message_text, kind_text, drop_text};
ghost use Rattle.status_report.specs.declared.packet_entry.PacketEntry.TheVariants.{Sent, Delivered};

use crate::packet_entry::PacketEntry;
use cl_base::{Bytes, DropCause, MessageKind, MessageName, NodeId};
use std::alloc::{AllocError, Global};

/// What becomes of a packet.
pub fn packet_line(alloc: Global, entry: &PacketEntry) -> Result<String, AllocError>
    ensures { IfOk result (λ text. string_bytes text ≡ packet_text entry.now) }
{
    match entry {
        PacketEntry::Sent {
            number,
            from,
            to,
            message,
            bytes,
        } => sent_line(alloc, *number, *from, *to, *message, bytes),
        PacketEntry::Delivered { number, from, to } => delivered_line(alloc, *number, *from, *to),
        PacketEntry::Lost(number) => format!(in alloc; "lost {number}"),
        PacketEntry::Repeated { number, copy } => format!(in alloc; "repeated {number} {copy}"),
        PacketEntry::Dropped { number, cause } => {
            let cause = drop_word(*cause);
            format!(in alloc; "dropped {number} {cause}")
        }
    }
}

fn sent_line(
    alloc: Global,
    number: u64,
    from: NodeId,
    to: NodeId,
    message: MessageName,
    bytes: &Bytes,
) -> Result<String, AllocError>
    ensures { IfOk result (λ text. string_bytes text ≡ packet_text (Sent number from to message bytes.now)) }
{
    let message = message_text(alloc, message)?;
    let digits = hex::encode(alloc, bytes.items())?;
    format!(in alloc; "sent {number} {from} {to} {message} {digits}")
}

fn delivered_line(
    alloc: Global,
    number: u64,
    from: NodeId,
    to: NodeId,
) -> Result<String, AllocError>
    ensures { IfOk result (λ text. string_bytes text ≡ packet_text (Delivered number from to)) }
{
    format!(in alloc; "delivered {number} {from} {to}")
}

fn message_text(alloc: Global, message: MessageName) -> Result<String, AllocError>
    ensures { IfOk result (λ text. string_bytes text ≡ message_text message) }
{
    let kind = kind_word(message.kind);
    match message.number {
        Some(number) => format!(in alloc; "{kind} {number}"),
        None => String::from_str(alloc, kind),
    }
}

/// The name of a kind of message.
pub fn kind_word(kind: MessageKind) -> &'static str
    ensures { result.now ≡ kind_text kind }
{
    match kind {
        MessageKind::Heartbeat => "Heartbeat",
        MessageKind::Collect => "Collect",
        MessageKind::Promise => "Promise",
        MessageKind::Nack => "Nack",
        MessageKind::SeizeQuorum => "SeizeQuorum",
        MessageKind::SeizeData => "SeizeData",
        MessageKind::Seized => "Seized",
        MessageKind::Install => "Install",
        MessageKind::Ready => "Ready",
        MessageKind::Start => "Start",
        MessageKind::Prepare => "Prepare",
        MessageKind::Prepared => "Prepared",
        MessageKind::Commit => "Commit",
        MessageKind::Order => "Order",
        MessageKind::Done => "Done",
        MessageKind::Request => "Request",
        MessageKind::Answer => "Answer",
        MessageKind::Excluded => "Excluded",
    }
}

fn drop_word(cause: DropCause) -> &'static str
    ensures { result.now ≡ drop_text cause }
{
    match cause {
        DropCause::Link => "link",
        DropCause::Pool => "pool",
        DropCause::Down => "down",
    }
}
