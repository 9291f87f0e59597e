ghost use Rattle.std.specs.Prelude.{◌≡◌, IfOk};
ghost use Rattle.status_report.specs.Lines.{printed, entry_text};

use crate::address_text::address_line;
use crate::attempt_text::attempt_line;
use crate::call_text::call_line;
use crate::device_text::device_line;
use crate::entry::Entry;
use crate::node_text::node_line;
use crate::packet_text::packet_line;
use crate::pr_text::pr_answer;
use crate::reply_text::command_line;
use crate::schedule_text::schedule_line;
use crate::start_text::start_line;
use crate::status_text::status_line;
use crate::update_text::update_line;
use crate::words::plain;
use std::alloc::{AllocError, Global};

/// The line of the entry, with its newline.
pub fn print(alloc: Global, entry: &Entry) -> Result<Vec<u8>, AllocError>
    ensures printed { IfOk result (λ text. text.items ≡ printed entry.now) }
{
    let mut text = line(alloc, entry)?;
    text.push(b'\n')?;
    Ok(text)
}

fn line(alloc: Global, entry: &Entry) -> Result<Vec<u8>, AllocError>
    ensures { IfOk result (λ text. text.items ≡ entry_text entry.now) }
{
    match entry {
        Entry::Answered(answer) => Ok(pr_answer(alloc, *answer)?.into_bytes()),
        Entry::Powered => plain(alloc, "powered"),
        Entry::Node { node, entry } => node_line(alloc, *node, *entry),
        Entry::Packet(entry) => Ok(packet_line(alloc, entry)?.into_bytes()),
        Entry::Device(entry) => Ok(device_line(alloc, *entry)?.into_bytes()),
        Entry::Attempt(entry) => Ok(attempt_line(alloc, entry)?.into_bytes()),
        Entry::Start(entry) => start_line(alloc, entry),
        Entry::Update(entry) => update_line(alloc, entry),
        Entry::Call(entry) => call_line(alloc, entry),
        Entry::Command(entry) => command_line(alloc, entry),
        Entry::Status(entry) => status_line(alloc, entry),
        Entry::Address(entry) => address_line(alloc, entry),
        Entry::Schedule(entry) => Ok(schedule_line(alloc, *entry)?.into_bytes()),
    }
}
