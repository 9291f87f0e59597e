ghost use Rattle.std.specs.Prelude.{◌≡◌, IfOk};
ghost use Rattle.status_report.specs.CommandLines.{reply_text, asked_text};
ghost use Rattle.status_report.specs.declared.command_entry.CommandEntry.TheVariants.{Answered};

use crate::command_entry::{Answer, CommandEntry};
use crate::refusal_text::refused_text;
use crate::words::{plain, with_bytes};
use cl_base::NodeId;
use std::alloc::{AllocError, Global};

/// A command, or its answer.
pub fn command_line(alloc: Global, entry: &CommandEntry) -> Result<Vec<u8>, AllocError>
    ensures { IfOk result (λ line. line.items ≡ asked_text entry.now) }
{
    match entry {
        CommandEntry::Asked { node, number } => {
            let node = node.number();
            Ok(format!(in alloc; "asked {node} {number}")?.into_bytes())
        }
        CommandEntry::Answered {
            node,
            number,
            answer,
        } => answered_line(alloc, *node, *number, answer),
    }
}

#[tactic(auto, using(crate::proofs::Joins::joined_once))]
fn answered_line(
    alloc: Global,
    node: NodeId,
    number: u64,
    answer: &Answer,
) -> Result<Vec<u8>, AllocError>
    ensures { IfOk result (λ line. line.items ≡ asked_text (Answered node number answer.now)) }
{
    let node = node.number();
    let reply = answer_text(alloc, answer)?;
    with_bytes(
        format!(in alloc; "answer {node} {number} ")?,
        reply.as_slice(),
    )
}

/// The answer to a command in words, as they stand behind the command's number in its `answer` line.
pub fn answer_text(alloc: Global, answer: &Answer) -> Result<Vec<u8>, AllocError>
    ensures words { IfOk result (λ text. text.items ≡ reply_text answer.now) }
{
    match answer {
        Answer::Ok => plain(alloc, "ok"),
        Answer::Unknown => plain(alloc, "unknown"),
        Answer::UnknownCommand => plain(alloc, "refused unknown-command"),
        Answer::MissingOperand => plain(alloc, "refused missing-operand"),
        Answer::BadValue => plain(alloc, "refused bad-value"),
        Answer::NotMember => plain(alloc, "refused not-member"),
        Answer::Ask(node) => {
            let node = node.number();
            Ok(format!(in alloc; "refused ask {node}")?.into_bytes())
        }
        Answer::QueueFull => plain(alloc, "refused queue-full"),
        Answer::Refused(refusal) => {
            let refusal = refused_text(alloc, refusal)?;
            with_bytes(String::from_str(alloc, "refused ")?, refusal.as_slice())
        }
    }
}
