ghost use Rattle.std.specs.Prelude.{◌≡◌, IfOk};
ghost use Rattle.std.specs.String.{string_bytes};
ghost use Rattle.status_report.specs.DeviceLines.{device_text, given_text, write_refusal_text};
ghost use Rattle.status_report.specs.declared.device_entry.DeviceEntry.TheVariants.{Command, Accepted, Refused};

use crate::device_entry::{DeviceAnswer, DeviceEntry, WriteRefusal};
use crate::pr_text::{pr_answer, pr_command};
use cl_base::{DevId, Epoch, NodeId};
use pgr_device::PrCommand;
use std::alloc::{AllocError, Global};

/// What a node does at a device.
pub fn device_line(alloc: Global, entry: DeviceEntry) -> Result<String, AllocError>
    ensures { IfOk result (λ text. string_bytes text ≡ device_text entry) }
{
    match entry {
        DeviceEntry::Command {
            node,
            device,
            command,
            answer,
        } => command_line(alloc, node, device, command, answer),
        DeviceEntry::Accepted {
            epoch,
            node,
            device,
            value,
        } => accepted_line(alloc, epoch, node, device, value),
        DeviceEntry::Refused {
            node,
            device,
            value,
            cause,
        } => refused_line(alloc, node, device, value, cause),
    }
}

fn command_line(
    alloc: Global,
    node: NodeId,
    device: DevId,
    command: PrCommand,
    answer: DeviceAnswer,
) -> Result<String, AllocError>
    ensures { IfOk result (λ text. string_bytes text ≡ device_text (Command node device command answer)) }
{
    let node = node.number();
    let device = device.number();
    let command = pr_command(alloc, command)?;
    let answer = given_text(alloc, answer)?;
    format!(in alloc; "device {node} {device} {command} = {answer}")
}

fn given_text(alloc: Global, answer: DeviceAnswer) -> Result<String, AllocError>
    ensures { IfOk result (λ text. string_bytes text ≡ given_text answer) }
{
    match answer {
        DeviceAnswer::Given(answer) => pr_answer(alloc, answer),
        DeviceAnswer::Failed => String::from_str(alloc, "failed"),
    }
}

#[tactic(auto, using(crate::proofs::Joins::joined_once))]
fn accepted_line(
    alloc: Global,
    epoch: Epoch,
    node: NodeId,
    device: DevId,
    value: u64,
) -> Result<String, AllocError>
    ensures { IfOk result (λ text. string_bytes text ≡ device_text (Accepted epoch node device value)) }
{
    let epoch = epoch.number();
    let node = node.number();
    let device = device.number();
    let mut text = format!(in alloc; "write {epoch} {node} {device} {value}")?;
    text.push_str(" accepted")?;
    Ok(text)
}

fn refused_line(
    alloc: Global,
    node: NodeId,
    device: DevId,
    value: u64,
    cause: WriteRefusal,
) -> Result<String, AllocError>
    ensures { IfOk result (λ text. string_bytes text ≡ device_text (Refused node device value cause)) }
{
    let node = node.number();
    let device = device.number();
    let cause = refusal_word(cause);
    format!(in alloc; "write {node} {device} {value} refused {cause}")
}

fn refusal_word(cause: WriteRefusal) -> &'static str
    ensures { result.now ≡ write_refusal_text cause }
{
    match cause {
        WriteRefusal::NotMember => "not-member",
        WriteRefusal::NoPath => "no-path",
        WriteRefusal::NotHeld => "not-held",
        WriteRefusal::Fenced => "fenced",
        WriteRefusal::Fault => "fault",
    }
}
