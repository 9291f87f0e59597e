ghost use Rattle.std.specs.Prelude.{◌≡◌, ◌++◌, codes, IfOk, OnOk};
ghost use Rattle.std.specs.String.{string_bytes};
ghost use Rattle.status_report.specs.Words.{hex};
ghost use Rattle.status_report.specs.PrAnswers.{answer_text, keys_text, holder_text, held_text, kind_text, command_text};

use pgr_device::{PrAnswer, PrCommand, PrKind};
use std::alloc::{AllocError, Global};

/// A device's answer.
pub fn pr_answer(alloc: Global, answer: PrAnswer) -> Result<String, AllocError>
    ensures { IfOk result (λ text. string_bytes text ≡ answer_text answer) }
{
    let mut text = String::new(alloc);
    push_answer(&mut text, answer)?;
    Ok(text)
}

/// Appends a device's answer.
pub fn push_answer(text: &mut String, answer: PrAnswer) -> Result<(), AllocError>
    ensures { OnOk result (string_bytes text.new ≡ string_bytes text.old ++ answer_text answer) }
{
    match answer {
        PrAnswer::Good => text.push_str("good"),
        PrAnswer::Conflict => text.push_str("conflict"),
        PrAnswer::InvalidRelease => text.push_str("invalid-release"),
        PrAnswer::NoPath => text.push_str("no-path"),
        PrAnswer::Keys(keys) => push_keys(text, keys.keys()),
        PrAnswer::Holder(holder) => push_holder(text, holder),
        PrAnswer::Word(word) => write!(text, "word {word}"),
        PrAnswer::Value(value) => write!(text, "data {value}"),
        PrAnswer::Miscompare(word) => write!(text, "miscompare {word}"),
    }
}

pub(crate) fn push_keys(text: &mut String, keys: &[u64]) -> Result<(), AllocError>
    ensures { OnOk result (string_bytes text.new ≡ string_bytes text.old ++ keys_text keys.now) }
{
    if keys.is_empty() {
        return text.push_str("keys none");
    }
    text.push_str("keys")?;
    for key in keys {
        write!(text, " {key:x}")?;
    }
    Ok(())
}

pub(crate) fn push_holder(
    text: &mut String,
    holder: Option<(u64, PrKind)>,
) -> Result<(), AllocError>
    ensures { OnOk result (string_bytes text.new ≡ string_bytes text.old ++ holder_text holder) }
{
    match holder {
        None => text.push_str("reservation none"),
        Some((key, kind)) => push_held(text, key, kind),
    }
}

fn push_held(text: &mut String, key: u64, kind: PrKind) -> Result<(), AllocError>
    ensures { OnOk result (string_bytes text.new ≡ string_bytes text.old ++ held_text key kind) }
{
    push_holder_key(text, key)?;
    text.push_str(kind_number(kind))?;
    Ok(())
}

/// What stands before the type.
fn push_holder_key(text: &mut String, key: u64) -> Result<(), AllocError>
    ensures { OnOk result (string_bytes text.new ≡ string_bytes text.old ++ (codes "reservation " ++ (hex key ++ codes " "))) }
{
    write!(text, "reservation {key:x} ")?;
    Ok(())
}

/// The number of the type, as text.
fn kind_number(kind: PrKind) -> &'static str
    ensures { result.now ≡ kind_text kind }
{
    match kind {
        PrKind::WriteExclusive => "1",
        PrKind::ExclusiveAccess => "3",
        PrKind::WriteExclusiveRegistrantsOnly => "5",
        PrKind::ExclusiveAccessRegistrantsOnly => "6",
    }
}

/// A command, as a schedule gives it, without its sender.
pub fn pr_command(alloc: Global, command: PrCommand) -> Result<String, AllocError>
    ensures { IfOk result (λ text. string_bytes text ≡ command_text command) }
{
    match command {
        PrCommand::Register { key, new } => format!(in alloc; "register {key:x} {new:x}"),
        PrCommand::Ignore { new } => format!(in alloc; "ignore {new:x}"),
        PrCommand::Reserve { kind, key } => {
            let kind = kind_number(kind);
            format!(in alloc; "reserve {kind} {key:x}")
        }
        PrCommand::Release { kind, key } => {
            let kind = kind_number(kind);
            format!(in alloc; "release {kind} {key:x}")
        }
        PrCommand::Clear { key } => format!(in alloc; "clear {key:x}"),
        PrCommand::Preempt { kind, key, victim } => {
            let kind = kind_number(kind);
            format!(in alloc; "preempt {kind} {key:x} {victim:x}")
        }
        PrCommand::Keys => String::from_str(alloc, "keys"),
        PrCommand::Holder => String::from_str(alloc, "holder"),
        PrCommand::Read => String::from_str(alloc, "read"),
        PrCommand::Write { value } => format!(in alloc; "write {value}"),
        PrCommand::Word => String::from_str(alloc, "word"),
        PrCommand::Swap { expect, new } => format!(in alloc; "swap {expect} {new}"),
    }
}
