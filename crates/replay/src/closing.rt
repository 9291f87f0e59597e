ghost use Rattle.std.specs.Prelude.{◌≡◌, ◌++◌, IfOk, OnOk};
ghost use Rattle.std.specs.String.{string_bytes};
ghost use Rattle.interpreter.specs.Outcomes.{closing, kind_text, Refused};
ghost use Rattle.interpreter.specs.Readers.{ending_of};

use interpreter::{Stop, Task};
use schedule_text::Kind;
use std::alloc::{AllocError, Global};

/// Appends the closing line, where the stop has one; `lines` is how many were read.
pub fn push_closing(
    alloc: Global,
    task: Task,
    stop: Stop,
    lines: u64,
    text: &mut Vec<u8>,
) -> Result<(), AllocError>
    ensures { OnOk result (text.new.items ≡ text.old.items ++ closing task (ending_of stop lines)) }
{
    let line = closing_line(alloc, task, stop, lines)?;
    text.extend_from_slice(line.as_bytes())?;
    Ok(())
}

fn closing_line(alloc: Global, task: Task, stop: Stop, lines: u64) -> Result<String, AllocError>
    ensures { IfOk result (λ text. string_bytes text ≡ closing task (ending_of stop lines)) }
{
    match stop {
        Stop::Ended => match task {
            Task::Check => format!(in alloc; "checked {lines}\n"),
            Task::Run => Ok(String::new(alloc)),
        },
        Stop::Refused(kind) => refused_line(alloc, lines, kind),
        Stop::TooLarge => format!(in alloc; "too-large {lines}\n"),
        Stop::NoMemory => Ok(String::new(alloc)),
    }
}

fn refused_line(alloc: Global, line: u64, kind: Kind) -> Result<String, AllocError>
    ensures { IfOk result (λ text. string_bytes text ≡ closing Task.Run (Refused line kind)) }
{
    let mut text = format!(in alloc; "refused {line} ")?;
    text.push_str(kind_word(kind))?;
    text.push('\n')?;
    Ok(text)
}

fn kind_word(kind: Kind) -> &'static str
    ensures { result.now ≡ kind_text kind }
{
    match kind {
        Kind::Header => "header",
        Kind::Line => "line",
        Kind::NotBuilt => "not-built",
        Kind::Number => "number",
        Kind::Unknown => "unknown",
    }
}
