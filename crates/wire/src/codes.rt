ghost use Rattle.std.specs.Prelude.{◌≡◌, ◌≤◌};
ghost use Rattle.wire.specs.Spelling.{method_byte, outcome_byte, marks_byte, worth};
ghost use Rattle.wire.specs.Reads.{Gives, method_of, outcome_of, kind_of_byte, method_at, outcome_at, kind_at, marks_at};

use crate::reader::Reader;
use crate::report::Marks;
use crate::stop::Stop;
use cl_base::{MessageKind, Method, Outcome};

/// The byte of a method, or of a clear in its place.
pub fn method_byte(method: Option<Method>) -> u8
    ensures { result ≡ method_byte method }
{
    match method {
        None => 0,
        Some(method) => method.place(),
    }
}

/// The method, or the clear, that a byte stands for.
fn method_of(byte: u8) -> Option<Option<Method>>
    ensures { result ≡ method_of byte }
{
    match byte {
        0 => Some(None),
        1 => Some(Some(Method::PrenetStart)),
        2 => Some(Some(Method::Start)),
        3 => Some(Some(Method::MonitorStart)),
        4 => Some(Some(Method::MonitorCheck)),
        5 => Some(Some(Method::MonitorStop)),
        6 => Some(Some(Method::Stop)),
        7 => Some(Some(Method::PostnetStop)),
        8 => Some(Some(Method::Validate)),
        9 => Some(Some(Method::Init)),
        10 => Some(Some(Method::Fini)),
        11 => Some(Some(Method::Boot)),
        12 => Some(Some(Method::Update)),
        _ => None,
    }
}

/// Reads a method or a clear.
#[tactic(auto, unfolding(crate::specs::Reads::method_at))]
pub fn method(reader: &mut Reader<'_>) -> Result<Option<Method>, Stop>
    ensures { Gives result (method_at reader.old) reader.new }
{
    method_of(reader.byte()?).ok_or(Stop::NoSpelling)
}

/// The byte of an outcome.
pub fn outcome_byte(outcome: Outcome) -> u8
    ensures { result ≡ outcome_byte outcome }
{
    match outcome {
        Outcome::Success => 0,
        Outcome::Failure => 1,
        Outcome::Timeout => 2,
    }
}

/// The outcome that a byte stands for.
fn outcome_of(byte: u8) -> Option<Outcome>
    ensures { result ≡ outcome_of byte }
{
    match byte {
        0 => Some(Outcome::Success),
        1 => Some(Outcome::Failure),
        2 => Some(Outcome::Timeout),
        _ => None,
    }
}

/// Reads an outcome.
#[tactic(auto, unfolding(crate::specs::Reads::outcome_at))]
pub fn outcome(reader: &mut Reader<'_>) -> Result<Outcome, Stop>
    ensures { Gives result (outcome_at reader.old) reader.new }
{
    outcome_of(reader.byte()?).ok_or(Stop::NoSpelling)
}

/// The kind that a byte stands for.
fn kind_of(byte: u8) -> Option<MessageKind>
    ensures { result ≡ kind_of_byte byte }
{
    match byte {
        1 => Some(MessageKind::Heartbeat),
        2 => Some(MessageKind::Collect),
        3 => Some(MessageKind::Promise),
        4 => Some(MessageKind::Nack),
        5 => Some(MessageKind::SeizeQuorum),
        6 => Some(MessageKind::SeizeData),
        7 => Some(MessageKind::Seized),
        8 => Some(MessageKind::Install),
        9 => Some(MessageKind::Ready),
        10 => Some(MessageKind::Start),
        11 => Some(MessageKind::Prepare),
        12 => Some(MessageKind::Prepared),
        13 => Some(MessageKind::Commit),
        14 => Some(MessageKind::Order),
        15 => Some(MessageKind::Done),
        16 => Some(MessageKind::Request),
        17 => Some(MessageKind::Answer),
        18 => Some(MessageKind::Excluded),
        _ => None,
    }
}

/// Reads a kind.
#[tactic(auto, unfolding(crate::specs::Reads::kind_at))]
pub fn kind(reader: &mut Reader<'_>) -> Result<MessageKind, Stop>
    ensures { Gives result (kind_at reader.old) reader.new }
{
    kind_of(reader.byte()?).ok_or(Stop::NoSpelling)
}

/// The byte of flags and marks: the sum of the worths of those that are set.
pub fn marks_byte(marks: Marks) -> u8
    ensures { result ≡ marks_byte marks }
{
    worth(marks.pre, 1)
        + worth(marks.run, 2)
        + worth(marks.mon, 4)
        + worth(marks.faulted, 8)
        + worth(marks.stop_failed, 16)
        + worth(marks.monitor_failed, 32)
}

fn worth(set: bool, most: u8) -> u8
    ensures value { result ≡ worth set most }
    ensures most { result ≤ most }
{
    if set { most } else { 0 }
}

/// Reads flags and marks.
#[tactic(auto, unfolding(crate::specs::Reads::marks_at))]
pub fn marks(reader: &mut Reader<'_>) -> Result<Marks, Stop>
    ensures { Gives result (marks_at reader.old) reader.new }
{
    let byte = reader.byte()?;
    if byte >= 64 {
        return Err(Stop::NoSpelling);
    }
    Ok(Marks {
        pre: byte & 1 != 0,
        run: byte & 2 != 0,
        mon: byte & 4 != 0,
        faulted: byte & 8 != 0,
        stop_failed: byte & 16 != 0,
        monitor_failed: byte & 32 != 0,
    })
}
