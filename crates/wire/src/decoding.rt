ghost use Rattle.std.specs.Prelude.{◌≡◌, ◌≢◌, MatchOption, IfOk};
ghost use Rattle.wire.specs.Spelling.{spelling, Fits};
ghost use Rattle.wire.specs.Reads.{Gives, heartbeat_at, collect_at, promise_at, nack_at, seize_quorum_at, seize_data_at, seized_at, seized_of, seized_result_at, install_at, ready_at, report_at, start_at, prepare_at, prepared_at, commit_at, order_at, done_at, request_at, answer_at, excluded_at, body_at, message_at, whole_of};

use crate::codes::{kind, method, outcome};
use crate::item::{at_most_one, list};
use crate::lists::{Keys, Readings, Texts};
use crate::message::{Body, Install, Message, Order, SeizedResult};
use crate::reader::Reader;
use crate::report::{GroupReports, Report, ResourceReports};
use crate::stop::Stop;
use cl_base::MessageKind;
use std::alloc::{AllocError, Global};

#[tactic(auto, unfolding(crate::specs::Reads::heartbeat_at))]
fn heartbeat(reader: &mut Reader<'_>) -> Result<Body, Stop>
    ensures { Gives result (heartbeat_at reader.old) reader.new }
{
    Ok(Body::Heartbeat {
        promised: reader.epoch()?,
        session: reader.epoch()?,
        member: reader.truth()?,
    })
}

#[tactic(auto, unfolding(crate::specs::Reads::collect_at))]
fn collect(reader: &mut Reader<'_>) -> Result<Body, Stop>
    ensures { Gives result (collect_at reader.old) reader.new }
{
    Ok(Body::Collect {
        epoch: reader.epoch()?,
        members: reader.nodes()?,
    })
}

#[tactic(auto, unfolding(crate::specs::Reads::promise_at))]
fn promise(alloc: Global, reader: &mut Reader<'_>) -> Result<Body, Stop>
    ensures { Gives result (promise_at reader.old) reader.new }
{
    Ok(Body::Promise {
        epoch: reader.epoch()?,
        installed: reader.epoch()?,
        members: reader.nodes()?,
        valid: reader.devices()?,
        flagged: reader.truth()?,
        committed: Texts::new(list(alloc, reader)?),
        pending: at_most_one(alloc, reader)?,
    })
}

#[tactic(auto, unfolding(crate::specs::Reads::nack_at))]
fn nack(reader: &mut Reader<'_>) -> Result<Body, Stop>
    ensures { Gives result (nack_at reader.old) reader.new }
{
    Ok(Body::Nack {
        epoch: reader.epoch()?,
        promised: reader.epoch()?,
    })
}

#[tactic(auto, unfolding(crate::specs::Reads::seize_quorum_at))]
fn seize_quorum(reader: &mut Reader<'_>) -> Result<Body, Stop>
    ensures { Gives result (seize_quorum_at reader.old) reader.new }
{
    Ok(Body::SeizeQuorum {
        epoch: reader.epoch()?,
        members: reader.nodes()?,
        device: reader.device()?,
    })
}

#[tactic(auto, unfolding(crate::specs::Reads::seize_data_at))]
fn seize_data(reader: &mut Reader<'_>) -> Result<Body, Stop>
    ensures { Gives result (seize_data_at reader.old) reader.new }
{
    Ok(Body::SeizeData {
        epoch: reader.epoch()?,
        members: reader.nodes()?,
        device: reader.device()?,
    })
}

/// The result of this code, number and keys.
fn seized_of(code: u8, number: u64, keys: Keys) -> Option<SeizedResult>
    ensures { result ≡ seized_of code number keys }
{
    let is_empty = keys.items().is_empty();
    match code {
        0 if number == 0 => Some(SeizedResult::Held(keys)),
        1 if number == 0 => Some(SeizedResult::NotRegistered(keys)),
        2 if is_empty => Some(SeizedResult::Greater(number)),
        3 if number == 0 && is_empty => Some(SeizedResult::Expelled),
        4 if is_empty => Some(SeizedResult::Contended(number)),
        5 if number == 0 && is_empty => Some(SeizedResult::Fault),
        _ => None,
    }
}

#[tactic(auto, unfolding(crate::specs::Reads::seized_result_at))]
fn seized_result(alloc: Global, reader: &mut Reader<'_>) -> Result<SeizedResult, Stop>
    ensures { Gives result (seized_result_at reader.old) reader.new }
{
    let code = reader.byte()?;
    let number = reader.number()?;
    let keys = Keys::new(list(alloc, reader)?);
    seized_of(code, number, keys).ok_or(Stop::NoSpelling)
}

#[tactic(auto, unfolding(crate::specs::Reads::seized_at))]
fn seized(alloc: Global, reader: &mut Reader<'_>) -> Result<Body, Stop>
    ensures { Gives result (seized_at reader.old) reader.new }
{
    Ok(Body::Seized {
        epoch: reader.epoch()?,
        device: reader.device()?,
        outcome: seized_result(alloc, reader)?,
    })
}

#[tactic(auto, unfolding(crate::specs::Reads::install_at))]
fn install(alloc: Global, reader: &mut Reader<'_>) -> Result<Body, Stop>
    ensures { Gives result (install_at reader.old) reader.new }
{
    Ok(Body::Install(Install {
        epoch: reader.epoch()?,
        members: reader.nodes()?,
        committed: Texts::new(list(alloc, reader)?),
        pending: at_most_one(alloc, reader)?,
        readings: Readings::new(list(alloc, reader)?),
    }))
}

#[tactic(auto, unfolding(crate::specs::Reads::report_at))]
fn report(alloc: Global, reader: &mut Reader<'_>) -> Result<Report, Stop>
    ensures { Gives result (report_at reader.old) reader.new }
{
    Ok(Report {
        resources: ResourceReports::new(list(alloc, reader)?),
        groups: GroupReports::new(list(alloc, reader)?),
    })
}

#[tactic(auto, unfolding(crate::specs::Reads::ready_at))]
fn ready(alloc: Global, reader: &mut Reader<'_>) -> Result<Body, Stop>
    ensures { Gives result (ready_at reader.old) reader.new }
{
    Ok(Body::Ready {
        epoch: reader.epoch()?,
        joined: reader.devices()?,
        report: report(alloc, reader)?,
    })
}

#[tactic(auto, unfolding(crate::specs::Reads::start_at))]
fn start(reader: &mut Reader<'_>) -> Result<Body, Stop>
    ensures { Gives result (start_at reader.old) reader.new }
{
    Ok(Body::Start {
        epoch: reader.epoch()?,
    })
}

#[tactic(auto, unfolding(crate::specs::Reads::prepare_at))]
fn prepare(alloc: Global, reader: &mut Reader<'_>) -> Result<Body, Stop>
    ensures { Gives result (prepare_at reader.old) reader.new }
{
    Ok(Body::Prepare {
        epoch: reader.epoch()?,
        place: reader.number()?,
        text: reader.text(alloc)?,
    })
}

#[tactic(auto, unfolding(crate::specs::Reads::prepared_at))]
fn prepared(reader: &mut Reader<'_>) -> Result<Body, Stop>
    ensures { Gives result (prepared_at reader.old) reader.new }
{
    Ok(Body::Prepared {
        epoch: reader.epoch()?,
        place: reader.number()?,
    })
}

#[tactic(auto, unfolding(crate::specs::Reads::commit_at))]
fn commit(reader: &mut Reader<'_>) -> Result<Body, Stop>
    ensures { Gives result (commit_at reader.old) reader.new }
{
    Ok(Body::Commit {
        epoch: reader.epoch()?,
        place: reader.number()?,
    })
}

#[tactic(auto, unfolding(crate::specs::Reads::order_at))]
fn order(alloc: Global, reader: &mut Reader<'_>) -> Result<Body, Stop>
    ensures { Gives result (order_at reader.old) reader.new }
{
    Ok(Body::Order(Order {
        epoch: reader.epoch()?,
        number: reader.number()?,
        method: method(reader)?,
        resource: reader.text(alloc)?,
    }))
}

#[tactic(auto, unfolding(crate::specs::Reads::done_at))]
fn done(reader: &mut Reader<'_>) -> Result<Body, Stop>
    ensures { Gives result (done_at reader.old) reader.new }
{
    Ok(Body::Done {
        epoch: reader.epoch()?,
        number: reader.number()?,
        outcome: outcome(reader)?,
    })
}

#[tactic(auto, unfolding(crate::specs::Reads::request_at))]
fn request(alloc: Global, reader: &mut Reader<'_>) -> Result<Body, Stop>
    ensures { Gives result (request_at reader.old) reader.new }
{
    Ok(Body::Request {
        epoch: reader.epoch()?,
        number: reader.number()?,
        text: reader.text(alloc)?,
    })
}

#[tactic(auto, unfolding(crate::specs::Reads::answer_at))]
fn answer(alloc: Global, reader: &mut Reader<'_>) -> Result<Body, Stop>
    ensures { Gives result (answer_at reader.old) reader.new }
{
    Ok(Body::Answer {
        epoch: reader.epoch()?,
        number: reader.number()?,
        text: reader.text(alloc)?,
    })
}

#[tactic(auto, unfolding(crate::specs::Reads::excluded_at))]
fn excluded(reader: &mut Reader<'_>) -> Result<Body, Stop>
    ensures { Gives result (excluded_at reader.old) reader.new }
{
    Ok(Body::Excluded {
        epoch: reader.epoch()?,
        newest: reader.epoch()?,
    })
}

/// Reads the fields of a kind.
#[tactic(auto, unfolding(crate::specs::Reads::body_at))]
fn body(alloc: Global, kind: MessageKind, reader: &mut Reader<'_>) -> Result<Body, Stop>
    ensures { Gives result (body_at kind reader.old) reader.new }
{
    match kind {
        MessageKind::Heartbeat => heartbeat(reader),
        MessageKind::Collect => collect(reader),
        MessageKind::Promise => promise(alloc, reader),
        MessageKind::Nack => nack(reader),
        MessageKind::SeizeQuorum => seize_quorum(reader),
        MessageKind::SeizeData => seize_data(reader),
        MessageKind::Seized => seized(alloc, reader),
        MessageKind::Install => install(alloc, reader),
        MessageKind::Ready => ready(alloc, reader),
        MessageKind::Start => start(reader),
        MessageKind::Prepare => prepare(alloc, reader),
        MessageKind::Prepared => prepared(reader),
        MessageKind::Commit => commit(reader),
        MessageKind::Order => order(alloc, reader),
        MessageKind::Done => done(reader),
        MessageKind::Request => request(alloc, reader),
        MessageKind::Answer => answer(alloc, reader),
        MessageKind::Excluded => excluded(reader),
    }
}

#[tactic(auto, unfolding(crate::specs::Reads::message_at))]
fn message(alloc: Global, reader: &mut Reader<'_>) -> Result<Message, Stop>
    ensures { Gives result (message_at reader.old) reader.new }
{
    let kind = kind(reader)?;
    let sender = reader.node()?;
    let body = body(alloc, kind, reader)?;
    Ok(Message { sender, body })
}

/// The message that all of the bytes spell.
#[tactic(auto, unfolding(crate::specs::Reads::whole_of))]
fn whole(alloc: Global, bytes: &[u8]) -> Result<Option<Message>, AllocError>
    ensures { IfOk result (λ found. found ≡ whole_of bytes.now) }
{
    let mut reader = Reader::new(bytes);
    match message(alloc, &mut reader) {
        Ok(message) if reader.is_done() => Ok(Some(message)),
        Ok(_) | Err(Stop::NoSpelling) => Ok(None),
        Err(Stop::NoMemory) => Err(AllocError),
    }
}

/// The message that the bytes spell, and None where they spell none. `AllocError` where the memory
/// does not suffice for the message.
pub fn decode(alloc: Global, bytes: &[u8]) -> Result<Option<Message>, AllocError>
    ensures whole { IfOk result (λ found. found ≡ whole_of bytes.now) }
    // The message that is found is spelled so; where none is, none is spelled so.
    ensures found { IfOk result (λ found. MatchOption found ((m : Message) → Fits m → bytes.now ≢ spelling m) (λ m. Fits m × (bytes.now ≡ spelling m))) }
{
    whole(alloc, bytes)
}
