// An administrator's command, and the node's requests for the president.
ghost use Rattle.std.specs.Prelude.{◌≡◌, ◌++◌, ◌&&◌, true, IfOk, OnOk, Some};
ghost use Rattle.admin_words.specs.Commands.{command_of};
ghost use Rattle.answer_words.specs.Answers.{answer_in};
ghost use Rattle.node_model.specs.Plans.{Follows};
ghost use Rattle.node_model.specs.Requests.{asking, asking_if, commanded, is_idle, numbered, on_command, on_reply, queued, replied_as};
ghost use Rattle.node_model.specs.Seats.{is_in, is_member, version_of};
ghost use Rattle.node_updates.specs.Commands.{asked_line, obeyed, read_as, request_text};
ghost use Rattle.node_updates.specs.Replies.{heard};
ghost use Rattle.request_queue.specs.Queue.{next_number, oldest};
ghost use Rattle.std.specs.Option.{is_some, option_map};
ghost use Rattle.node_model.specs.Presidents.{own_arrival};

use crate::again::send_request;
use crate::queries::query;
use admin_words::parse;
use answer_words::parse_answer;
use ccr_tables::AdminCommand;
use cl_base::{Bytes, Epoch, NodeId};
use node_model::{Cluster, Output, Seat, Stop, UpNode, give, hand_over};
use node_presidents::{arrive, copied, is_member_in, tell_own, word_answer};
use node_queries::reply;
use proposals::Arrived;
use record_disk::RecordDisk;
use request_queue::{Request, RequestQueue};
use status_report::{Answer, CommandEntry, Entry};
use std::alloc::{AllocError, Global};
use update_words::{ask_words, words};

#[tactic(auto, using(crate::proofs::Commanding::takes, crate::proofs::Memory::out_of_memory))]
/// An administrator gives the node a command. It takes the next number, which is told first.
pub fn take_command<K: RecordDisk>(
    alloc: Global,
    cluster: &Cluster,
    me: NodeId,
    disk: &mut K,
    mut up: UpNode,
    words: &[u8],
    out: &mut Vec<Output>,
) -> Result<UpNode, Stop>
    ensures follows { Follows K.saving (on_command cluster.now me up words.now) out.old.items disk.old result out.new.items disk.new }
{
    match begin_with(alloc, cluster, me, &mut up, words, out) {
        Ok(Begun { number, read }) => obey(alloc, cluster, me, disk, up, number, read, out),
        Err(_) => hand_over(up, Err(Stop::NoMemory)),
    }
}

/// A command that has its number, or what it is answered.
#[derive(Drop)]
struct Begun {
    number: u64,
    read: Result<AdminCommand, Answer>,
}

/// The command has its number, and is read.
fn begin_with(
    alloc: Global,
    cluster: &Cluster,
    me: NodeId,
    up: &mut UpNode,
    words: &[u8],
    out: &mut Vec<Output>,
) -> Result<Begun, AllocError>
    ensures number { IfOk result (λ begun. begun.number ≡ next_number up.old.requests) }
    ensures read { IfOk result (λ begun. begun.read ≡ read_as (is_member up.old.seat) (command_of (version_of cluster.now) words.now)) }
    ensures after { up.new ≡ numbered up.old }
    ensures told { OnOk result (out.new.items ≡ out.old.items ++ asked_line me (next_number up.old.requests)) }
{
    let number = begin(me, up, out)?;
    let read = read_command(alloc, cluster, &up.seat, words)?;
    Ok(Begun { number, read })
}

/// The command takes the next number, which is told.
fn begin(me: NodeId, up: &mut UpNode, out: &mut Vec<Output>) -> Result<u64, AllocError>
    ensures value { IfOk result (λ number. number ≡ next_number up.old.requests) }
    ensures after { up.new ≡ numbered up.old }
    ensures told { OnOk result (out.new.items ≡ out.old.items ++ asked_line me (next_number up.old.requests)) }
{
    let number = up.requests.take_number();
    let asked = CommandEntry::Asked { node: me, number };
    give(out, Output::Tells(Entry::Command(asked)))?;
    Ok(number)
}

#[tactic(auto, using(crate::proofs::Commanding::reads_command, crate::proofs::Commanding::reads_other))]
/// The command of the words, which a member carries out, or what they are answered.
fn read_command(
    alloc: Global,
    cluster: &Cluster,
    seat: &Seat,
    words: &[u8],
) -> Result<Result<AdminCommand, Answer>, AllocError>
    ensures value { IfOk result (λ read. read ≡ read_as (is_member seat.now) (command_of (version_of cluster.now) words.now)) }
{
    match parse(alloc, cluster.header.get().version, words) {
        Ok(command) if seat.is_member() => Ok(Ok(command)),
        Ok(_) => Ok(Err(Answer::NotMember)),
        Err(e) => Ok(Err(word_answer(e)?)),
    }
}

/// What has been read is carried out or answered.
fn obey<K: RecordDisk>(
    alloc: Global,
    cluster: &Cluster,
    me: NodeId,
    disk: &mut K,
    up: UpNode,
    number: u64,
    read: Result<AdminCommand, Answer>,
    out: &mut Vec<Output>,
) -> Result<UpNode, Stop>
    requires member { IfOk read (λ _. is_member up.seat ≡ true) }
    ensures { Follows K.saving (obeyed cluster.now me up number read) out.old.items disk.old result out.new.items disk.new }
{
    match read {
        Ok(command) => carry_out(alloc, cluster, me, disk, up, number, command, out),
        Err(answer) => reply(me, up, number, answer, out),
    }
}

#[tactic(auto, using(crate::proofs::Commanding::makes_request, crate::proofs::Commanding::makes_none, crate::proofs::Memory::out_of_memory))]
/// A member makes a request of what is to be done, and answers a query.
fn carry_out<K: RecordDisk>(
    alloc: Global,
    cluster: &Cluster,
    me: NodeId,
    disk: &mut K,
    up: UpNode,
    number: u64,
    command: AdminCommand,
    out: &mut Vec<Output>,
) -> Result<UpNode, Stop>
    requires member { is_member up.seat ≡ true }
    ensures { Follows K.saving (commanded cluster.now me up number command) out.old.items disk.old result out.new.items disk.new }
{
    match request_text(alloc, &command) {
        Ok(Some(text)) => queue(alloc, cluster, me, disk, up, number, text, out),
        Ok(None) => query(alloc, cluster, me, up, number, command, out),
        Err(_) => hand_over(up, Err(Stop::NoMemory)),
    }
}

/// The text of the request that the command makes. A query makes none.
fn request_text(alloc: Global, command: &AdminCommand) -> Result<Option<Bytes>, AllocError>
    ensures value { IfOk result (λ text. text ≡ request_text command.now) }
{
    match command {
        AdminCommand::Change(u) => Ok(Some(Bytes::new(words(alloc, u)?))),
        AdminCommand::Act(ask) => Ok(Some(Bytes::new(ask_words(alloc, ask)?))),
        AdminCommand::Status(_) | AdminCommand::Rows(_) => Ok(None),
    }
}

#[tactic(auto, using(crate::proofs::Memory::out_of_memory))]
/// The command's request waits behind the others. One that waits alone goes at once.
fn queue<K: RecordDisk>(
    alloc: Global,
    cluster: &Cluster,
    me: NodeId,
    disk: &mut K,
    mut up: UpNode,
    number: u64,
    text: Bytes,
    out: &mut Vec<Output>,
) -> Result<UpNode, Stop>
    requires member { is_member up.seat ≡ true }
    ensures { Follows K.saving (queued cluster.now me up number text) out.old.items disk.old result out.new.items disk.new }
{
    if up.requests.is_full() {
        return reply(me, up, number, Answer::QueueFull, out);
    }
    let alone = is_idle(&up.requests);
    match up.requests.push(Request {
        number,
        text,
        told: true,
        second: up.second,
    }) {
        Ok(()) => ask_if(alone, alloc, cluster, me, disk, up, out),
        Err(_) => hand_over(up, Err(Stop::NoMemory)),
    }
}

/// A request that waits alone goes at once.
pub fn ask_if<K: RecordDisk>(
    alone: bool,
    alloc: Global,
    cluster: &Cluster,
    me: NodeId,
    disk: &mut K,
    up: UpNode,
    out: &mut Vec<Output>,
) -> Result<UpNode, Stop>
    requires member { is_member up.seat ≡ true }
    ensures plan { Follows K.saving (asking_if alone cluster.now me up) out.old.items disk.old result out.new.items disk.new }
{
    if alone {
        ask(alloc, cluster, me, disk, up, out)
    } else {
        Ok(up)
    }
}

/// Whether no request waits.
pub fn is_idle(requests: &RequestQueue) -> bool
    ensures value { result ≡ is_idle requests.now.waiting }
{
    requests.oldest().is_none()
}

#[tactic(auto, using(crate::proofs::Asking::asks_other, crate::proofs::Memory::out_of_memory))]
/// The oldest request goes to the president, which may be the node itself.
pub fn ask<K: RecordDisk>(
    alloc: Global,
    cluster: &Cluster,
    me: NodeId,
    disk: &mut K,
    up: UpNode,
    out: &mut Vec<Output>,
) -> Result<UpNode, Stop>
    requires member { is_member up.seat ≡ true }
    ensures plan { Follows K.saving (asking cluster.now me up) out.old.items disk.old result out.new.items disk.new }
{
    if up.presidency.is_some() {
        return ask_oneself(alloc, cluster, me, disk, up, out);
    }
    match send_request(alloc, &up, out) {
        Ok(()) => Ok(up),
        Err(_) => hand_over(up, Err(Stop::NoMemory)),
    }
}

#[tactic(auto, using(crate::proofs::Asking::asks_own, crate::proofs::Asking::asks_nothing, crate::proofs::Memory::out_of_memory))]
/// The oldest request comes to the node itself, which is the president.
fn ask_oneself<K: RecordDisk>(
    alloc: Global,
    cluster: &Cluster,
    me: NodeId,
    disk: &mut K,
    up: UpNode,
    out: &mut Vec<Output>,
) -> Result<UpNode, Stop>
    requires member { is_member up.seat ≡ true }
    requires president { is_some up.presidency ≡ true }
    ensures plan { Follows K.saving (asking cluster.now me up) out.old.items disk.old result out.new.items disk.new }
{
    match own_request(alloc, me, &up.requests) {
        Ok(Some(own)) => arrive(alloc, cluster, me, disk, up, own, out),
        Ok(None) => Ok(up),
        Err(_) => hand_over(up, Err(Stop::NoMemory)),
    }
}

/// The oldest request, as it comes to the node's own president.
fn own_request(
    alloc: Global,
    me: NodeId,
    requests: &RequestQueue,
) -> Result<Option<Arrived>, AllocError>
    ensures value { IfOk result (λ own. own ≡ option_map (own_arrival me) (oldest requests.now)) }
{
    match requests.oldest() {
        Some(oldest) => Ok(Some(Arrived {
            from: me,
            number: oldest.number,
            text: copied(alloc, &oldest.text)?,
        })),
        None => Ok(None),
    }
}

#[tactic(auto, using(crate::proofs::Replying::takes_answer, crate::proofs::Replying::takes_none, crate::proofs::Memory::out_of_memory))]
/// The president answers: the answer to the oldest request is told, and the next one goes.
pub fn take_reply<K: RecordDisk>(
    alloc: Global,
    cluster: &Cluster,
    me: NodeId,
    disk: &mut K,
    up: UpNode,
    epoch: Epoch,
    number: u64,
    text: &[u8],
    out: &mut Vec<Output>,
) -> Result<UpNode, Stop>
    ensures follows { Follows K.saving (on_reply cluster.now me up epoch number (answer_in text.now)) out.old.items disk.old result out.new.items disk.new }
{
    match read_answer(alloc, &up, epoch, text) {
        Ok(Some(answer)) => take_answer(alloc, cluster, me, disk, up, number, answer, out),
        Ok(None) => Ok(up),
        Err(_) => hand_over(up, Err(Stop::NoMemory)),
    }
}

#[tactic(auto, unfolding(crate::specs::Replies::heard))]
/// The answer that the text is, where the node is a member of the membership that it comes from.
fn read_answer(
    alloc: Global,
    up: &UpNode,
    epoch: Epoch,
    text: &[u8],
) -> Result<Option<Answer>, AllocError>
    ensures value { IfOk result (λ told. told ≡ heard (is_member up.now.seat && is_in up.now epoch) (answer_in text.now)) }
{
    if !is_member_in(up, epoch) {
        return Ok(None);
    }
    parse_answer(alloc, text)
}

#[tactic(auto, using(crate::proofs::Memory::out_of_memory))]
fn take_answer<K: RecordDisk>(
    alloc: Global,
    cluster: &Cluster,
    me: NodeId,
    disk: &mut K,
    mut up: UpNode,
    number: u64,
    answer: Answer,
    out: &mut Vec<Output>,
) -> Result<UpNode, Stop>
    requires member { is_member up.seat ≡ true }
    ensures { Follows K.saving (replied_as cluster.now me up number (Some answer)) out.old.items disk.old result out.new.items disk.new }
{
    let Some(request) = up.requests.answer(number) else {
        return Ok(up);
    };
    match tell_own(me, Some(request), answer, out) {
        Ok(()) => ask(alloc, cluster, me, disk, up, out),
        Err(_) => hand_over(up, Err(Stop::NoMemory)),
    }
}
