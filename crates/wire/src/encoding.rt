ghost use Rattle.std.specs.Prelude.{◌≡◌, ◌++◌, ◌<◌, ◌^◌, [], true, length, OnOk, IfOk, IfSome};
ghost use Rattle.wire.specs.Spelling.{word, set, one, truth, text, list, at_most_one, report, seized_result, outcome_byte, fields, spelling, IsShort, IsShortText, IsShortList, IsShortReport, IsShortResult, IsWord, IsNodes, IsDevice, FitsResult, FitsReport, FitsBody, Fits};
ghost use Rattle.wire.specs.Kinds.{is_of_attempt};

use crate::codes::{method_byte, outcome_byte};
use crate::item::{put_at_most_one, put_keys, put_list};
use crate::lists::{Keys, Texts};
use crate::message::{Body, Install, Message, Order, SeizedResult};
use crate::report::Report;
use crate::writer::Writer;
use cl_base::{Bytes, DevId, Epoch, NodeId, NodeSet};
use std::alloc::{AllocError, Global};

fn put_epochs(writer: &mut Writer, first: Epoch, second: Epoch) -> Result<(), AllocError>
    ensures spelled { OnOk result (writer.new ≡ writer.old ++ (word first ++ word second)) }
    ensures range { OnOk result (IsWord first × IsWord second) }
{
    writer.epoch(first)?;
    writer.epoch(second)
}

fn put_numbered(writer: &mut Writer, epoch: Epoch, number: u64) -> Result<(), AllocError>
    ensures spelled { OnOk result (writer.new ≡ writer.old ++ (word epoch ++ word number)) }
    ensures range { OnOk result (IsWord epoch × IsWord number) }
{
    writer.epoch(epoch)?;
    writer.number(number)
}

fn put_numbered_text(
    writer: &mut Writer,
    epoch: Epoch,
    number: u64,
    words: &Bytes,
) -> Result<(), AllocError>
    requires { IsShortText words.now }
    ensures spelled { OnOk result (writer.new ≡ writer.old ++ (word epoch ++ (word number ++ text words.now))) }
    ensures range { OnOk result (IsWord epoch × IsWord number) }
{
    put_numbered(writer, epoch, number)?;
    writer.text(words)
}

fn put_members(writer: &mut Writer, epoch: Epoch, members: NodeSet) -> Result<(), AllocError>
    ensures spelled { OnOk result (writer.new ≡ writer.old ++ (word epoch ++ set members)) }
    ensures range { OnOk result (IsWord epoch × IsNodes members) }
{
    writer.epoch(epoch)?;
    writer.nodes(members)
}

fn put_seize(
    writer: &mut Writer,
    epoch: Epoch,
    members: NodeSet,
    device: DevId,
) -> Result<(), AllocError>
    ensures spelled { OnOk result (writer.new ≡ writer.old ++ (word epoch ++ (set members ++ one device))) }
    ensures range { OnOk result (IsWord epoch × IsNodes members × IsDevice device) }
{
    put_members(writer, epoch, members)?;
    writer.device(device)
}

/// Writes the texts of the committed updates, and that of the pending one.
fn put_updates(
    writer: &mut Writer,
    committed: &Texts,
    pending: &Option<Bytes>,
) -> Result<(), AllocError>
    requires committed { IsShortList IsShortText committed.now }
    requires pending { IfSome pending.now IsShortText }
    ensures spelled { OnOk result (writer.new ≡ writer.old ++ (list text committed.now ++ at_most_one text pending.now)) }
    ensures range { OnOk result (IsShortList IsShortText committed.now × IfSome pending.now IsShortText) }
{
    put_list(writer, committed.items())?;
    put_at_most_one(writer, pending)
}

fn put_result(writer: &mut Writer, outcome: &SeizedResult) -> Result<(), AllocError>
    requires { IsShortResult outcome.now }
    ensures spelled { OnOk result (writer.new ≡ writer.old ++ seized_result outcome.now) }
    ensures range { OnOk result (FitsResult outcome.now) }
{
    match outcome {
        SeizedResult::Held(keys) => put_reading(writer, 0, keys),
        SeizedResult::NotRegistered(keys) => put_reading(writer, 1, keys),
        SeizedResult::Greater(word) => put_without_keys(writer, 2, *word),
        SeizedResult::Expelled => put_without_keys(writer, 3, 0),
        SeizedResult::Contended(key) => put_without_keys(writer, 4, *key),
        SeizedResult::Fault => put_without_keys(writer, 5, 0),
    }
}

fn put_reading(writer: &mut Writer, code: u8, keys: &Keys) -> Result<(), AllocError>
    requires { length keys.now < 2 ^ 16 }
    ensures spelled { OnOk result (writer.new ≡ writer.old ++ (one code ++ (word 0 ++ list word keys.now))) }
    ensures range { OnOk result (IsShortList IsWord keys.now) }
{
    writer.byte(code)?;
    writer.number(0)?;
    put_keys(writer, keys)
}

#[tactic(auto, unfolding(crate::specs::Spelling::list))]
fn put_without_keys(writer: &mut Writer, code: u8, number: u64) -> Result<(), AllocError>
    ensures spelled { OnOk result (writer.new ≡ writer.old ++ (one code ++ (word number ++ list word []))) }
    ensures range { OnOk result (IsWord number) }
{
    writer.byte(code)?;
    writer.number(number)?;
    writer.count(0)
}

fn put_install(writer: &mut Writer, install: &Install) -> Result<(), AllocError>
    requires { IsShort (Body.Install install.now) }
    ensures spelled { OnOk result (writer.new ≡ writer.old ++ fields (Body.Install install.now)) }
    ensures range { OnOk result (FitsBody (Body.Install install.now)) }
{
    put_members(writer, install.epoch, install.members)?;
    put_updates(writer, &install.committed, &install.pending)?;
    put_list(writer, install.readings.items())
}

fn put_report(writer: &mut Writer, told: &Report) -> Result<(), AllocError>
    requires { IsShortReport told.now }
    ensures spelled { OnOk result (writer.new ≡ writer.old ++ report told.now) }
    ensures range { OnOk result (FitsReport told.now) }
{
    put_list(writer, told.resources.items())?;
    put_list(writer, told.groups.items())
}

fn put_order(writer: &mut Writer, order: &Order) -> Result<(), AllocError>
    requires { IsShortText order.now.resource }
    ensures spelled { OnOk result (writer.new ≡ writer.old ++ fields (Body.Order order.now)) }
    ensures range { OnOk result (FitsBody (Body.Order order.now)) }
{
    put_numbered(writer, order.epoch, order.number)?;
    writer.byte(method_byte(order.method))?;
    writer.text(&order.resource)
}

/// Writes the fields of a message by which a membership is found.
fn put_of_attempt(writer: &mut Writer, body: &Body) -> Result<(), AllocError>
    requires short { IsShort body.now }
    requires kind { is_of_attempt body.now ≡ true }
    ensures spelled { OnOk result (writer.new ≡ writer.old ++ fields body.now) }
    ensures range { OnOk result (FitsBody body.now) }
{
    match body {
        Body::Promise {
            epoch,
            installed,
            members,
            valid,
            flagged,
            committed,
            pending,
        } => {
            put_epochs(writer, *epoch, *installed)?;
            writer.nodes(*members)?;
            writer.devices(*valid)?;
            writer.truth(*flagged)?;
            put_updates(writer, committed, pending)
        }
        Body::SeizeQuorum {
            epoch,
            members,
            device,
        }
        | Body::SeizeData {
            epoch,
            members,
            device,
        } => put_seize(writer, *epoch, *members, *device),
        Body::Seized {
            epoch,
            device,
            outcome,
        } => {
            writer.epoch(*epoch)?;
            writer.device(*device)?;
            put_result(writer, outcome)
        }
        _ => Ok(()),
    }
}

/// Writes the fields of a message.
fn put_body(writer: &mut Writer, body: &Body) -> Result<(), AllocError>
    requires { IsShort body.now }
    ensures spelled { OnOk result (writer.new ≡ writer.old ++ fields body.now) }
    ensures range { OnOk result (FitsBody body.now) }
{
    match body {
        Body::Heartbeat {
            promised,
            session,
            member,
        } => {
            put_epochs(writer, *promised, *session)?;
            writer.truth(*member)
        }
        Body::Collect { epoch, members } => put_members(writer, *epoch, *members),
        Body::Promise { .. }
        | Body::SeizeQuorum { .. }
        | Body::SeizeData { .. }
        | Body::Seized { .. } => put_of_attempt(writer, body),
        Body::Nack { epoch, promised } => put_epochs(writer, *epoch, *promised),
        Body::Install(install) => put_install(writer, install),
        Body::Ready {
            epoch,
            joined,
            report,
        } => {
            writer.epoch(*epoch)?;
            writer.devices(*joined)?;
            put_report(writer, report)
        }
        Body::Start { epoch } => writer.epoch(*epoch),
        Body::Prepare { epoch, place, text } => put_numbered_text(writer, *epoch, *place, text),
        Body::Prepared { epoch, place } | Body::Commit { epoch, place } => {
            put_numbered(writer, *epoch, *place)
        }
        Body::Order(order) => put_order(writer, order),
        Body::Done {
            epoch,
            number,
            outcome,
        } => {
            put_numbered(writer, *epoch, *number)?;
            writer.byte(outcome_byte(*outcome))
        }
        Body::Request {
            epoch,
            number,
            text,
        }
        | Body::Answer {
            epoch,
            number,
            text,
        } => put_numbered_text(writer, *epoch, *number, text),
        Body::Excluded { epoch, newest } => put_epochs(writer, *epoch, *newest),
    }
}

/// The one spelling of the message. No list of it has more than 65,535 items, and each of its texts
/// has fewer than 2^32 bytes.
pub fn encode(alloc: Global, m: &Message) -> Result<Vec<u8>, AllocError>
    requires { IsShort m.now.body }
    ensures spelled { IfOk result (λ bytes. bytes.items ≡ spelling m.now) }
    // So the message that `decode` finds in these bytes is this one.
    ensures range { OnOk result (Fits m.now) }
{
    encode_body(alloc, m.sender, &m.body)
}

/// The spelling of the message that this sender sends with this in it.
pub fn encode_body(alloc: Global, sender: NodeId, body: &Body) -> Result<Vec<u8>, AllocError>
    requires { IsShort body.now }
    ensures spelled { IfOk result (λ bytes. bytes.items ≡ spelling (record { sender = sender; body = body.now })) }
    ensures range { OnOk result (Fits (record { sender = sender; body = body.now })) }
{
    let mut writer = Writer::new(alloc)?;
    writer.byte(body.kind().byte())?;
    writer.node(sender)?;
    put_body(&mut writer, body)?;
    Ok(writer.into_bytes())
}
