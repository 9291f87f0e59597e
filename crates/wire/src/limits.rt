// Whether a message's lists and texts are short enough for it to have a spelling.
ghost use Rattle.std.specs.Prelude.{◌≡◌, ◌<◌, ◌^◌, ◌↔◌, IsTrue, length, IfSome};
ghost use Rattle.wire.specs.Spelling.{IsShortText, IsShortList, IsShortReading, IsShortResource, IsShortGroup, IsShortReport, IsShortResult, IsShort};

use crate::lists::{Keys, Reading};
use crate::message::{Body, SeizedResult};
use crate::report::{GroupReport, Report, ResourceReport};
use cl_base::Bytes;

/// How many items a list may have: so many as a count of 2 bytes tells.
const MOST_ITEMS: usize = 0xffff;

/// How many bytes a text may have: so many as a length of 4 bytes tells.
const MOST_BYTES: usize = 0xffff_ffff;

/// What may be too long to be spelled.
trait Long {
    ghost is_short: { Self → Type 0 };

    fn is_short(&self) -> bool
        ensures exact { IsTrue result ↔ is_short self.now };
}

impl Long for Bytes {
    ghost is_short = { IsShortText };

    fn is_short(&self) -> bool {
        self.items().len() <= MOST_BYTES
    }
}

fn are_few(keys: &Keys) -> bool
    ensures exact { IsTrue result ↔ (length keys.now < 2 ^ 16) }
{
    keys.items().len() <= MOST_ITEMS
}

impl Long for Reading {
    ghost is_short = { IsShortReading };

    fn is_short(&self) -> bool {
        are_few(&self.keys)
    }
}

impl Long for ResourceReport {
    ghost is_short = { IsShortResource };

    fn is_short(&self) -> bool {
        self.resource.is_short()
    }
}

impl Long for GroupReport {
    ghost is_short = { IsShortGroup };

    fn is_short(&self) -> bool {
        self.group.is_short()
    }
}

/// Whether there are few items, and each is short.
fn are_short<T: Long>(items: &[T]) -> bool
    ensures exact { IsTrue result ↔ IsShortList T.is_short items.now }
{
    if items.len() > MOST_ITEMS {
        return false;
    }
    for item in items {
        if !item.is_short() {
            return false;
        }
    }
    true
}

/// Whether the text is short, if there is one.
fn is_short_or_none(text: &Option<Bytes>) -> bool
    ensures exact { IsTrue result ↔ IfSome text.now IsShortText }
{
    match text {
        Some(text) => text.is_short(),
        None => true,
    }
}

fn is_short_report(report: &Report) -> bool
    ensures exact { IsTrue result ↔ IsShortReport report.now }
{
    are_short(report.resources.items()) && are_short(report.groups.items())
}

fn is_short_result(outcome: &SeizedResult) -> bool
    ensures exact { IsTrue result ↔ IsShortResult outcome.now }
{
    match outcome {
        SeizedResult::Held(keys) | SeizedResult::NotRegistered(keys) => are_few(keys),
        _ => true,
    }
}

impl Body {
    /// Whether the message has a spelling: each list of it has at most 65,535 items, and each of its
    /// texts fewer than 2^32 bytes.
    pub fn is_short(&self) -> bool
        ensures exact { IsTrue result ↔ IsShort self.now }
    {
        match self {
            Body::Promise {
                committed,
                pending,
                ..
            } => are_short(committed.items()) && is_short_or_none(pending),
            Body::Seized { outcome, .. } => is_short_result(outcome),
            Body::Install(i) => {
                are_short(i.committed.items())
                    && is_short_or_none(&i.pending)
                    && are_short(i.readings.items())
            }
            Body::Ready { report, .. } => is_short_report(report),
            Body::Prepare { text, .. } | Body::Request { text, .. } | Body::Answer { text, .. } =>
                text.is_short(),
            Body::Order(order) => order.resource.is_short(),
            _ => true,
        }
    }
}
