ghost use Rattle.std.specs.Prelude.{◌≡◌, IfOk, map, option_map, slice_get};
ghost use Rattle.cl_base.specs.Sets.{has};
ghost use Rattle.cmm_attempt.specs.Promises.{shown_by, promised_by, has_promised, holds_valid, newest_shown, is_left_out_by, is_left_out};

use ccr_commit::{Summary, newest};
use cl_base::{DevId, DevSet, NodeId};
use std::alloc::{AllocError, Global};
use wire::{Body, Message};

/// What a Promise shows of its sender.
#[derive(Clone, Copy)]
pub struct Shown {
    /// How new its record is.
    pub summary: Summary,
    /// The devices that are valid to it.
    pub valid: DevSet,
    /// Whether any resource has a flag there.
    pub flagged: bool,
}

/// A Promise that was taken, and what it shows.
#[derive(Drop)]
pub struct Promised {
    /// What it shows.
    pub shown: Shown,
    /// The message.
    pub message: Message,
}

/// What the message of this node shows, where it is a Promise.
pub fn read_promise(from: NodeId, m: &Message) -> Option<Shown>
    ensures { result ≡ shown_by from m.now.body }
{
    match &m.body {
        Body::Promise {
            installed,
            members,
            valid,
            flagged,
            committed,
            pending,
            ..
        } => {
            let committed = committed.items().len() as u64;
            let all = match pending {
                Some(_) => committed + 1,
                None => committed,
            };
            let summary = Summary {
                node: from,
                installed: *installed,
                members: *members,
                committed,
                all,
            };
            Some(Shown {
                summary,
                valid: *valid,
                flagged: *flagged,
            })
        }
        _ => None,
    }
}

/// The Promise of this node, where the message is one.
pub fn keep_promise(from: NodeId, message: Message) -> Option<Promised>
    ensures { result ≡ promised_by message (shown_by from message.body) }
{
    let shown = read_promise(from, &message)?;
    Some(Promised { shown, message })
}

/// Whether the node promised.
pub fn has_promise(promises: &[Promised], n: NodeId) -> bool
    ensures { result ≡ has_promised promises.now n }
{
    promises.iter().any(|p| p.shown.summary.node == n)
}

/// Whether the node promised and holds the device valid.
pub fn is_valid(promises: &[Promised], d: DevId, n: NodeId) -> bool
    ensures { result ≡ holds_valid promises.now d n }
{
    promises
        .iter()
        .any(|p| p.shown.summary.node == n && p.shown.valid.has(d))
}

/// Whether a node that showed this has resources of a membership older than the newest record's,
/// which left it out.
fn is_behind(newest: &Shown, shown: &Shown) -> bool
    ensures { result ≡ is_left_out_by newest.now shown.now }
{
    shown.flagged
        && shown.summary.installed.number() < newest.summary.installed.number()
        && !newest.summary.members.has(shown.summary.node)
}

/// Whether the node promised and is behind.
pub fn is_excluded(newest: &Shown, promises: &[Promised], n: NodeId) -> bool
    ensures { result ≡ is_left_out newest.now promises.now n }
{
    promises.iter().any(|p| p.shown.summary.node == n && is_behind(newest, &p.shown))
}

fn summaries_of(alloc: Global, promises: &[Promised]) -> Result<Vec<Summary>, AllocError>
    ensures { IfOk result (λ summaries. summaries.items ≡ map (λ p. p.shown.summary) promises.now) }
{
    let mut summaries = Vec::new(alloc);
    for p in promises {
        summaries.push(p.shown.summary)?;
    }
    Ok(summaries)
}

fn shown_at(promises: &[Promised], index: usize) -> Option<Shown>
    ensures { result ≡ option_map (λ p. p.shown) (slice_get promises.now index) }
{
    promises.get(index).map(|p| p.shown)
}

/// What the newest of the records shows.
pub fn newest_of(alloc: Global, promises: &[Promised]) -> Result<Option<Shown>, AllocError>
    ensures { IfOk result (λ shown. shown ≡ newest_shown promises.now) }
{
    if promises.is_empty() {
        return Ok(None);
    }
    let summaries = summaries_of(alloc, promises)?;
    let index = newest(summaries.as_slice()) as usize;
    Ok(shown_at(promises, index))
}
