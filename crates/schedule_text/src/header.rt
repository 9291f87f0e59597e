ghost use Rattle.std.specs.Prelude.{◌≡◌, ◌&&◌, map, None, Some, MatchResult, IfOk, IfSome, false};
ghost use Rattle.schedule_text.specs.Allowed.{IsAllowedHead, IsAllowedState, IsHeader};
ghost use Rattle.schedule_text.specs.Headers.{header_step, head_of, can_hold_blank, opening_line, senders_line, device_step, device_line};
ghost use Rattle.schedule_text.specs.HeaderAnswers.{TakesLine, Steps, Leads};
ghost use Rattle.schedule_text.specs.Lines.{is_blank};
ghost use Rattle.schedule_text.specs.Words.{words_of};

use crate::cluster_header::{cluster_line, configured_line, device_line, nodes_line, with_device};
use crate::kind::{Kind, ReadError};
use crate::numbers::listed_nodes;
use crate::reading::{is_blank, words};
use cl_base::{Header, NodeId, NodeSet, Version};
use std::alloc::Global;
use std::marker::Model;

/// A whole header.
#[derive(Drop)]
pub enum Head {
    /// That of a reservation schedule, with the nodes that have a path to the device.
    Pr(NodeSet),
    /// That of a cluster schedule.
    Cluster(Header),
}

/// How much of a header was read.
#[derive(Drop)]
pub enum HeaderState {
    /// Nothing.
    Opening,
    /// The first line of a reservation schedule.
    Senders,
    /// All of a reservation schedule's header.
    Complete(NodeSet),
    /// The first line of a cluster schedule, of this version.
    Cluster(Version),
    /// The id of the cluster too.
    Nodes {
        /// The version.
        version: Version,
        /// The cluster's id.
        cluster: u32,
    },
    /// How many nodes there are too, under version 2.
    Configured {
        /// The cluster's id.
        cluster: u32,
        /// How many nodes there are.
        nodes: u64,
    },
    /// All that a cluster schedule's header must have; more devices may follow.
    Devices(Header),
}

/// Reads the header of a schedule line by line.
#[derive(Drop)]
pub struct HeaderReader {
    state: HeaderState,
}

impl Model for HeaderReader {
    ghost use Rattle.schedule_text.specs.declared.header.HeaderState.{HeaderState};

    ghost Value = { HeaderState };

    ghost use Rattle.schedule_text.specs.Allowed.{IsAllowedState};

    ghost view = { λ r. r.state };

    ghost invariant = { λ r. IsAllowedState r.state };
}

impl HeaderReader {
    /// Before the first line.
    pub fn new() -> HeaderReader
        ensures value { result ≡ HeaderState.Opening }
    {
        HeaderReader {
            state: HeaderState::Opening,
        }
    }

    /// Takes a line, without its newline: `true` where it belongs to the header, `false` where the
    /// header can end before it and it belongs to what follows, and then nothing changes. Empty
    /// lines and comments before the last line of the header, and among the devices of a cluster
    /// schedule and right after them, belong to it.
    pub fn take(&mut self, alloc: Global, line: &[u8]) -> Result<bool, ReadError>
        ensures step { TakesLine self.old line.now result self.new }
    {
        if can_hold_blank(&self.state) && is_blank(line) {
            return Ok(true);
        }
        match next_state(alloc, &self.state, line)? {
            Some(state) => {
                self.state = state;
                Ok(true)
            }
            None => Ok(false),
        }
    }

    /// The header, where the schedule may end here.
    pub fn finish(self) -> Result<Head, Kind>
        ensures head { MatchResult result (λ head. head_of self ≡ Some head) (λ kind. (head_of self ≡ None) × (kind ≡ Kind.Header)) }
        ensures allowed { IfOk result IsAllowedHead }
    {
        let HeaderReader { state } = self;
        match state {
            HeaderState::Complete(senders) => Ok(Head::Pr(senders)),
            HeaderState::Devices(header) => Ok(Head::Cluster(header)),
            _ => Err(Kind::Header),
        }
    }
}

/// Whether a line without a word belongs to the header.
fn can_hold_blank(state: &HeaderState) -> bool
    ensures { result ≡ can_hold_blank state.now }
{
    match state {
        HeaderState::Complete(_) => false,
        _ => true,
    }
}

/// The state that a line with words leads to, or none where the header can end before the line.
fn next_state(
    alloc: Global,
    state: &HeaderState,
    line: &[u8],
) -> Result<Option<HeaderState>, ReadError>
    requires words { (can_hold_blank state.now && is_blank line.now) ≡ false }
    requires before { IsAllowedState state.now }
    ensures step { Leads result (header_step state.now line.now) }
    ensures allowed { IfOk result (λ next. IfSome next IsAllowedState) }
{
    match state {
        HeaderState::Complete(_) => Ok(None),
        HeaderState::Opening => Ok(Some(opening(line)?)),
        HeaderState::Senders => Ok(Some(senders(&words(alloc, line)?)?)),
        HeaderState::Cluster(version) => Ok(Some(cluster_line(*version, &words(alloc, line)?)?)),
        HeaderState::Nodes { version, cluster } => {
            Ok(Some(nodes_line(alloc, *version, *cluster, &words(alloc, line)?)?))
        }
        HeaderState::Configured { cluster, nodes } => {
            Ok(Some(configured_line(alloc, *cluster, *nodes, &words(alloc, line)?)?))
        }
        HeaderState::Devices(header) => next_device(alloc, header, line),
    }
}

/// What a line makes of a header whose devices are being read.
fn next_device(
    alloc: Global,
    header: &Header,
    line: &[u8],
) -> Result<Option<HeaderState>, ReadError>
    requires { IsHeader header.now }
    ensures step { Leads result (device_step header.now (device_line header.now (words_of line.now))) }
    ensures allowed { IfOk result (λ next. IfSome next IsAllowedState) }
{
    match device_line(header, &words(alloc, line)?)? {
        Some(device) => Ok(Some(HeaderState::Devices(with_device(alloc, header, device)?))),
        None => Ok(None),
    }
}

/// What the first line of a schedule opens.
fn opening(line: &[u8]) -> Result<HeaderState, Kind>
    ensures step { Steps result (opening_line line.now) }
    ensures allowed { IfOk result IsAllowedState }
{
    if line == b"schedule pr 1".as_slice() {
        Ok(HeaderState::Senders)
    } else if line == b"schedule cluster 1".as_slice() {
        Ok(HeaderState::Cluster(Version::One))
    } else if line == b"schedule cluster 2".as_slice() {
        Ok(HeaderState::Cluster(Version::Two))
    } else {
        Err(Kind::Header)
    }
}

/// What the line that names the senders comes to.
fn senders(words: &[&[u8]]) -> Result<HeaderState, Kind>
    ensures step { Steps result (senders_line (map (λ w. w.now) words.now)) }
    ensures allowed { IfOk result IsAllowedState }
{
    let senders = listed_nodes(b"senders", NodeId::MOST_AT_FIRST, words)?;
    Ok(HeaderState::Complete(senders.nodes))
}
