// The votes under the updates of a record.
ghost use Rattle.std.specs.Prelude.{◌≡◌, ◌≤◌, length, IfOk, Some};
ghost use Rattle.std.specs.Option.{option_map};
ghost use Rattle.cl_base.specs.Limits.{most_devices};
ghost use Rattle.update_log.specs.Logs.{votes_after, votes_beside};

use crate::configuration::{add, config_after};
use crate::error::NoMemory;
use ccr_tables::Config;
use cl_base::{Bytes, Header};
use quorum_votes::Votes;
use std::alloc::Global;

/// The votes under the committed updates, and those with the pending one.
#[derive(Clone, Copy, Debug, PartialEq, Eq)]
pub struct LogVotes {
    /// The votes under the committed updates.
    pub committed: Votes,
    /// The votes with the pending update, if there is one.
    pub pending: Option<Votes>,
}

/// The votes under these updates of the header's configuration; none where the list, with the
/// pending one behind the others, is bad.
#[tactic(auto, unfolding(crate::specs::Logs::votes_after))]
pub fn votes_after(
    alloc: Global,
    header: &Header,
    committed: &[Bytes],
    pending: Option<&Bytes>,
) -> Result<Option<LogVotes>, NoMemory>
    requires devices { length header.now.devices ≤ most_devices }
    ensures value { IfOk result (λ found.
        found ≡ votes_after header.now committed.now (option_map (λ text. text.now) pending.entry)) }
{
    match config_after(alloc, header, committed)? {
        Some(config) => votes_beside(alloc, config, pending),
        None => Ok(None),
    }
}

/// The votes of the configuration, and those with the pending update, if there is one.
fn votes_beside(
    alloc: Global,
    config: Config,
    pending: Option<&Bytes>,
) -> Result<Option<LogVotes>, NoMemory>
    ensures { IfOk result (λ found.
        found ≡ votes_beside config (option_map (λ text. text.now) pending.entry)) }
{
    match pending {
        Some(text) => votes_with(alloc, config, text.items()),
        None => Ok(Some(LogVotes {
            committed: *config.votes(),
            pending: None,
        })),
    }
}

/// The votes of the configuration, and those with one more update; none if that may not come.
fn votes_with(alloc: Global, config: Config, text: &[u8]) -> Result<Option<LogVotes>, NoMemory>
    ensures { IfOk result (λ found. found ≡ votes_beside config (Some text.now)) }
{
    let committed = *config.votes();
    let mut config = config;
    if !add(alloc, &mut config, text)? {
        return Ok(None);
    }
    Ok(Some(LogVotes {
        committed,
        pending: Some(*config.votes()),
    }))
}
