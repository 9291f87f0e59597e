// The refusal of an update that the record has no room for.
ghost use Rattle.std.specs.Prelude.{◌≡◌, ◌≤◌, ◌+◌, ◌*◌, ◌-◌, ◌^◌, IfOk};
ghost use Rattle.ccr_tables.specs.Changes.{changed};
ghost use Rattle.admin_commands.specs.Counts.{groups_after, one_less_if, resources_after};
ghost use Rattle.admin_commands.specs.Records.{record_full, report_length, row_length, updates_in};

use crate::error::NoMemory;
use ccr_tables::{Config, Update};
use cl_base::{Refusal, Table};
use itoa::Buffer;
use std::alloc::Global;
use update_words::words;

/// The most bytes that a record may have.
const MOST_BYTES: u128 = 65_536;

/// 24: the record would be longer than it may be. Its length is `before` without this update.
pub fn record_full(
    alloc: Global,
    config: &Config,
    before: u64,
    u: &Update,
) -> Result<Option<Refusal>, NoMemory>
    ensures { IfOk result (λ refusal. refusal ≡ record_full config.now before u.now) }
{
    let words = words(alloc, u)?;
    let row = row_length(updates_in(config) + 1, &words);
    let length = before as u128 + row + report_length(config, u);
    if length > MOST_BYTES {
        Ok(Some(Refusal::RecordFull {
            length: length.min(u64::MAX as u128) as u64,
        }))
    } else {
        Ok(None)
    }
}

/// How many updates the configuration has.
fn updates_in(config: &Config) -> u128
    ensures value { result ≡ updates_in config.now.generations }
    ensures most { result ≤ 5 * (2 ^ 64 - 1) }
{
    config.generation(Table::Infrastructure) as u128
        + config.generation(Table::Types) as u128
        + config.generation(Table::Groups) as u128
        + config.generation(Table::Resources) as u128
        + config.generation(Table::Addresses) as u128
}

/// The bytes of an update's row.
fn row_length(place: u128, words: &[u8]) -> u128
    ensures value { result ≡ row_length place words.now }
    ensures most { result ≤ 2 ^ 65 }
{
    let mut buffer = Buffer::new();
    9 + buffer.format(place).len() as u128 + words.len() as u128
}

/// What reports of the groups and resources may add that are then configured.
#[tactic(auto, using(crate::proofs::Counts::groups_counted, crate::proofs::Counts::resources_counted))]
fn report_length(config: &Config, u: &Update) -> u128
    ensures value { result ≡ report_length (changed config.now u.now).groups }
    ensures most { result ≤ 101 * 2 ^ 64 }
{
    64 * groups_after(config, u) + 37 * resources_after(config, u)
}

/// How many groups are then configured.
fn groups_after(config: &Config, u: &Update) -> u128
    ensures value { result ≡ groups_after config.now u.now }
    ensures most { result ≤ 2 ^ 64 }
{
    let count = config.groups().group_count() as u128;
    match u {
        Update::CreateGroup { .. } => count + 1,
        Update::DeleteGroup(name) => one_less_if(count, config.groups().group(name).is_some()),
        _ => count,
    }
}

/// How many resources are then configured.
fn resources_after(config: &Config, u: &Update) -> u128
    ensures value { result ≡ resources_after config.now u.now }
    ensures most { result ≤ 2 ^ 64 }
{
    let count = config.groups().resource_count() as u128;
    match u {
        Update::CreateResource { .. } => count + 1,
        Update::DeleteResource(name) => {
            one_less_if(count, config.groups().resource(name).is_some())
        }
        _ => count,
    }
}

fn one_less_if(count: u128, gone: bool) -> u128
    ensures value { result ≡ one_less_if count gone }
    ensures most { result ≤ count }
{
    if gone { count.saturating_sub(1) } else { count }
}
