//! Results as messages tell them.
ghost use Rattle.std.specs.Prelude.{◌≡◌, IfOk};
ghost use Rattle.seize.specs.Told.{read_keys, read_of};

use crate::kind::SeizeResult;
use cl_base::{Items, SeizeEnd};
use pgr_device::KeyList;
use std::alloc::{AllocError, Global};

/// A result as a message tells it, with its keys in a list of any length.
pub type ToldResult = SeizeEnd<Items<u64>>;

/// As many keys as a device has at most: one of each node.
const MOST_KEYS: usize = 32;

fn told_keys(alloc: Global, keys: &KeyList) -> Result<Items<u64>, AllocError>
    ensures same { IfOk result (λ told. told ≡ keys.now) }
{
    Ok(Items::new(keys.keys().to_vec(alloc)?))
}

/// The result, to be told in a message.
pub fn told_result(alloc: Global, ended: &SeizeResult) -> Result<ToldResult, AllocError>
    ensures same { IfOk result (λ told. told ≡ ended.now) }
{
    Ok(match ended {
        SeizeEnd::Held(keys) => SeizeEnd::Held(told_keys(alloc, keys)?),
        SeizeEnd::NotRegistered(keys) => SeizeEnd::NotRegistered(told_keys(alloc, keys)?),
        SeizeEnd::Greater(word) => SeizeEnd::Greater(*word),
        SeizeEnd::Expelled => SeizeEnd::Expelled,
        SeizeEnd::Contended(key) => SeizeEnd::Contended(*key),
        SeizeEnd::Fault => SeizeEnd::Fault,
    })
}

fn read_keys(keys: &Items<u64>) -> Option<KeyList>
    ensures value { result ≡ read_keys keys.now }
{
    let keys = keys.items();
    if keys.len() > MOST_KEYS {
        return None;
    }
    Some(KeyList::new(keys))
}

/// The result that a message tells. None where it tells more keys than a device has, which is 32.
pub fn read_result(told: &ToldResult) -> Option<SeizeResult>
    ensures value { result ≡ read_of told.now }
{
    match told {
        SeizeEnd::Held(keys) => Some(SeizeEnd::Held(read_keys(keys)?)),
        SeizeEnd::NotRegistered(keys) => Some(SeizeEnd::NotRegistered(read_keys(keys)?)),
        SeizeEnd::Greater(word) => Some(SeizeEnd::Greater(*word)),
        SeizeEnd::Expelled => Some(SeizeEnd::Expelled),
        SeizeEnd::Contended(key) => Some(SeizeEnd::Contended(*key)),
        SeizeEnd::Fault => Some(SeizeEnd::Fault),
    }
}
