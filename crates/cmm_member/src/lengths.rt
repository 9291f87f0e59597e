// How long the text of a record may become. A length above 2^64 - 1 counts as that.
ghost use Rattle.std.specs.Prelude.{◌≡◌, ◌+◌, ◌-◌, ◌^◌, ◌++◌, ◌∷◌, [], IfOk, length, min};
ghost use Rattle.std.specs.Fmt.{decimal};
ghost use Rattle.ccr_commit.specs.Entries.{texts_of};
ghost use Rattle.ccr_text.specs.Lengths.{rows_length};
ghost use Rattle.cmm_member.specs.Lengths.{full_length};
ghost use Rattle.cmm_member.specs.Records.{update_rows};

use ccr_commit::Entries;
use cl_base::{Bytes, DevSet, NodeSet};
use itoa::Buffer;
use std::alloc::{AllocError, Global};

/// The bytes of a record's table that hang on no value: the words of the two first lines and the keys
/// of the first four rows with their tabs and newlines, and 20 digits each for the number of saves
/// and the two epochs.
const FIXED: u64 = 187;

/// The length that a record has with these members and valid devices, with the updates in `entries`,
/// all of them committed, and with 20 digits for the number of saves and for each epoch.
pub fn full_record_length(
    alloc: Global,
    members: NodeSet,
    valid: DevSet,
    entries: &Entries,
) -> Result<u64, AllocError>
    ensures value { IfOk result (λ n. n ≡ min (full_length members valid (texts_of entries.now)) (2 ^ 64 - 1)) }
{
    let members = members.text(alloc)?.len() as u64;
    let valid = valid.text(alloc)?.len() as u64;
    let sets = members.saturating_add(valid);
    let updates = updates_length(entries);
    Ok(FIXED.saturating_add(sets).saturating_add(updates))
}

/// The length of the rows of all these updates.
fn updates_length(entries: &Entries) -> u64
    ensures { result ≡ min (rows_length (update_rows 0 (texts_of entries.now))) (2 ^ 64 - 1) }
{
    let committed = entries.committed();
    let place = committed.len() as u64 + 1;
    let length = committed_length(committed);
    match entries.pending() {
        None => length,
        Some(text) => length.saturating_add(update_length(place, text.items())),
    }
}

fn committed_length(texts: &[Bytes]) -> u64
    ensures { result ≡ min (rows_length (update_rows 0 texts.now)) (2 ^ 64 - 1) }
{
    let mut total = 0u64;
    for (index, text) in texts.iter().enumerate() {
        total = total.saturating_add(update_length(index as u64 + 1, text.items()));
    }
    total
}

/// The length of the row of the update at a place.
fn update_length(place: u64, text: &[u8]) -> u64
    ensures { result ≡ min (9 + length (decimal place) + length text.now) (2 ^ 64 - 1) }
{
    let mut buffer = Buffer::new();
    let digits = buffer.format(place).len() as u64;
    digits.saturating_add(9).saturating_add(text.len() as u64)
}
