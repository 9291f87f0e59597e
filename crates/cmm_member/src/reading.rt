ghost use Rattle.std.specs.Prelude.{◌≡◌, ◌<◌, IfOk, MatchOption};
ghost use Rattle.ccr_commit.specs.Entries.{EntryList};
ghost use Rattle.cmm_member.specs.Records.{NodeRecord, IsRecord, rows_of, entry_rows};
ghost use Rattle.cmm_member.specs.Views.{kept, ends_pending};

use crate::entry_list::append_rows;
use crate::numbers::{devices_of, nodes_of, number_of};
use crate::running::Record;
use ccr_commit::Entries;
use ccr_text::Row;
use cl_base::Epoch;
use std::alloc::{AllocError, Global};

/// The record that has these rows.
pub fn read_record(alloc: Global, rows: &[Row]) -> Result<Option<Record>, AllocError>
    ensures { IfOk result (λ found. (r : NodeRecord) → IsRecord r → rows.now ≡ rows_of r → MatchOption found ⊥ (λ d. kept d ≡ r)) }
{
    let [promised, installed, members, valid, updates @ ..] = rows else {
        return Ok(None);
    };
    let Some(promised) = number_of(promised.value.items()) else {
        return Ok(None);
    };
    let Some(installed) = number_of(installed.value.items()) else {
        return Ok(None);
    };
    Ok(Some(Record {
        promised: Epoch::from_number(promised),
        installed: Epoch::from_number(installed),
        members: nodes_of(members.value.items()),
        valid: devices_of(valid.value.items()),
        entries: read_entries(alloc, updates)?,
    }))
}

fn read_entries(alloc: Global, rows: &[Row]) -> Result<Entries, AllocError>
    ensures { IfOk result (λ entries. (e : EntryList) → rows.now ≡ entry_rows e → entries ≡ e) }
{
    let mut entries = Entries::new(alloc);
    append_rows(&mut entries, rows)?;
    if ends_pending(rows) {
        return Ok(entries);
    }
    entries.commit_pending();
    Ok(entries)
}

fn ends_pending(rows: &[Row]) -> bool
    ensures { result ≡ ends_pending rows.now }
{
    match rows.last() {
        Some(last) => last.key.items() == b"pending".as_slice(),
        None => false,
    }
}
