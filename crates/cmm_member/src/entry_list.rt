ghost use Rattle.std.specs.Prelude.{◌≡◌, ◌+◌, IfOk, OnOk, map, length};
ghost use Rattle.ccr_commit.specs.Entries.{with_next, texts_of};
ghost use Rattle.cmm_member.specs.Views.{all_next};

use ccr_commit::Entries;
use ccr_text::Row;
use cl_base::Bytes;
use std::alloc::{AllocError, Global};

/// The entries with these committed and this one pending.
pub fn entries_from(
    alloc: Global,
    committed: &[Bytes],
    pending: &Option<Bytes>,
) -> Result<Entries, AllocError>
    ensures { IfOk result (λ entries. entries ≡ record { committed = committed.now; pending = pending.now }) }
{
    let mut entries = Entries::new(alloc);
    append_texts(&mut entries, committed)?;
    entries.commit_pending();
    let Some(text) = pending else {
        return Ok(entries);
    };
    append(&mut entries, text.items())?;
    Ok(entries)
}

fn append_texts(entries: &mut Entries, texts: &[Bytes]) -> Result<(), AllocError>
    ensures { OnOk result (entries.new ≡ all_next entries.old texts.now) }
{
    for text in texts {
        append(entries, text.items())?;
    }
    Ok(())
}

/// The entries that the rows have as their values, the last one pending.
pub fn append_rows(entries: &mut Entries, rows: &[Row]) -> Result<(), AllocError>
    ensures { OnOk result (entries.new ≡ all_next entries.old (map (λ row. row.value) rows.now)) }
{
    for row in rows {
        append(entries, row.value.items())?;
    }
    Ok(())
}

// The text is the last entry and pending; one that was pending before it is committed.
fn append(entries: &mut Entries, text: &[u8]) -> Result<(), AllocError>
    ensures { OnOk result (entries.new ≡ with_next entries.old text.now) }
{
    let place = next_place(entries);
    entries.prepare(place, text)?;
    Ok(())
}

fn next_place(entries: &Entries) -> u64
    ensures { result ≡ length (texts_of entries.now) + 1 }
{
    let committed = entries.committed().len() as u64;
    if entries.pending().is_some() {
        committed + 2
    } else {
        committed + 1
    }
}
