// The text that a disk has for a record.
ghost use Rattle.std.specs.Prelude.{◌≡◌, ◌≤◌, IfOk, IfSome, is_some, length, true};
ghost use Rattle.std.specs.List.{list_all};
ghost use Rattle.ccr_commit.specs.Entries.{texts_of};
ghost use Rattle.cmm_member.specs.Records.{first_record};
ghost use Rattle.cmm_member.specs.Views.{kept};
ghost use Rattle.record_disk.specs.Disks.{fits, is_plain_byte, is_row_text};
ghost use Rattle.record_disk.specs.Images.{IsTextFor};

use ccr_commit::Entries;
use ccr_text::print_table;
use cl_base::{Bytes, DevSet, Epoch, NodeSet};
use cmm_member::{Record, entries_from, record_rows, records_have_their_length, rows_are_a_table};
use record_store::MOST_BYTES;
use std::alloc::{AllocError, Global};

/// The record that an empty disk stands for.
pub fn first_record(alloc: Global, valid: DevSet) -> Record
    ensures { kept result ≡ first_record valid }
{
    Record {
        promised: Epoch::zero(),
        installed: Epoch::zero(),
        members: NodeSet::empty(),
        valid,
        entries: Entries::new(alloc),
    }
}

/// The same record again.
pub fn copy_record(alloc: Global, durable: &Record) -> Result<Record, AllocError>
    ensures { IfOk result (λ copy. kept copy ≡ kept durable.now) }
{
    let pending = match durable.entries.pending() {
        Some(text) => Some(Bytes::new(text.items().to_vec(alloc)?)),
        None => None,
    };
    Ok(Record {
        promised: durable.promised,
        installed: durable.installed,
        members: durable.members,
        valid: durable.valid,
        entries: entries_from(alloc, durable.entries.committed(), &pending)?,
    })
}

/// The text of the record's table, if a disk can hold it.
pub fn text_for(alloc: Global, saves: u64, durable: &Record) -> Result<Option<Vec<u8>>, AllocError>
    ensures fits { IfOk result (λ found. is_some found ≡ fits saves (kept durable.now)) }
    ensures text { IfOk result (λ found. IfSome found (λ text. IsTextFor text.items saves (kept durable.now))) }
    ensures most { IfOk result (λ found. IfSome found (λ text. length text.items ≤ 65536)) }
{
    if durable.installed > durable.promised || !fit_rows(&durable.entries) {
        return Ok(None);
    }
    let text = table_of(alloc, saves, durable)?;
    records_have_their_length();
    if text.len() > MOST_BYTES {
        return Ok(None);
    }
    Ok(Some(text))
}

/// The text of the record's table.
pub fn table_of(alloc: Global, saves: u64, durable: &Record) -> Result<Vec<u8>, AllocError>
    requires order { durable.now.installed ≤ durable.now.promised }
    requires texts { list_all is_row_text (texts_of durable.now.entries) ≡ true }
    ensures { IfOk result (λ text. IsTextFor text.items saves (kept durable.now)) }
{
    let rows = record_rows(alloc, durable)?;
    rows_are_a_table();
    print_table(alloc, saves, &rows)
}

fn fit_rows(entries: &Entries) -> bool
    ensures { result ≡ list_all is_row_text (texts_of entries.now) }
{
    let Some(last) = entries.pending() else {
        return are_row_texts(entries.committed());
    };
    are_row_texts(entries.committed()) && is_row_text(last.items())
}

fn are_row_texts(texts: &[Bytes]) -> bool
    ensures { result ≡ list_all is_row_text texts.now }
{
    texts.iter().all(|text| is_row_text(text.items()))
}

fn is_row_text(text: &[u8]) -> bool
    ensures { result ≡ is_row_text text.now }
{
    text.len() <= 65535 && is_plain(text)
}

fn is_plain(text: &[u8]) -> bool
    ensures { result ≡ list_all is_plain_byte text.now }
{
    text.iter().all(|b| *b != b'\t' && *b != b'\n')
}
