ghost use Rattle.std.specs.Prelude.{◌≡◌, ◌++◌, ◌∷◌, [], IfOk, OnOk, codes};
ghost use Rattle.std.specs.Fmt.{decimal};
ghost use Rattle.cmm_member.specs.Records.{row, rows_of, update_rows};
ghost use Rattle.cmm_member.specs.Views.{kept, Widths};

use crate::numbers::{device_list, node_list, number_text};
use crate::running::Record;
use ccr_text::{Row, TableRows};
use cl_base::Bytes;
use std::alloc::{AllocError, Global};

/// The rows of the record.
pub fn record_rows(alloc: Global, durable: &Record) -> Result<TableRows, AllocError>
    ensures rows { IfOk result (λ rows. rows ≡ rows_of (kept durable.now)) }
    ensures widths { IfOk result (λ rows. Widths (kept durable.now)) }
{
    let mut rows = Vec::new(alloc);
    let promised = number_text(alloc, durable.promised.number())?;
    rows.push(row(alloc, b"promised", promised)?)?;
    let installed = number_text(alloc, durable.installed.number())?;
    rows.push(row(alloc, b"installed", installed)?)?;
    let members = node_list(alloc, durable.members)?;
    rows.push(row(alloc, b"members", members)?)?;
    let valid = device_list(alloc, durable.valid)?;
    rows.push(row(alloc, b"valid", valid)?)?;
    push_updates(&mut rows, alloc, durable.entries.committed())?;
    if let Some(text) = durable.entries.pending() {
        rows.push(row(alloc, b"pending", text.items().to_vec(alloc)?)?)?;
    }
    Ok(TableRows::new(rows))
}

fn row(alloc: Global, key: &[u8], value: Vec<u8>) -> Result<Row, AllocError>
    ensures { IfOk result (λ made. made ≡ row key.now value.items) }
{
    Ok(Row {
        key: Bytes::new(key.to_vec(alloc)?),
        value: Bytes::new(value),
    })
}

fn push_updates(rows: &mut Vec<Row>, alloc: Global, texts: &[Bytes]) -> Result<(), AllocError>
    ensures { OnOk result (rows.new.items ≡ rows.old.items ++ update_rows 0 texts.now) }
{
    for (index, text) in texts.iter().enumerate() {
        push_update(rows, alloc, index + 1, text)?;
    }
    Ok(())
}

fn push_update(
    rows: &mut Vec<Row>,
    alloc: Global,
    place: usize,
    text: &Bytes,
) -> Result<(), AllocError>
    ensures { OnOk result (rows.new.items ≡ rows.old.items ++ row (codes "update." ++ decimal place) text.now ∷ []) }
{
    let key = format!(in alloc; "update.{place}")?;
    let value = text.items().to_vec(alloc)?;
    rows.push(row(alloc, key.as_bytes(), value)?)?;
    Ok(())
}
