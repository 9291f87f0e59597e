// A table's text is read from the front, line by line; what is left is a slice of it.
ghost use Rattle.std.specs.Prelude.{◌≡◌, ◌⊎◌, IfOk, Err, OnOk, ◌++◌, ◌∷◌, []};
ghost use Rattle.ccr_text.specs.TableText.{IsAnswer, IsTable};
ghost use Rattle.sha2.specs.Sha256.{sha256};
ghost use Rattle.ccr_text.specs.Reading.{ReadsRows};
ghost use Rattle.ccr_text.specs.declared.rows.Row.{Row};

use crate::error::{Digest, TextError};
use crate::lines::{RowLine, first_line, next_row, second_line};
use crate::rows::{Row, TableRows};
use cl_base::Bytes;
use sha2::Sha256;
use std::alloc::{AllocError, Global};
use std::collections::HashSet;

/// The generation number and the rows of the table whose text this is. A line that the form does
/// not allow comes before a checksum that is not that of the rows. The keys stand in a hash set, so
/// the time is in proportion to the text.
pub fn read_table(alloc: Global, text: &[u8]) -> Result<(u64, TableRows), TextError>
    ensures ok { IfOk result (λ found. IsTable text.now found.0 found.1) }
    ensures answer { (result ≡ Err TextError.NoMemory) ⊎ IsAnswer text.now result }
    // a text asks for one answer
    ensures only { (other : _) → IsAnswer text.now other → (result ≡ Err TextError.NoMemory) ⊎ (result ≡ other) }
{
    answer(alloc, text)
}

fn answer(alloc: Global, text: &[u8]) -> Result<(u64, TableRows), TextError>
    ensures { (result ≡ Err TextError.NoMemory) ⊎ IsAnswer text.now result }
{
    let Some((gennum, rest)) = first_line(text) else {
        return Err(TextError::BadLine(1));
    };
    let Some((kept, body)) = second_line(rest) else {
        return Err(TextError::BadLine(2));
    };
    let rows = read_rows(alloc, body)?;
    let computed = digest_of(body);
    if kept != computed {
        return Err(TextError::BadChecksum { kept, computed });
    }
    Ok((gennum, rows))
}

fn digest_of(body: &[u8]) -> Digest
    ensures { result.bytes ≡ sha256 body.now }
{
    Digest {
        bytes: <Sha256 as sha2::Digest>::digest(body),
    }
}

fn read_rows(alloc: Global, body: &[u8]) -> Result<TableRows, TextError>
    ensures { ReadsRows body.now result }
{
    let mut rows = Vec::new(alloc);
    let mut keys = HashSet::new(alloc);
    let mut rest = body;
    while !rest.is_empty() {
        let Some(line) = next_row(rest) else {
            return Err(TextError::BadLine(rows.len() as u64 + 3));
        };
        if !keys.insert(line.key)? {
            return Err(TextError::BadLine(rows.len() as u64 + 3));
        }
        push_row(&mut rows, alloc, line)?;
        rest = line.rest;
    }
    Ok(TableRows::new(rows))
}

fn push_row(rows: &mut Vec<Row>, alloc: Global, line: RowLine<'_>) -> Result<(), AllocError>
    ensures { OnOk result (let row : Row = record { key = line.entry.key.now; value = line.entry.value.now } in rows.new.items ≡ rows.old.items ++ row ∷ []) }
{
    let key = Bytes::new(line.key.to_vec(alloc)?);
    let value = Bytes::new(line.value.to_vec(alloc)?);
    rows.push(Row { key, value })?;
    Ok(())
}
