ghost use Rattle.std.specs.Prelude.{◌≡◌, ◌++◌, ◌∷◌, [], IfOk, OnOk, codes, string_bytes};
ghost use Rattle.sha2.specs.Sha256.{sha256};
ghost use Rattle.ccr_text.specs.TableText.{AreRows, gennum_line, checksum_line, row_line, row_lines, table_text};

use crate::rows::{Row, TableRows};
use sha2::{Digest, Sha256};
use std::alloc::{AllocError, Global};

/// The text of the table with this generation number and these rows.
pub fn print_table(alloc: Global, gennum: u64, rows: &TableRows) -> Result<Vec<u8>, AllocError>
    requires form { AreRows rows.now }
    ensures text { IfOk result (λ text. text.items ≡ table_text gennum rows.now) }
{
    let body = print_rows(alloc, rows.items())?;
    let digest = Sha256::digest(body.as_slice());
    let mut text = print_head(alloc, gennum, &digest)?;
    text.extend_from_slice(body.as_slice())?;
    Ok(text)
}

/// The SHA-256 of the rows' lines, which is the table's checksum (FIPS 180-4, section 6.2).
pub fn checksum(alloc: Global, rows: &TableRows) -> Result<[u8; 32], AllocError>
    ensures value { IfOk result (λ digest. digest ≡ sha256 (row_lines rows.now)) }
{
    let body = print_rows(alloc, rows.items())?;
    Ok(Sha256::digest(body.as_slice()))
}

fn print_head(alloc: Global, gennum: u64, digest: &[u8]) -> Result<Vec<u8>, AllocError>
    ensures { IfOk result (λ head. head.items ≡ gennum_line gennum ++ checksum_line digest.now) }
{
    let digits = hex::encode(alloc, digest)?;
    let head = format!(in alloc; "ccr_gennum {gennum}\nccr_checksum {digits}\n")?;
    Ok(head.into_bytes())
}

fn print_rows(alloc: Global, rows: &[Row]) -> Result<Vec<u8>, AllocError>
    ensures { IfOk result (λ body. body.items ≡ row_lines rows.now) }
{
    let mut body = Vec::new(alloc);
    for row in rows {
        print_row(&mut body, row)?;
    }
    Ok(body)
}

fn print_row(body: &mut Vec<u8>, row: &Row) -> Result<(), AllocError>
    ensures { OnOk result (body.new.items ≡ body.old.items ++ row_line row.now) }
{
    body.extend_from_slice(row.key.items())?;
    body.push(b'\t')?;
    body.extend_from_slice(row.value.items())?;
    body.push(b'\n')?;
    Ok(())
}
