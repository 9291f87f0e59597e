// The lines of a table's text, each read by itself.
ghost use Rattle.std.specs.Prelude.{◌≡◌, ◌≢◌, ℕ, List, ◌<◌, ◌^◌, ◌∷◌, [], ◌++◌, All, MatchOption, IsTrue, ◌↔◌};
ghost use Rattle.std.specs.Fmt.{decimal};
ghost use Rattle.hex.specs.Hex.{encode_lower};
ghost use Rattle.ccr_text.specs.TableText.{IsDigest, IsRow, gennum_line, checksum_line, row_line};
ghost use Rattle.ccr_text.specs.declared.rows.Row.{Row};

use crate::error::Digest;
use hex::FromHex;
use itoa::Buffer;

/// The generation number that the first line gives, and what follows the line.
pub fn first_line(text: &[u8]) -> Option<(u64, &[u8])>
    ensures { MatchOption result ((n : ℕ) (rest : List ℕ) → n < 2 ^ 64 → text.now ≢ gennum_line n ++ rest) (λ p. (p.0 < 2 ^ 64) × (text.now ≡ gennum_line p.0 ++ p.1.now)) }
{
    let (digits, rest) = tagged(b"ccr_gennum ", text)?;
    Some((number_of(digits)?, rest))
}

/// The digest that the second line gives, and what follows the line.
pub fn second_line(text: &[u8]) -> Option<(Digest, &[u8])>
    ensures { MatchOption result ((d rest : List ℕ) → IsDigest d → text.now ≢ checksum_line d ++ rest) (λ p. text.now ≡ checksum_line p.0.bytes ++ p.1.now) }
{
    let (digits, rest) = tagged(b"ccr_checksum ", text)?;
    Some((digest_of(digits)?, rest))
}

/// A row's line, and what follows it.
#[derive(Clone, Copy)]
pub struct RowLine<'a> {
    pub key: &'a [u8],
    pub value: &'a [u8],
    pub rest: &'a [u8],
}

/// The line of a row.
pub fn next_row(text: &[u8]) -> Option<RowLine<'_>>
    ensures { MatchOption result
        ((row : Row) (rest : List ℕ) → IsRow row → text.now ≢ row_line row ++ rest)
        (λ l. let row : Row = record { key = l.key.now; value = l.value.now } in IsRow row × (text.now ≡ row_line row ++ l.rest.now)) }
{
    let (line, rest) = cut_at(b'\n', text)?;
    let (key, value) = cut_at(b'\t', line)?;
    if is_row(key, value) {
        Some(RowLine { key, value, rest })
    } else {
        None
    }
}

fn is_row(key: &[u8], value: &[u8]) -> bool
    ensures { IsTrue result ↔ (let row : Row = record { key = key.now; value = value.now } in IsRow row) }
{
    !key.is_empty() && key.len() <= 80 && value.len() <= 65535 && is_plain(key) && is_plain(value)
}

fn is_plain(bytes: &[u8]) -> bool
    ensures { IsTrue result ↔ All (λ b. (b ≢ 9) × (b ≢ 10)) bytes.now }
{
    bytes.iter().all(|b| *b != b'\t' && *b != b'\n')
}

// What stands on a line after its tag, and what follows the line.
fn tagged<'a>(tag: &[u8], text: &'a [u8]) -> Option<(&'a [u8], &'a [u8])>
    ensures { MatchOption result
        ((body rest : List ℕ) → All (λ b. b ≢ 10) body → text.now ≢ tag.now ++ (body ++ 10 ∷ rest))
        (λ p. (text.now ≡ tag.now ++ (p.0.now ++ 10 ∷ p.1.now)) × All (λ b. b ≢ 10) p.0.now) }
{
    cut_at(b'\n', text.strip_prefix(tag)?)
}

// What stands before and after the first of these bytes.
fn cut_at(byte: u8, bytes: &[u8]) -> Option<(&[u8], &[u8])>
    ensures { MatchOption result (All (λ b. b ≢ byte) bytes.now) (λ p. (bytes.now ≡ p.0.now ++ byte ∷ p.1.now) × All (λ b. b ≢ byte) p.0.now) }
{
    let at = bytes.iter().position(|b| *b == byte)?;
    Some((&bytes[..at], &bytes[at + 1..]))
}

// The number that the digits spell, as they are printed: without a sign and leading zeros.
fn number_of(digits: &[u8]) -> Option<u64>
    ensures { MatchOption result ((n : ℕ) → n < 2 ^ 64 → digits.now ≢ decimal n) (λ n. (n < 2 ^ 64) × (digits.now ≡ decimal n)) }
{
    let Ok(text) = str::from_utf8(digits) else {
        return None;
    };
    let Ok(number) = text.parse::<u64>() else {
        return None;
    };
    let mut buffer = Buffer::new();
    if buffer.format(number) == text {
        Some(number)
    } else {
        None
    }
}

// The digest that the lower-case digits spell.
fn digest_of(digits: &[u8]) -> Option<Digest>
    ensures { MatchOption result ((d : List ℕ) → IsDigest d → digits.now ≢ encode_lower d) (λ d. digits.now ≡ encode_lower d.bytes) }
{
    let Ok(bytes) = <[u8; 32] as FromHex>::from_hex(digits) else {
        return None;
    };
    if is_printed(&bytes, digits) {
        Some(Digest { bytes })
    } else {
        None
    }
}

// Reading takes capitals too; printing does not write them.
fn is_printed(bytes: &[u8; 32], digits: &[u8]) -> bool
    ensures { IsTrue result ↔ (digits.now ≡ encode_lower bytes.now) }
{
    let mut printed = [0; 64];
    hex::encode_to_slice(bytes.as_slice(), &mut printed).is_ok() && printed.as_slice() == digits
}
