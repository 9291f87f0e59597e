ghost use Rattle.std.specs.Prelude.{◌≡◌, ◌↔◌, MatchResult, IsTrue};
ghost use Rattle.cl_base.specs.Names.{IsName, is_name_byte, is_letter};

use std::marker::Model;
use thiserror::Error;

/// The bytes are no name.
#[derive(Clone, Copy, Debug, PartialEq, Eq, Error)]
#[error("not a name of 1 to 32 letters, digits, '_' and '-' that begins with a letter")]
pub struct BadName;

/// A name of 1 to 32 bytes of `a` to `z`, digits, `_` and `-`, beginning with a letter. It is
/// kept in place. Contracts see its bytes.
#[derive(Clone, Copy, Debug, PartialEq, Eq, Hash)]
pub struct Name {
    bytes: [u8; 32],
    len: u8,
}

impl Model for Name {
    ghost use Rattle.std.specs.Prelude.{List, ℕ, take, length, replicate, ◌++◌, ◌-◌};

    ghost Value = { List ℕ };

    ghost use Rattle.cl_base.specs.Names.{IsName};
    ghost use Rattle.cl_base.specs.Padded.{IsPadded};
    ghost use Rattle.cl_base.specs.NameFields.{fields_back};

    ghost view = { λ n. take n.len n.bytes };

    ghost invariant = { λ n. IsPadded n.bytes n.len × IsName (take n.len n.bytes) };

    ghost inverse = { λ bytes. record { bytes = bytes ++ replicate (32 - length bytes) 0; len = length bytes } };

    ghost inverse_ok = { λ n kept. fields_back n kept.0 };
}

impl Name {
    /// The name of these bytes, or `BadName` where they are none.
    pub fn new(bytes: &[u8]) -> Result<Name, BadName>
        ensures answer { MatchResult result (λ name. (name ≡ bytes.now) × IsName bytes.now) (λ _. IsName bytes.now → ⊥) }
    {
        if !is_name(bytes) {
            return Err(BadName);
        }
        let mut places = [0; 32];
        places[..bytes.len()].copy_from_slice(bytes);
        Ok(Name {
            bytes: places,
            len: bytes.len() as u8,
        })
    }

    /// The name's bytes.
    pub fn bytes(&self) -> &[u8]
        ensures value { result.now ≡ self.now }
        ensures form { IsName self.now }
    {
        &self.bytes[..self.len as usize]
    }
}

/// Whether the bytes are a name.
fn is_name(bytes: &[u8]) -> bool
    ensures { IsTrue result ↔ IsName bytes.now }
{
    match bytes {
        [] => false,
        [first, ..] => bytes.len() <= 32
            && is_letter(*first)
            && bytes.iter().all(|b| is_name_byte(*b)),
    }
}

fn is_letter(b: u8) -> bool
    ensures { result ≡ is_letter b }
{
    b.is_ascii_lowercase()
}

fn is_name_byte(b: u8) -> bool
    ensures { result ≡ is_name_byte b }
{
    is_letter(b) || b.is_ascii_digit() || b == b'_' || b == b'-'
}
