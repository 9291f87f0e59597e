// Words that are one of a few, and names.
ghost use Rattle.std.specs.Prelude.{◌≡◌, map, IfOk, IfSome};
ghost use Rattle.cl_base.specs.Names.{IsName};
ghost use Rattle.rg_props.specs.Words.{choice_in, mode_in, name_in, parts_at};

use cl_base::{FailoverMode, Name};
use std::alloc::{AllocError, Global};

/// The name that the word is, if it is one.
pub fn name(word: &[u8]) -> Option<Name>
    ensures value { result ≡ name_in word.now }
    ensures form { IfSome result IsName }
{
    Name::new(word).ok()
}

#[tactic(auto, unfolding(crate::specs::Words::choice_in))]
/// The choice that the word is, if it is one.
pub fn choice(word: &[u8]) -> Option<bool>
    ensures { result ≡ choice_in word.now }
{
    if word == b"TRUE".as_slice() {
        Some(true)
    } else if word == b"FALSE".as_slice() {
        Some(false)
    } else {
        None
    }
}

#[tactic(auto, unfolding(crate::specs::Words::mode_in))]
/// The failover mode that the word names, if it names one.
pub fn failover_mode(word: &[u8]) -> Option<FailoverMode>
    ensures { result ≡ mode_in word.now }
{
    if word == b"NONE".as_slice() {
        Some(FailoverMode::None)
    } else if word == b"SOFT".as_slice() {
        Some(FailoverMode::Soft)
    } else if word == b"HARD".as_slice() {
        Some(FailoverMode::Hard)
    } else if word == b"RESTART_ONLY".as_slice() {
        Some(FailoverMode::RestartOnly)
    } else if word == b"LOG_ONLY".as_slice() {
        Some(FailoverMode::LogOnly)
    } else {
        None
    }
}

/// The parts of the bytes between these separators.
pub fn parts(alloc: Global, bytes: &[u8], separator: u8) -> Result<Vec<&[u8]>, AllocError>
    ensures { IfOk result (λ parts. map (λ p. p.now) parts.items ≡ parts_at separator bytes.now) }
{
    bytes.split(|b| *b == separator).collect(alloc)
}
