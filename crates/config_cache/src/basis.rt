// What a configuration in force was made of, kept so that it is known again.
ghost use Rattle.std.specs.Prelude.{◌≡◌, ◌↔◌, IfOk, IsTrue, slice_get};
ghost use Rattle.config_cache.specs.Lists.{these};

use crate::same_header::{copied, is_same};
use crate::wanted::is_same_text;
use cl_base::{Bytes, Header};
use std::alloc::{AllocError, Global};
use std::marker::Model;
use update_log::NoMemory;

/// A header and a list of updates, kept so that they are known again: the configuration in force
/// under them is the same then. Contracts see an `UpdateList`.
#[derive(Drop)]
pub struct Basis {
    header: Header,
    texts: Vec<Bytes>,
}

impl Model for Basis {
    ghost use Rattle.config_cache.specs.Lists.{UpdateList};

    ghost Value = { UpdateList };

    ghost view = { λ b. record { header = b.header; texts = b.texts.items } };
}

impl Basis {
    /// This header, and these updates.
    pub fn new(alloc: Global, header: &Header, texts: &[Bytes]) -> Result<Basis, NoMemory>
        ensures value { IfOk result (λ basis. basis ≡ these header.now texts.now) }
    {
        Ok(Basis {
            header: copied(alloc, header)?,
            texts: copies(alloc, texts)?,
        })
    }

    /// Whether it is of this header, and of these updates.
    #[tactic(auto, using(crate::proofs::Bases::same_basis, crate::proofs::Bases::same_parts))]
    pub fn is_of(&self, header: &Header, texts: &[Bytes]) -> bool
        ensures value { IsTrue result ↔ (self.now ≡ these header.now texts.now) }
    {
        is_same(&self.header, header) && has_same_texts(&self.texts, texts)
    }
}

/// The same texts once more.
fn copies(alloc: Global, texts: &[Bytes]) -> Result<Vec<Bytes>, AllocError>
    ensures { IfOk result (λ copies. copies.items ≡ texts.now) }
{
    let mut copies = Vec::new(alloc);
    for text in texts {
        let copy = text.items().to_vec(alloc)?;
        copies.push(Bytes::new(copy))?;
    }
    Ok(copies)
}

/// Whether they are the same texts.
#[tactic(auto, using(crate::proofs::Fronts::next_same, crate::proofs::Fronts::not_same, crate::proofs::Fronts::whole_same))]
fn has_same_texts(a: &[Bytes], b: &[Bytes]) -> bool
    ensures { IsTrue result ↔ (a.now ≡ b.now) }
{
    if a.len() != b.len() {
        return false;
    }
    for place in 0..b.len() {
        if !is_same_at(a, b, place) {
            return false;
        }
    }
    true
}

/// Whether the same text stands at this place.
fn is_same_at(a: &[Bytes], b: &[Bytes], place: usize) -> bool
    ensures { IsTrue result ↔ (slice_get a.now place ≡ slice_get b.now place) }
{
    is_same_text(a.get(place), b.get(place))
}
