ghost use Rattle.std.specs.Prelude.{◌≡◌, ◌↔◌, ◌+◌, IsTrue, IsSome, IfOk, OnErr, option_copied, length, if◌then◌else◌};
ghost use Rattle.ccr_commit.specs.Entries.{no_entries, texts_of, all_committed, answer_for, left_by};

use cl_base::Bytes;
use std::alloc::{AllocError, Global};
use std::marker::Model;

/// How a text for a place is answered.
#[derive(Clone, Copy, Debug, PartialEq, Eq)]
pub enum Prepared {
    /// It is the last entry now, and pending.
    Taken,
    /// The place has its entry already.
    Already,
    /// Entries before the place are missing; the one that is wanted next is for this place.
    Gap(u64),
}

/// The entries of the configuration repository, in order of places, which count from 1. They are
/// one list of texts, of which the last may still be pending. Contracts see the committed texts
/// and the pending one.
#[derive(Debug, Drop)]
pub struct Entries {
    texts: Vec<Bytes>,
    // All the texts, or all but the last.
    committed: usize,
}

impl Model for Entries {
    ghost use Rattle.std.specs.Prelude.{◌+◌, ◌≤◌, take, length, slice_get};
    ghost use Rattle.ccr_commit.specs.Entries.{EntryList};

    ghost Value = { EntryList };

    ghost view = { λ e. record { committed = take e.committed e.texts.items; pending = slice_get e.texts.items e.committed } };

    ghost invariant = { λ e. (e.committed ≤ length e.texts.items) × (length e.texts.items ≤ e.committed + 1) };
}

impl Entries {
    /// No entry. This takes no memory.
    pub fn new(alloc: Global) -> Entries
        ensures value { result ≡ no_entries }
    {
        Entries {
            texts: Vec::new(alloc),
            committed: 0,
        }
    }

    /// The committed texts, in order of places from 1.
    pub fn committed(&self) -> &[Bytes]
        ensures value { result.now ≡ self.now.committed }
    {
        &self.texts[..self.committed]
    }

    /// The pending text, whose place is the one after the committed ones.
    pub fn pending(&self) -> Option<&Bytes>
        ensures value { option_copied result ≡ self.now.pending }
    {
        self.texts.get(self.committed)
    }

    /// Takes the text for this place: exactly at the place after the last entry it becomes the
    /// pending one, and a text that was pending before it is committed. Where memory runs out,
    /// which only a text that would be taken can meet, nothing has changed.
    pub fn prepare(&mut self, place: u64, text: &[u8]) -> Result<Prepared, AllocError>
        ensures answer { IfOk result (λ p. p ≡ answer_for (length (texts_of self.old)) place) }
        ensures after { IfOk result (λ p. self.new ≡ left_by p self.old text.now) }
        ensures no_memory { OnErr result (self.new ≡ self.old) }
        ensures wanted { OnErr result (place ≡ length (texts_of self.old) + 1) }
    {
        let count = self.texts.len();
        let wanted = count as u64 + 1;
        if place < wanted {
            return Ok(Prepared::Already);
        }
        if place > wanted {
            return Ok(Prepared::Gap(wanted));
        }
        let copy = text.to_vec(*self.texts.allocator())?;
        self.texts.push(Bytes::new(copy))?;
        self.committed = count;
        Ok(Prepared::Taken)
    }

    /// Commits the pending text where this is its place. Answers whether it did; else nothing
    /// changes.
    pub fn commit(&mut self, place: u64) -> bool
        ensures answer { IsTrue result ↔ (IsSome self.old.pending × (place ≡ length self.old.committed + 1)) }
        ensures after { self.new ≡ (if result then all_committed self.old else self.old) }
    {
        let is_pending = self.pending().is_some() && place == self.committed as u64 + 1;
        if is_pending {
            self.commit_pending();
        }
        is_pending
    }

    /// Commits the pending text, if there is one.
    pub fn commit_pending(&mut self)
        ensures after { self.new ≡ all_committed self.old }
    {
        self.committed = self.texts.len();
    }
}
