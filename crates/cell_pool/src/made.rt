ghost use Rattle.std.specs.Prelude.{◌≡◌, ℕ, ◌+◌, ◌-◌, ◌^◌, ◌<◌, ◌≤◌, ◌++◌, ◌∷◌, length, drop, [], Some, None, unwrap_or, slice_index_or, slice_set, MatchOption, IfSome, IfNone, IfOk};
ghost use Rattle.cell_pool.specs.Cells.{cells_for, used_cells, free_cells, IsInUse, bytes_of};

use crate::region::{cells_needed, copy_out, fill, last_cell};
use std::alloc::{AllocError, Global};
use std::marker::Model;

/// The first number of cells that is too great: a chain of fewer has a length of 32 bits.
const TOO_MANY: u64 = 1 << 24;

/// A chain of cells in a pool, with the bytes that were put there.
///
/// There is no copy of it. Its cells stay taken until it goes back by [`Pool::give_back`].
#[derive(Drop)]
pub struct Chain {
    first: u32,
}

impl Model for Chain {
    ghost use Rattle.std.specs.Prelude.{ℕ};

    ghost Value = { ℕ };

    ghost view = { λ c. c.first };
}

/// The cells that are made so far, and room for those that are not.
#[derive(Drop)]
pub(crate) struct Made {
    cells: Vec<[u8; 256]>,
    links: Vec<u32>,
    lengths: Vec<Option<u32>>,
    free_first: u32,
    free_count: usize,
    room: usize,
}

impl Model for Made {
    ghost use Rattle.cell_pool.specs.Made.{Making};

    ghost Value = { Making };

    ghost use Rattle.std.specs.Prelude.{vec_capacity};
    ghost use Rattle.cell_pool.specs.Region.{chains_from};
    ghost use Rattle.cell_pool.specs.Made.{IsMade};

    ghost view = { λ m. record { pool = chains_from m.cells.items m.links.items 0 m.lengths.items; room = m.room } };

    ghost invariant = { λ m. IsMade m.cells.items m.links.items m.lengths.items m.free_first m.free_count m.room (vec_capacity m.cells) (vec_capacity m.links) (vec_capacity m.lengths) };
}

impl Made {
    /// No cell, and room for `n`. For 2^24 cells or more there is no memory.
    pub(crate) fn with_room(alloc: Global, n: u64) -> Result<Made, AllocError>
        ensures { IfOk result (λ made. made ≡ record { pool = []; room = n }) }
    {
        if n >= TOO_MANY {
            return Err(AllocError);
        }
        let room = n as usize;
        let cells = Vec::with_capacity(alloc, room)?;
        let links = Vec::with_capacity(alloc, room)?;
        let lengths = Vec::with_capacity(alloc, room)?;
        Ok(Made {
            cells,
            links,
            lengths,
            free_first: 0,
            free_count: 0,
            room,
        })
    }

    /// How many cells are not made yet.
    pub(crate) fn unmade(&self) -> u64
        ensures left { result ≡ self.now.room - length self.now.pool }
        ensures few { self.now.room < 2 ^ 24 }
    {
        (self.room - self.lengths.len()) as u64
    }

    /// Makes one more cell, which is free.
    pub(crate) fn make(&mut self)
        requires { length self.old.pool < self.old.room }
        ensures { self.new ≡ record self.old { pool = self.old.pool ++ None ∷ [] } }
    {
        let cell = self.lengths.len() as u32;
        self.cells.push_reserved([0; 256]);
        self.links.push_reserved(self.free_first);
        self.lengths.push_reserved(None);
        self.free_first = cell;
        self.free_count += 1;
    }

    /// Puts the bytes into free cells, or answers None, where too few are free, and changes nothing.
    pub(crate) fn put(&mut self, bytes: &[u8]) -> Option<Chain>
        ensures exactly { MatchOption result (free_cells self.old.pool < cells_for (length bytes.now)) (λ _. cells_for (length bytes.now) ≤ free_cells self.old.pool) }
        ensures unchanged { IfNone result (self.new ≡ self.old) }
        ensures fresh { IfSome result (λ chain. (chain < length self.old.pool) × (slice_index_or self.old.pool chain None ≡ None)) }
        ensures put { IfSome result (λ chain. self.new ≡ record self.old { pool = slice_set self.old.pool chain (Some bytes.now) }) }
    {
        let count = cells_needed(bytes.len());
        if self.free_count < count {
            return None;
        }
        let first = self.free_first;
        self.free_first = fill(&mut self.cells, &self.links, first, count, bytes);
        self.free_count -= count;
        self.lengths[first as usize] = Some(bytes.len() as u32);
        Some(Chain { first })
    }

    /// Copies the bytes of a chain to the front of `out`, and gives their number. The rest of `out` stays.
    pub(crate) fn read(&self, chain: &Chain, out: &mut [u8]) -> u64
        requires in_use { IsInUse self.now.pool chain.now }
        requires room { length (bytes_of self.now.pool chain.now) ≤ length out.old }
        ensures length { result ≡ length (bytes_of self.now.pool chain.now) }
        ensures bytes { out.new ≡ bytes_of self.now.pool chain.now ++ drop (length (bytes_of self.now.pool chain.now)) out.old }
    {
        let size = length_at(&self.lengths, chain.first);
        copy_out(
            &self.cells,
            &self.links,
            chain.first,
            cells_needed(size),
            size,
            out,
        );
        size as u64
    }

    /// Makes the cells of a chain free.
    pub(crate) fn give_back(&mut self, chain: Chain)
        requires { IsInUse self.old.pool chain }
        ensures { self.new ≡ record self.old { pool = slice_set self.old.pool chain None } }
    {
        let Chain { first } = chain;
        let count = cells_needed(length_at(&self.lengths, first));
        let last = last_cell(&self.links, first, count);
        self.links[last as usize] = self.free_first;
        self.lengths[first as usize] = None;
        self.free_first = first;
        self.free_count += count;
    }

    /// How many of the made cells are free.
    pub(crate) fn free(&self) -> u64
        ensures value { result ≡ free_cells self.now.pool }
        ensures all { used_cells self.now.pool + result ≡ length self.now.pool }
    {
        self.free_count as u64
    }
}

/// The length of the chain that begins at a place, or 0.
fn length_at(lengths: &[Option<u32>], place: u32) -> usize
    requires { place < length lengths.now }
    ensures { result ≡ unwrap_or (slice_index_or lengths.now place None) 0 }
{
    lengths[place as usize].unwrap_or(0) as usize
}
