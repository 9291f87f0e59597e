ghost use Rattle.std.specs.Prelude.{◌≡◌, ℕ, ◌+◌, ◌<◌, ◌≤◌, ◌++◌, length, drop, replicate, slice_index_or, slice_set, MatchOption, IfSome, IfNone, IfOk};
ghost use Rattle.cell_pool.specs.Cells.{cells_for, used_cells, free_cells, IsInUse, bytes_of};
ghost use Rattle.cell_pool.specs.Made.{all_cells};

use crate::made::{Chain, Made};
use crate::region::cells_needed;
use std::alloc::{AllocError, Global};
use std::marker::Model;

/// A pool of cells of 256 bytes.
///
/// In contracts it is a list with one place for each cell: the bytes of the chain that begins in
/// that cell, or None. Each cell is free or stands once in one chain. Its memory is taken when it is
/// made, and a cell is first written when a chain needs it.
#[derive(Drop)]
pub struct Pool {
    made: Made,
}

impl Model for Pool {
    ghost use Rattle.std.specs.Prelude.{ℕ, List, Option, length, ◌≤◌};
    ghost use Rattle.cell_pool.specs.Made.{all_cells};

    ghost Value = { List (Option (List ℕ)) };

    ghost view = { λ p. all_cells p.made };

    ghost invariant = { λ p. length p.made.pool ≤ p.made.room };
}

impl Pool {
    /// A pool of `n` cells, all free. It takes all memory that the pool ever needs: 256 bytes and
    /// 12 more for each cell. For 2^24 cells or more there is no memory.
    pub fn with_cells(alloc: Global, n: u64) -> Result<Pool, AllocError>
        ensures { IfOk result (λ pool. pool ≡ replicate n None) }
    {
        let made = Made::with_room(alloc, n)?;
        Ok(Pool { made })
    }

    /// Puts the bytes into free cells, or answers None, where too few are free, and changes nothing.
    pub fn put(&mut self, bytes: &[u8]) -> Option<Chain>
        ensures exactly { MatchOption result (free_cells self.old < cells_for (length bytes.now)) (λ _. cells_for (length bytes.now) ≤ free_cells self.old) }
        ensures unchanged { IfNone result (self.new ≡ self.old) }
        ensures fresh { IfSome result (λ chain. (chain < length self.old) × (slice_index_or self.old chain None ≡ None)) }
        ensures put { IfSome result (λ chain. self.new ≡ slice_set self.old chain (Some bytes.now)) }
    {
        make_free(&mut self.made, cells_needed(bytes.len()) as u64);
        self.made.put(bytes)
    }

    /// Copies the bytes of a chain to the front of `out`, and gives their number. The rest of `out` stays.
    pub fn read(&self, chain: &Chain, out: &mut [u8]) -> u64
        requires in_use { IsInUse self.now chain.now }
        requires room { length (bytes_of self.now chain.now) ≤ length out.old }
        ensures length { result ≡ length (bytes_of self.now chain.now) }
        ensures bytes { out.new ≡ bytes_of self.now chain.now ++ drop (length (bytes_of self.now chain.now)) out.old }
    {
        self.made.read(chain, out)
    }

    /// Makes the cells of a chain free.
    pub fn give_back(&mut self, chain: Chain)
        requires { IsInUse self.old chain }
        ensures { self.new ≡ slice_set self.old chain None }
    {
        self.made.give_back(chain)
    }

    /// How many cells are free.
    pub fn free(&self) -> u64
        ensures value { result ≡ free_cells self.now }
        ensures all { used_cells self.now + result ≡ length self.now }
    {
        self.made.free() + self.made.unmade()
    }
}

/// Makes cells until so many are free, or all are made.
fn make_free(made: &mut Made, count: u64)
    requires { length made.old.pool ≤ made.old.room }
    ensures within { length made.new.pool ≤ made.new.room }
    ensures same { all_cells made.new ≡ all_cells made.old }
    ensures enough { free_cells made.new.pool < count → length made.new.pool ≡ made.new.room }
{
    while made.free() < count && made.unmade() > 0 {
        made.make();
    }
}
