ghost use Rattle.std.specs.Prelude.{◌≡◌, ◌<◌, ◌+◌, ◌-◌, ◌++◌, ◌^◌, [], ℕ, IfOk, OnOk, length, slice_index_or, if◌then◌else◌, ◌==◌};
ghost use Rattle.std.specs.List.{All};
ghost use Rattle.rg_deps.specs.Places.{AreBehind, IsAscending, behind_by, edge_count, is_priority, is_thing_of, with_priority};

use crate::graph::{Edge, Thing};
use std::alloc::{AllocError, Global};

/// For each place those that come after it, once for each edge.
pub fn places_behind(
    alloc: Global,
    edges: &[Edge],
    count: usize,
) -> Result<Vec<Vec<usize>>, AllocError>
    ensures len { IfOk result (λ lists. length lists.items ≡ count) }
    ensures behind { IfOk result (λ lists. AreBehind edges.now lists.items) }
{
    let mut lists = empty_lists(alloc, count)?;
    for e in edges {
        push_behind(e, &mut lists)?;
    }
    Ok(lists)
}

fn empty_lists(alloc: Global, count: usize) -> Result<Vec<Vec<usize>>, AllocError>
    ensures len { IfOk result (λ lists. length lists.items ≡ count) }
    ensures empty { IfOk result (λ lists. All (λ list. list.items ≡ []) lists.items) }
{
    let mut lists = Vec::new(alloc);
    for _ in 0..count {
        lists.push(Vec::new(alloc))?;
    }
    Ok(lists)
}

fn push_behind(e: &Edge, lists: &mut Vec<Vec<usize>>) -> Result<(), AllocError>
    ensures len { OnOk result (length lists.new.items ≡ length lists.old.items) }
    ensures behind { OnOk result ((q : ℕ) (d : _) → q < length lists.old.items → (slice_index_or lists.new.items q d).items ≡ (slice_index_or lists.old.items q d).items ++ behind_by e.now q) }
{
    if e.to < lists.len() {
        lists[e.to].push(e.from)?;
    }
    Ok(())
}

/// How many edges each place has.
pub fn edge_counts(alloc: Global, edges: &[Edge], count: usize) -> Result<Vec<usize>, AllocError>
    ensures len { IfOk result (λ counts. length counts.items ≡ count) }
    ensures counts { IfOk result (λ counts. (p : ℕ) → p < count → slice_index_or counts.items p 0 ≡ edge_count edges.now p) }
{
    let mut counts = vec![in alloc; 0; count]?;
    for e in edges {
        add_one(e, &mut counts);
    }
    Ok(counts)
}

fn add_one(e: &Edge, counts: &mut [usize])
    requires { slice_index_or counts.old e.now.from 0 < 2 ^ 64 - 1 }
    ensures len { length counts.new ≡ length counts.old }
    ensures counts { (p : ℕ) → p < length counts.old → slice_index_or counts.new p 0 ≡ slice_index_or counts.old p 0 + (if p == e.now.from then 1 else 0) }
{
    if e.from < counts.len() {
        counts[e.from] += 1;
    }
}

/// For each place the priority of the thing there.
pub fn priorities(
    alloc: Global,
    things: &[Thing],
    count: usize,
) -> Result<Vec<Option<u64>>, AllocError>
    requires below { All (λ t. t.place < count) things.now }
    requires ascending { IsAscending things.now }
    ensures len { IfOk result (λ table. length table.items ≡ count) }
    ensures priorities { IfOk result (λ table. (n p : ℕ) → is_priority table.items n p ≡ is_thing_of things.now n p) }
{
    let mut table = vec![in alloc; None; count]?;
    for t in things {
        set_priority(t, &mut table);
    }
    Ok(table)
}

fn set_priority(t: &Thing, table: &mut [Option<u64>])
    requires { t.now.place < length table.old }
    ensures { table.new ≡ with_priority table.old t.now }
{
    table[t.place] = Some(t.priority);
}
