ghost use Rattle.std.specs.Prelude.{◌≡◌, ◌≤◌, ◌==◌, [], ℕ, Some, IfOk, OnOk, IfSome, if◌then◌else◌, length, nat_eq};
ghost use Rattle.std.specs.BTreeMap.{get};
ghost use Rattle.std.specs.List.{position};
ghost use Rattle.std.specs.Option.{unwrap_or};
ghost use Rattle.std.specs.Ordering.{nat_cmp};
ghost use Rattle.rg_deps.specs.Cycles.{earlier, first_target, from_place, walk};
ghost use Rattle.rg_deps.specs.Flags.{flag};

use crate::arrange::is_flagged;
use crate::graph::Edge;
use std::alloc::{AllocError, Global};
use std::collections::{BTreeMap, BTreeSet};

/// From a place always on to its first target that is not standing, until one comes again: the path
/// from that one on. There are at most so many steps.
pub fn cycle(
    alloc: Global,
    edges: &[Edge],
    standing: &[bool],
    steps: usize,
    first: usize,
) -> Result<Vec<usize>, AllocError>
    ensures { IfOk result (λ path. path.items ≡ walk (first_target edges.now (flag standing.now)) steps [] (Some first)) }
{
    let targets = first_targets(alloc, edges, standing)?;
    let mut path = Vec::new(alloc);
    let mut seen = BTreeSet::new(alloc);
    let mut at = Some(first);
    for _ in 0..steps {
        let Some(place) = at else {
            return Ok(Vec::new(alloc));
        };
        let new = seen.insert(place)?;
        if !new {
            return from_place(path, place);
        }
        path.push(place)?;
        at = target_of(&targets, place);
    }
    Ok(Vec::new(alloc))
}

fn from_place(mut path: Vec<usize>, place: usize) -> Result<Vec<usize>, AllocError>
    ensures { IfOk result (λ rest. rest.items ≡ from_place place path.items) }
{
    let i = place_in(&path, place);
    path.split_off(i)
}

fn place_in(path: &[usize], place: usize) -> usize
    ensures value { result ≡ unwrap_or (position (nat_eq place) path.now) (length path.now) }
    ensures most { result ≤ length path.now }
{
    match find_place(path, place) {
        Some(i) => i,
        None => path.len(),
    }
}

fn find_place(path: &[usize], place: usize) -> Option<usize>
    ensures value { result ≡ position (nat_eq place) path.now }
    ensures most { IfSome result (λ i. i ≤ length path.now) }
{
    path.iter().position(|p| place == *p)
}

/// The first created target of each place that is not standing.
fn first_targets(
    alloc: Global,
    edges: &[Edge],
    standing: &[bool],
) -> Result<BTreeMap<usize, usize>, AllocError>
    ensures { IfOk result (λ targets. (p : ℕ) → get nat_cmp targets p ≡ first_target edges.now (flag standing.now) p) }
{
    let mut targets = BTreeMap::new(alloc);
    for e in edges {
        if !is_flagged(standing, e.to) {
            add_target(e, &mut targets)?;
        }
    }
    Ok(targets)
}

fn add_target(e: &Edge, targets: &mut BTreeMap<usize, usize>) -> Result<(), AllocError>
    ensures { OnOk result ((p : ℕ) → get nat_cmp targets.new p ≡ (if e.now.from == p then earlier (get nat_cmp targets.old p) e.now else get nat_cmp targets.old p)) }
{
    let first = target_of(targets, e.from);
    targets.insert(e.from, earlier(first, e))?;
    Ok(())
}

fn target_of(targets: &BTreeMap<usize, usize>, place: usize) -> Option<usize>
    ensures { result ≡ get nat_cmp targets.now place }
{
    targets.get(&place).copied()
}

fn earlier(first: Option<usize>, e: &Edge) -> usize
    ensures { Some result ≡ earlier first e.now }
{
    match first {
        Some(p) => p.min(e.to),
        None => e.to,
    }
}
