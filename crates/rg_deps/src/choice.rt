ghost use Rattle.std.specs.Prelude.{◌≡◌, ◌<◌, ◌+◌, ◌-◌, ◌==◌, ◌&&◌, ◌||◌, ℕ, IfOk, OnOk, length, slice_index_or, if◌then◌else◌, None};
ghost use Rattle.std.specs.List.{All};
ghost use Rattle.rg_deps.specs.Choice.{has_rank, is_among, times};
ghost use Rattle.rg_deps.specs.Flags.{flag};
ghost use Rattle.rg_deps.specs.Order.{ordered, stands};
ghost use Rattle.rg_deps.specs.Places.{IsAscending, is_priority, is_thing_of};

use crate::graph::{Edge, Thing};
use crate::places::{edge_counts, places_behind, priorities};
use std::alloc::{AllocError, Global};
use std::cmp::Reverse;
use std::collections::BTreeSet;

/// The places in an order, and for each place whether it is in it.
#[derive(Drop)]
pub struct Chosen {
    /// The order.
    pub order: Vec<usize>,
    /// The flags of the places.
    pub standing: Vec<bool>,
}

/// What may come: the greatest priority first, and of these the first place.
type Ranks = BTreeSet<(Reverse<u64>, usize)>;

#[tactic(auto, using(crate::proofs::Steps::chosen_more))]
/// Each time the first of the greatest priority that does not stand while all its targets do. The
/// steps are in proportion to the things and edges, and to the logarithm of the things.
pub fn choose(
    alloc: Global,
    things: &[Thing],
    edges: &[Edge],
    count: usize,
) -> Result<Chosen, AllocError>
    requires below { All (λ t. t.place < count) things.now }
    requires ascending { IsAscending things.now }
    ensures order { IfOk result (λ c. c.order.items ≡ ordered things.now edges.now) }
    ensures flags { IfOk result (λ c. flag c.standing.items ≡ stands c.order.items) }
{
    let behind = places_behind(alloc, edges, count)?;
    let priorities = priorities(alloc, things, count)?;
    let mut waiting = edge_counts(alloc, edges, count)?;
    let mut ready = first_ranks(alloc, things, &waiting)?;
    let mut standing = vec![in alloc; false; count]?;
    let mut order = Vec::new(alloc);
    for _ in 0..things.len() {
        if let Some((_, place)) = ready.pop_first() {
            standing[place] = true;
            order.push(place)?;
            release(&behind[place], &priorities, &mut waiting, &mut ready)?;
        }
    }
    Ok(Chosen { order, standing })
}

/// The things that wait for none.
fn first_ranks(alloc: Global, things: &[Thing], waiting: &[usize]) -> Result<Ranks, AllocError>
    ensures { IfOk result (λ ready. (n p : ℕ) → has_rank ready n p ≡ (is_thing_of things.now n p && (slice_index_or waiting.now p 0 == 0))) }
{
    let mut ready = BTreeSet::new(alloc);
    for t in things {
        enter(t.priority, t.place, waiting, &mut ready)?;
    }
    Ok(ready)
}

/// One target less for each of these places; what waits for none now may come.
fn release(
    places: &[usize],
    priorities: &[Option<u64>],
    waiting: &mut [usize],
    ready: &mut Ranks,
) -> Result<(), AllocError>
    ensures len { OnOk result (length waiting.new ≡ length waiting.old) }
    ensures waiting { OnOk result ((p : ℕ) → slice_index_or waiting.new p 0 ≡ slice_index_or waiting.old p 0 - times places.now p) }
    ensures ready { OnOk result ((n p : ℕ) → has_rank ready.new n p ≡ (has_rank ready.old n p || (is_among places.now p && (is_priority priorities.now n p && (slice_index_or waiting.new p 0 == 0))))) }
{
    for place in places {
        take_off(*place, priorities, waiting, ready)?;
    }
    Ok(())
}

/// One target less for this place.
fn take_off(
    place: usize,
    priorities: &[Option<u64>],
    waiting: &mut [usize],
    ready: &mut Ranks,
) -> Result<(), AllocError>
    ensures len { OnOk result (length waiting.new ≡ length waiting.old) }
    ensures waiting { OnOk result ((p : ℕ) → slice_index_or waiting.new p 0 ≡ slice_index_or waiting.old p 0 - (if p == place then 1 else 0)) }
    ensures ready { OnOk result ((n p : ℕ) → has_rank ready.new n p ≡ (has_rank ready.old n p || ((p == place) && (is_priority priorities.now n p && (slice_index_or waiting.new p 0 == 0))))) }
{
    take_one(place, waiting);
    match priority_at(priorities, place) {
        Some(priority) => enter(priority, place, waiting, ready),
        None => Ok(()),
    }
}

/// One less at this place.
fn take_one(place: usize, waiting: &mut [usize])
    ensures len { length waiting.new ≡ length waiting.old }
    ensures waiting { (p : ℕ) → slice_index_or waiting.new p 0 ≡ slice_index_or waiting.old p 0 - (if p == place then 1 else 0) }
{
    if place < waiting.len() {
        waiting[place] = waiting[place].saturating_sub(1);
    }
}

fn priority_at(priorities: &[Option<u64>], place: usize) -> Option<u64>
    ensures { result ≡ slice_index_or priorities.now place None }
{
    if place < priorities.len() {
        priorities[place]
    } else {
        None
    }
}

/// Whether a place of no target that is left.
fn waits_for_none(place: usize, waiting: &[usize]) -> bool
    ensures { result ≡ (slice_index_or waiting.now place 0 == 0) }
{
    place >= waiting.len() || waiting[place] == 0
}

/// It may come, where it waits for none.
fn enter(
    priority: u64,
    place: usize,
    waiting: &[usize],
    ready: &mut Ranks,
) -> Result<(), AllocError>
    ensures { OnOk result ((n p : ℕ) → has_rank ready.new n p ≡ (has_rank ready.old n p || (((p == place) && (n == priority)) && (slice_index_or waiting.now place 0 == 0)))) }
{
    if waits_for_none(place, waiting) {
        ready.insert((Reverse(priority), place))?;
    }
    Ok(())
}
