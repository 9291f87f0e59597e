ghost use Rattle.std.specs.Prelude.{◌≡◌, ◌≢◌, ◌==◌, ℕ, ◌+◌, ◌^◌, ◌<◌, ◌≤◌, ◌++◌, ◌∷◌, [], length, filter, find, map, not, slice_index, IfSome, IfNone, IfOk};
ghost use Rattle.std.specs.Option.{option_map};
ghost use Rattle.std.specs.VecDeque.{deque_len, deque_capacity};
ghost use Rattle.interconnect.specs.Places.{sweeping, live, first_held_from, IsOrdered};

use std::alloc::{AllocError, Global};
use std::collections::VecDeque;
use std::marker::Model;
use std::mem;

/// A place for the key of the packet of a number. It is empty once the packet has left.
#[derive(Drop)]
struct Place {
    number: u64,
    key: Option<u32>,
}

/// The keys of the packets in flight in the order of their numbers, to be found by number.
///
/// They stand in places, first the swept, then the unswept. A packet is found by halving, and one
/// that leaves only empties its place, so that no other moves. Each packet that comes sweeps four
/// places, lest empty ones pile up: a place with a packet goes over to the swept, an empty one is
/// given up, and when all are swept they are the unswept again. With four for one, each list keeps
/// within three places for two packets, and two more.
#[derive(Drop)]
pub(crate) struct ByNumber {
    swept: VecDeque<Place>,
    unswept: VecDeque<Place>,
    next: u64,
    most: usize,
}

impl Model for ByNumber {
    ghost use Rattle.std.specs.Prelude.{◌++◌};
    ghost use Rattle.interconnect.specs.Places.{Numbered};

    ghost Value = { Numbered };

    ghost use Rattle.std.specs.VecDeque.{deque_capacity};
    ghost use Rattle.interconnect.specs.Places.{live, IsKept};

    ghost view = { λ b. record { held = live (b.swept.items ++ b.unswept.items); next = b.next; most = b.most } };

    ghost invariant = { λ b. IsKept b.swept.items b.unswept.items (deque_capacity b.swept) (deque_capacity b.unswept) b.most b.next };
}

impl ByNumber {
    /// No packet, and room for so many.
    pub(crate) fn new(alloc: Global, most: u64) -> Result<ByNumber, AllocError>
        ensures { IfOk result (λ b. b ≡ record { held = []; next = 1; most = most }) }
    {
        let most = most as usize;
        let places = most.saturating_add(most.div_ceil(2)).saturating_add(2);
        let swept = VecDeque::with_capacity(alloc, places)?;
        let unswept = VecDeque::with_capacity(alloc, places)?;
        Ok(ByNumber {
            swept,
            unswept,
            next: 1,
            most,
        })
    }

    /// The number of the next packet.
    pub(crate) fn next(&self) -> u64
        ensures { result ≡ self.now.next }
    {
        self.next
    }

    /// Uses up a number.
    pub(crate) fn skip(&mut self)
        requires { self.old.next < 2 ^ 63 }
        ensures { self.new ≡ record self.old { next = self.old.next + 1 } }
    {
        self.next += 1;
    }

    /// Gives the packet of a key the next number. Four places are swept.
    pub(crate) fn push(&mut self, key: u32)
        requires number { self.old.next < 2 ^ 63 }
        requires room { length self.old.held < self.old.most }
        ensures { self.new ≡ record self.old { held = self.old.held ++ (record { number = self.old.next; key = key }) ∷ []; next = self.old.next + 1 } }
    {
        let number = self.next;
        self.next = number + 1;
        let key = Some(key);
        self.unswept.push_back_reserved(Place { number, key });
        sweep(&mut self.swept, &mut self.unswept);
        sweep(&mut self.swept, &mut self.unswept);
        sweep(&mut self.swept, &mut self.unswept);
        sweep(&mut self.swept, &mut self.unswept);
    }

    /// The key of the packet of a number.
    pub(crate) fn find(&self, number: u64) -> Option<u32>
        ensures { result ≡ option_map (λ h. h.key) (find (λ h. h.number == number) self.now.held) }
    {
        if let Some(place) = place_of(&self.swept, number) {
            return self.swept[place].key;
        }
        let place = place_of(&self.unswept, number)?;
        self.unswept[place].key
    }

    /// The number of the first packet from a number on.
    pub(crate) fn first_from(&self, number: u64) -> Option<u64>
        ensures { result ≡ first_held_from self.now.held number }
    {
        if let Some(first) = first_in(&self.swept, number) {
            return Some(first);
        }
        first_in(&self.unswept, number)
    }

    /// Takes the packet of a number out, and gives its key.
    pub(crate) fn remove(&mut self, number: u64) -> Option<u32>
        ensures found { result ≡ option_map (λ h. h.key) (find (λ h. h.number == number) self.old.held) }
        ensures after { self.new ≡ record self.old { held = filter (λ h. not (h.number == number)) self.old.held } }
    {
        if let Some(place) = place_of(&self.swept, number) {
            return self.swept[place].key.take();
        }
        let place = place_of(&self.unswept, number)?;
        self.unswept[place].key.take()
    }
}

/// Sweeps one place, or begins anew where all are swept.
fn sweep(swept: &mut VecDeque<Place>, unswept: &mut VecDeque<Place>)
    requires { deque_len swept.old < deque_capacity swept.old }
    ensures swept { swept.new.items ≡ (sweeping swept.old.items unswept.old.items).swept }
    ensures unswept { unswept.new.items ≡ (sweeping swept.old.items unswept.old.items).unswept }
    ensures room { (n : ℕ) → n ≤ deque_capacity swept.old → n ≤ deque_capacity unswept.old → n ≤ deque_capacity swept.new }
    ensures room_behind { (n : ℕ) → n ≤ deque_capacity swept.old → n ≤ deque_capacity unswept.old → n ≤ deque_capacity unswept.new }
{
    let Some(place) = unswept.pop_front() else {
        mem::swap(swept, unswept);
        return;
    };
    if place.key.is_some() {
        swept.push_back_reserved(place);
    }
}

/// Where the place of a number is in a list, which is in the order of the numbers.
fn place_of(places: &VecDeque<Place>, number: u64) -> Option<usize>
    requires { (i k : ℕ) → i < k → k < length places.now.items → slice_index (map (λ p. p.number) places.now.items) i < slice_index (map (λ p. p.number) places.now.items) k }
    ensures found { IfSome result (λ i. (i < length places.now.items) × (slice_index (map (λ p. p.number) places.now.items) i ≡ number)) }
    ensures none { IfNone result ((k : ℕ) → k < length places.now.items → slice_index (map (λ p. p.number) places.now.items) k ≢ number) }
{
    let place = place_from(places, number);
    if place < places.len() && places[place].number == number {
        return Some(place);
    }
    None
}

/// The number of the first packet of a list, which is in the order of the numbers, from a number on.
fn first_in(places: &VecDeque<Place>, number: u64) -> Option<u64>
    requires { IsOrdered places.now.items }
    ensures { result ≡ first_held_from (live places.now.items) number }
{
    let mut place = place_from(places, number);
    while place < places.len() {
        let here = &places[place];
        if here.key.is_some() {
            return Some(here.number);
        }
        place += 1;
    }
    None
}

/// The first place of a list, which is in the order of the numbers, from a number on, by halving.
fn place_from(places: &VecDeque<Place>, number: u64) -> usize
    requires { (i k : ℕ) → i < k → k < length places.now.items → slice_index (map (λ p. p.number) places.now.items) i < slice_index (map (λ p. p.number) places.now.items) k }
    ensures within { result ≤ length places.now.items }
    ensures below { (k : ℕ) → k < result → slice_index (map (λ p. p.number) places.now.items) k < number }
    ensures from { (k : ℕ) → result ≤ k → k < length places.now.items → number ≤ slice_index (map (λ p. p.number) places.now.items) k }
{
    let mut low = 0;
    let mut high = places.len();
    while low < high {
        let middle = low + (high - low) / 2;
        if places[middle].number < number {
            low = middle + 1;
        } else {
            high = middle;
        }
    }
    low
}
