// The loads that other groups bring to a node while the group is decided.
ghost use Rattle.std.specs.Prelude.{◌≡◌, ◌≤◌, ◌-◌, ◌^◌, [], false, slice_get};
ghost use Rattle.std.specs.List.{position_or_len};
ghost use Rattle.std.specs.Option.{option_map, option_map_or, option_copied};
ghost use Rattle.load_limits.specs.Loads.{brings_over, load};
ghost use Rattle.placement.specs.Loads.{brought_at, counted, counts_at, factors_of, is_entry_of, is_fixed, is_suspended, passed_limit, soft_passed};

use crate::resources::is_stop_failed;
use cl_base::{Name, NodeId};
use load_limits::{Limit, Limits, load_of};
use rg_props::{Group, Groups};
use rg_view::{Goals, GroupView};

/// The greatest load that is told: a sum that would pass it stays there.
const MOST: u64 = (1 << 63) - 1;

#[tactic(auto, unfolding(crate::specs::Loads::passed_limit))]
/// The first limit of the node whose hard bound the group would pass.
pub fn passed_limit(
    g: &Groups,
    limits: &Limits,
    view: &GroupView,
    name: &Name,
    own: &Group,
    n: NodeId,
) -> Option<Name>
    ensures { result ≡ passed_limit g.now limits.now view.entry.now name.now own.now n }
{
    limits
        .items()
        .iter()
        .find(|l| l.node == n && brings_over(g, view, name, own, l, l.hard))
        .map(|l| l.name)
}

#[tactic(auto, unfolding(crate::specs::Loads::soft_passed))]
/// How many limits of the node the group would bring above their soft bound.
pub fn soft_passed(
    g: &Groups,
    limits: &Limits,
    view: &GroupView,
    name: &Name,
    own: &Group,
    n: NodeId,
) -> u64
    ensures { result ≡ soft_passed g.now limits.now view.entry.now name.now own.now n }
{
    limits
        .items()
        .iter()
        .filter(|l| l.node == n && brings_over(g, view, name, own, l, l.soft))
        .count() as u64
}

/// Whether the group would bring the load of the limit above the bound.
fn brings_over(
    g: &Groups,
    view: &GroupView,
    name: &Name,
    own: &Group,
    l: &Limit,
    bound: u64,
) -> bool
    ensures { result ≡ brings_over (counted g.now view.entry.now name.now l.now.node) own.now.factors l.now.name bound }
{
    let load = load_of(&l.name, own.factors.items());
    load > 0 && (load + counted_load(g, view, name, l.node, &l.name)).min(MOST) > bound
}

/// The load that counts on the node before the group is placed.
fn counted_load(g: &Groups, view: &GroupView, name: &Name, n: NodeId, limit: &Name) -> u64
    ensures value { result ≡ load limit.now (counted g.now view.entry.now name.now n) }
    ensures most { result ≤ 2 ^ 63 - 1 }
{
    let own = place_of(&view.goals, name);
    let mut load = 0u64;
    for place in 0..view.goals.len() {
        load = (load + brought_at(g, view, n, limit, own, place)).min(MOST);
    }
    load
}

/// Where the group is listed, or the length of the list.
fn place_of(goals: &Goals, name: &Name) -> usize
    ensures { result ≡ position_or_len (is_entry_of name.now) goals.now }
{
    for place in 0..goals.len() {
        if is_listed_at(goals, name, place) {
            return place;
        }
    }
    goals.len()
}

fn is_listed_at(goals: &Goals, name: &Name, place: usize) -> bool
    ensures { result ≡ option_map_or (is_entry_of name.now) (slice_get goals.now place) false }
{
    match goals.get(place) {
        Some((other, _)) => other.bytes() == name.bytes(),
        None => false,
    }
}

#[tactic(auto, unfolding(load_limits::specs::Loads::load))]
/// The load that the group at the place brings to the node, where it counts.
fn brought_at(
    g: &Groups,
    view: &GroupView,
    n: NodeId,
    limit: &Name,
    own: usize,
    place: usize,
) -> u64
    ensures value { result ≡ load limit.now (option_map_or (brought_at g.now view.entry.now n own place) (slice_get view.entry.now.goals place) []) }
    ensures most { result ≤ 2 ^ 63 - 1 }
{
    let Some((name, goal)) = view.goals.get(place) else {
        return 0;
    };
    if goal.has(n) && counts_at(g, view, &name, own, place) {
        group_load(limit, g.group(&name))
    } else {
        0
    }
}

fn counts_at(g: &Groups, view: &GroupView, name: &Name, own: usize, place: usize) -> bool
    ensures { result ≡ counts_at own place (is_fixed g.now view.entry.now name.now) }
{
    place < own || (place > own && is_fixed(g, view, name))
}

#[tactic(auto, unfolding(load_limits::specs::Loads::load))]
fn group_load(limit: &Name, group: Option<&Group>) -> u64
    ensures value { result ≡ load limit.now (factors_of (option_copied group.entry)) }
    ensures most { result ≤ 2 ^ 63 - 1 }
{
    match group {
        Some(group) => load_of(limit, group.factors.items()),
        None => 0,
    }
}

#[tactic(auto, unfolding(crate::specs::Loads::is_fixed))]
/// Whether the group is fixed: stop-failed on a member, or suspended. Its goal rests on no other
/// group's, and a decision sets it before the others.
pub fn is_fixed(g: &Groups, view: &GroupView, name: &Name) -> bool
    ensures value { result ≡ is_fixed g.now view.entry.now name.now }
{
    is_suspended(g.group(name)) || is_stop_failed(g, view, name)
}

fn is_suspended(group: Option<&Group>) -> bool
    ensures { result ≡ is_suspended (option_copied group.entry) }
{
    match group {
        Some(group) => group.suspended,
        None => false,
    }
}
