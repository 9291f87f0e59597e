// On what it rests whether a resource must go down.
ghost use Rattle.std.specs.Prelude.{◌≡◌, false, slice_get};
ghost use Rattle.std.specs.List.{list_any};
ghost use Rattle.std.specs.Option.{option_copied, option_map_or};
ghost use Rattle.rg_props.specs.Settings.{has_name};
ghost use Rattle.sequencer.specs.Resting.{follows_one, has_one, is_in_order, is_one_in, is_resting, leads_there, rests_on, targets_one};

use cl_base::Name;
use rg_props::{Affine, Group, Groups, Resource};

/// Whether each of these resources comes once, and after what it rests on.
pub fn is_in_order(g: &Groups, order: &[Name]) -> bool
    ensures value { result ≡ is_in_order g.now order.now }
{
    let mut left = order;
    while let [name, rest @ ..] = left {
        if has_name(name, rest) || is_resting(g, left, g.resource(name)) {
            return false;
        }
        left = rest;
    }
    true
}

fn is_resting(g: &Groups, names: &[Name], r: Option<&Resource>) -> bool
    ensures { result ≡ is_resting g.now names.now (option_copied r.entry) }
{
    match r {
        Some(r) => rests_on(g, names, r),
        None => false,
    }
}

#[tactic(auto, unfolding(crate::specs::Resting::rests_on))]
/// Whether the resource rests on one of these.
pub fn rests_on(g: &Groups, names: &[Name], r: &Resource) -> bool
    ensures { result ≡ rests_on g.now names.now r.now }
{
    targets_one(names, r.strong.items())
        || targets_one(names, r.offline_restart.items())
        || follows_one(g, names, g.group(&r.group))
}

fn targets_one(names: &[Name], targets: &[Name]) -> bool
    ensures { result ≡ targets_one names.now targets.now }
{
    targets.iter().any(|target| has_name(target, names))
}

/// Whether the name is one of these.
pub fn has_name(name: &Name, names: &[Name]) -> bool
    ensures { result ≡ has_name name.now names.now }
{
    names.iter().any(|n| n.bytes() == name.bytes())
}

fn follows_one(g: &Groups, names: &[Name], group: Option<&Group>) -> bool
    ensures { result ≡ follows_one g.now names.now (option_copied group.entry) }
{
    match group {
        Some(group) => leads_one(g, names, group.affinities.items()),
        None => false,
    }
}

fn leads_one(g: &Groups, names: &[Name], affinities: &[Affine]) -> bool
    ensures { result ≡ list_any (leads_there g.now names.now) affinities.now }
{
    affinities.iter().any(|a| leads_there(g, names, a))
}

fn leads_there(g: &Groups, names: &[Name], a: &Affine) -> bool
    ensures { result ≡ leads_there g.now names.now a.now }
{
    a.affinity.is_close() && has_one(g, names, &a.group)
}

/// Whether a resource of the group is one of these.
fn has_one(g: &Groups, names: &[Name], group: &Name) -> bool
    ensures { result ≡ has_one g.now names.now group.now }
{
    for place in 0..g.resource_count() {
        if is_one_at(g, names, group, place) {
            return true;
        }
    }
    false
}

fn is_one_at(g: &Groups, names: &[Name], group: &Name, place: usize) -> bool
    ensures { result ≡ option_map_or (is_one_in names.now group.now) (slice_get g.now.resources place) false }
{
    match g.resource_at(place) {
        Some((name, r)) => r.group.bytes() == group.bytes() && has_name(name, names),
        None => false,
    }
}
