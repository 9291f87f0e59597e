// How the places that must go down are brought up to date.
ghost use Rattle.std.specs.Prelude.{◌≡◌, ◌∷◌, ◌++◌, [], IfOk, OnOk};
ghost use Rattle.sequencer.specs.Renewals.{renewed, turning, with_anew, with_place_anew, with_resource_anew};

use crate::direction::Direction;
use crate::leaving::must_go;
use crate::resting::rests_on;
use cl_base::{Name, NodeId};
use rg_props::{Groups, Resource};
use rg_view::{GroupView, Marks, NoMemory};
use std::alloc::Global;

/// Brings the places up to date, after something changed of the resource of this name.
pub fn renew(
    alloc: Global,
    direction: Direction,
    g: &Groups,
    view: &GroupView,
    members: &[NodeId],
    order: &[Name],
    name: &Name,
    going: &mut Marks,
) -> Result<(), NoMemory>
    ensures { OnOk result (going.new ≡ renewed direction g.now view.entry.now members.now order.now name.now going.old) }
{
    let mut changed = Vec::new(alloc);
    push(&mut changed, name)?;
    for next in order {
        renew_resource(direction, g, view, members, next, going, &mut changed)?;
    }
    Ok(())
}

fn push(names: &mut Vec<Name>, name: &Name) -> Result<(), NoMemory>
    ensures { OnOk result (names.new.items ≡ names.old.items ++ name.now ∷ []) }
{
    match names.push(*name) {
        Ok(()) => Ok(()),
        Err(_) => Err(NoMemory),
    }
}

fn renew_resource(
    direction: Direction,
    g: &Groups,
    view: &GroupView,
    members: &[NodeId],
    name: &Name,
    going: &mut Marks,
    changed: &mut Vec<Name>,
) -> Result<(), NoMemory>
    ensures { OnOk result (record { going = going.new; changed = changed.new.items } ≡ with_anew direction g.now view.entry.now members.now (record { going = going.old; changed = changed.old.items }) name.now) }
{
    match g.resource(name) {
        Some(r) => renew_found(direction, g, view, members, name, r, going, changed),
        None => Ok(()),
    }
}

/// Looks at the places of the resource anew, where it rests on one of which something changed.
fn renew_found(
    direction: Direction,
    g: &Groups,
    view: &GroupView,
    members: &[NodeId],
    name: &Name,
    r: &Resource,
    going: &mut Marks,
    changed: &mut Vec<Name>,
) -> Result<(), NoMemory>
    ensures { OnOk result (record { going = going.new; changed = changed.new.items } ≡ with_resource_anew direction g.now view.entry.now members.now (record { going = going.old; changed = changed.old.items }) name.now r.now) }
{
    if !rests_on(g, changed, r) {
        return Ok(());
    }
    if turn_places(direction, g, view, members, name, r, going)? {
        push(changed, name)?;
    }
    Ok(())
}

/// Looks at its places anew; whether one changed.
fn turn_places(
    direction: Direction,
    g: &Groups,
    view: &GroupView,
    members: &[NodeId],
    name: &Name,
    r: &Resource,
    going: &mut Marks,
) -> Result<bool, NoMemory>
    ensures { IfOk result (λ turned. record { going = going.new; turned = turned } ≡ turning direction g.now view.entry.now members.now name.now r.now going.old) }
{
    let mut turned = false;
    for n in members {
        turn_place(direction, g, view, members, name, r, *n, going, &mut turned)?;
    }
    Ok(turned)
}

fn turn_place(
    direction: Direction,
    g: &Groups,
    view: &GroupView,
    members: &[NodeId],
    name: &Name,
    r: &Resource,
    n: NodeId,
    going: &mut Marks,
    turned: &mut bool,
) -> Result<(), NoMemory>
    ensures { OnOk result (record { going = going.new; turned = turned.new } ≡ with_place_anew direction g.now view.entry.now members.now name.now r.now (record { going = going.old; turned = turned.old }) n) }
{
    let was = going.has(name, n);
    let goes = must_go(direction, g, view, members, going, name, r, n);
    if was && !goes {
        going.remove(name, n);
        *turned = true;
    }
    if goes && !was {
        going.add(name, n)?;
        *turned = true;
    }
    Ok(())
}
