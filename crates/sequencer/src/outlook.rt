ghost use Rattle.std.specs.Prelude.{◌≡◌, [], fold, slice_get, true, IfOk, OnOk};
ghost use Rattle.std.specs.Option.{option_copied, option_map_or};
ghost use Rattle.rg_view.specs.Marks.{is_marked, marks_with};
ghost use Rattle.sequencer.specs.Leaving.{going_of, with_place, with_places, with_resource};
ghost use Rattle.rg_props.specs.Lookups.{named};
ghost use Rattle.sequencer.specs.Allowed.{has_up_call};
ghost use Rattle.sequencer.specs.Kept.{goal_for, kept_outlook, outlook_renewed, risen, with_going_renewed, with_risings_of};
ghost use Rattle.sequencer.specs.Outlooks.{members_of, outlook_of, with_rising, with_risings, without_risings};
ghost use Rattle.sequencer.specs.Resting.{is_in_order};
ghost use Rattle.sequencer.specs.Shown.{FollowsOrder, Shows, awaited};

use crate::direction::Direction;
use crate::leaving::must_go;
use crate::methods::has_up_call;
use crate::renewing::renew;
use crate::resting::has_name;
use cl_base::{Name, NodeId, NodeSet};
use load_limits::Limits;
use rg_props::{Groups, Resource};
use rg_view::{GroupView, Marks, NoMemory};
use rt_types::Types;
use std::alloc::Global;
use std::marker::Model;

/// What the calls of one decision rest on: the places that must go down, and those of weak targets
/// where an up call is allowed. A place is a resource and a member. It holds until the view changes.
#[derive(Drop)]
pub struct Outlook {
    members: Vec<NodeId>,
    for_down: Marks,
    for_up: Marks,
    rising: Marks,
}

impl Model for Outlook {
    ghost use Rattle.sequencer.specs.Fields.{OutlookFields};

    ghost Value = { OutlookFields };

    ghost view = { λ o. record { members = o.members.items; for_down = o.for_down; for_up = o.for_up; rising = o.rising } };
}

impl Outlook {
    /// The outlook of these groups under this view: it shows what the rule gives. `order` has the
    /// resources, targets before those that rest on them: group by group in the order of groups.
    pub fn find(
        alloc: Global,
        g: &Groups,
        types: &Types,
        limits: &Limits,
        view: &GroupView,
        order: &[Name],
    ) -> Result<Outlook, NoMemory>
        ensures value { IfOk result (λ o. Shows g.now o (outlook_of g.now types.now limits.now view.entry.now order.now)) }
    {
        let outlook = found(alloc, g, types, limits, view, order)?;
        Ok(outlook)
    }

    /// Brings the outlook up to date with an order that was just given for the resource, and that the
    /// view has now. What rests on nothing that changed with it is not looked at.
    pub fn add_order(
        &mut self,
        alloc: Global,
        g: &Groups,
        types: &Types,
        limits: &Limits,
        view: &GroupView,
        order: &[Name],
        r: &Name,
    ) -> Result<(), NoMemory>
        requires in_order { is_in_order g.now order.now ≡ true }
        ensures value { OnOk result (FollowsOrder g.now types.now limits.now order.now r.now view.entry.now self.old self.new) }
    {
        renew_all(alloc, g, types, limits, view, order, r, self)?;
        Ok(())
    }

    /// The members in ascending order.
    pub fn members(&self) -> &[NodeId]
        ensures value { result.now ≡ self.now.members }
    {
        self.members.as_slice()
    }

    /// Whether the resource must go down on the node, as a down call is tested.
    pub fn must_go(&self, r: &Name, n: NodeId) -> bool
        ensures value { result ≡ is_marked self.now.for_down r.now n }
    {
        self.for_down.has(r, n)
    }

    /// The places that must go down, as an up call is tested.
    pub fn for_up(&self) -> &Marks
        ensures value { result.now ≡ self.now.for_up }
    {
        &self.for_up
    }

    /// The places where an up call is allowed.
    pub fn rising(&self) -> &Marks
        ensures value { result.now ≡ self.now.rising }
    {
        &self.rising
    }
}

fn found(
    alloc: Global,
    g: &Groups,
    types: &Types,
    limits: &Limits,
    view: &GroupView,
    order: &[Name],
) -> Result<Outlook, NoMemory>
    ensures { IfOk result (λ o. o ≡ kept_outlook g.now types.now limits.now view.entry.now order.now) }
{
    let mut outlook = without_risings(alloc, g, view, order)?;
    raise(alloc, g, types, limits, view, order, &mut outlook)?;
    Ok(outlook)
}

fn renew_all(
    alloc: Global,
    g: &Groups,
    types: &Types,
    limits: &Limits,
    view: &GroupView,
    order: &[Name],
    r: &Name,
    outlook: &mut Outlook,
) -> Result<(), NoMemory>
    ensures { OnOk result (outlook.new ≡ outlook_renewed g.now types.now limits.now view.entry.now order.now r.now outlook.old) }
{
    renew_going(alloc, g, view, order, r, outlook)?;
    raise(alloc, g, types, limits, view, order, outlook)
}

/// Brings the places that must go down up to date, and forgets those that may come up.
fn renew_going(
    alloc: Global,
    g: &Groups,
    view: &GroupView,
    order: &[Name],
    r: &Name,
    outlook: &mut Outlook,
) -> Result<(), NoMemory>
    ensures { OnOk result (outlook.new ≡ with_going_renewed g.now view.entry.now order.now r.now outlook.old) }
{
    let members = outlook.members.as_slice();
    renew(
        alloc,
        Direction::Down,
        g,
        view,
        members,
        order,
        r,
        &mut outlook.for_down,
    )?;
    renew(
        alloc,
        Direction::Up,
        g,
        view,
        members,
        order,
        r,
        &mut outlook.for_up,
    )?;
    outlook.rising = Marks::new(alloc);
    Ok(())
}

/// Adds the places of weak targets where an up call is allowed.
fn raise(
    alloc: Global,
    g: &Groups,
    types: &Types,
    limits: &Limits,
    view: &GroupView,
    order: &[Name],
    outlook: &mut Outlook,
) -> Result<(), NoMemory>
    ensures { OnOk result (outlook.new ≡ risen g.now types.now limits.now view.entry.now order.now outlook.old) }
{
    let names = awaited(alloc, g)?;
    add_risings(g, types, limits, view, &names, order, outlook)
}

/// The weak targets of all resources.
fn awaited(alloc: Global, g: &Groups) -> Result<Vec<Name>, NoMemory>
    ensures { IfOk result (λ names. names.items ≡ awaited g.now) }
{
    let mut names = Vec::new(alloc);
    for place in 0..g.resource_count() {
        let weak = weak_at(g, place);
        let Ok(()) = names.extend_from_slice(weak) else {
            return Err(NoMemory);
        };
    }
    Ok(names)
}

/// The weak targets of the resource at this place.
fn weak_at(g: &Groups, place: usize) -> &[Name]
    ensures { result.now ≡ option_map_or (λ e. e.1.weak) (slice_get g.now.resources place) [] }
{
    match g.resource_at(place) {
        Some((_, r)) => r.weak.items(),
        None => &[],
    }
}

/// The places that must go down.
fn without_risings(
    alloc: Global,
    g: &Groups,
    view: &GroupView,
    order: &[Name],
) -> Result<Outlook, NoMemory>
    ensures { IfOk result (λ o. o ≡ without_risings g.now view.entry.now order.now) }
{
    let Ok(members) = view.members.nodes(alloc) else {
        return Err(NoMemory);
    };
    let for_down = going(alloc, Direction::Down, g, view, &members, order)?;
    let for_up = going(alloc, Direction::Up, g, view, &members, order)?;
    Ok(Outlook {
        members,
        for_down,
        for_up,
        rising: Marks::new(alloc),
    })
}

#[tactic(auto, unfolding(crate::specs::Leaving::going_of))]
fn going(
    alloc: Global,
    direction: Direction,
    g: &Groups,
    view: &GroupView,
    members: &[NodeId],
    order: &[Name],
) -> Result<Marks, NoMemory>
    ensures { IfOk result (λ going. going ≡ going_of direction g.now view.entry.now members.now order.now) }
{
    let mut going = Marks::new(alloc);
    for name in order {
        add_resource(direction, g, view, members, name, &mut going)?;
    }
    Ok(going)
}

fn add_resource(
    direction: Direction,
    g: &Groups,
    view: &GroupView,
    members: &[NodeId],
    name: &Name,
    going: &mut Marks,
) -> Result<(), NoMemory>
    ensures { OnOk result (going.new ≡ with_resource direction g.now view.entry.now members.now going.old name.now) }
{
    match g.resource(name) {
        Some(r) => add_places(direction, g, view, members, name, r, going),
        None => Ok(()),
    }
}

fn add_places(
    direction: Direction,
    g: &Groups,
    view: &GroupView,
    members: &[NodeId],
    name: &Name,
    r: &Resource,
    going: &mut Marks,
) -> Result<(), NoMemory>
    ensures { OnOk result (going.new ≡ fold (with_place direction g.now view.entry.now members.now name.now r.now) going.old members.now) }
{
    for n in members {
        add_place(direction, g, view, members, name, r, *n, going)?;
    }
    Ok(())
}

fn add_place(
    direction: Direction,
    g: &Groups,
    view: &GroupView,
    members: &[NodeId],
    name: &Name,
    r: &Resource,
    n: NodeId,
    going: &mut Marks,
) -> Result<(), NoMemory>
    ensures { OnOk result (going.new ≡ with_place direction g.now view.entry.now members.now name.now r.now going.old n) }
{
    if must_go(direction, g, view, members, going, name, r, n) {
        going.add(name, n)?;
    }
    Ok(())
}

fn add_risings(
    g: &Groups,
    types: &Types,
    limits: &Limits,
    view: &GroupView,
    names: &[Name],
    order: &[Name],
    outlook: &mut Outlook,
) -> Result<(), NoMemory>
    ensures { OnOk result (outlook.new ≡ fold (with_risings_of g.now types.now limits.now view.entry.now names.now) outlook.old order.now) }
{
    for name in order {
        add_rising_of(g, types, limits, view, names, name, outlook)?;
    }
    Ok(())
}

fn add_rising_of(
    g: &Groups,
    types: &Types,
    limits: &Limits,
    view: &GroupView,
    names: &[Name],
    name: &Name,
    outlook: &mut Outlook,
) -> Result<(), NoMemory>
    ensures { OnOk result (outlook.new ≡ with_risings_of g.now types.now limits.now view.entry.now names.now outlook.old name.now) }
{
    if has_name(name, names) {
        add_rising(g, types, limits, view, name, outlook)?;
    }
    Ok(())
}

fn add_rising(
    g: &Groups,
    types: &Types,
    limits: &Limits,
    view: &GroupView,
    name: &Name,
    outlook: &mut Outlook,
) -> Result<(), NoMemory>
    ensures { OnOk result (outlook.new ≡ with_risings g.now types.now limits.now view.entry.now outlook.old name.now) }
{
    let goal = goal_for(view, g.resource(name));
    for place in 0..outlook.members.len() {
        let n = outlook.members[place];
        add_rising_at(g, types, limits, view, goal, name, n, outlook)?;
    }
    Ok(())
}

/// The goal of the group of the resource.
fn goal_for(view: &GroupView, r: Option<&Resource>) -> NodeSet
    ensures { result ≡ goal_for view.entry.now (option_copied r.entry) }
{
    match r {
        Some(r) => view.goals.goal(&r.group),
        None => NodeSet::empty(),
    }
}

/// Outside of the goal no up call is allowed.
fn add_rising_at(
    g: &Groups,
    types: &Types,
    limits: &Limits,
    view: &GroupView,
    goal: NodeSet,
    name: &Name,
    n: NodeId,
    outlook: &mut Outlook,
) -> Result<(), NoMemory>
    requires { goal ≡ goal_for view.now (named g.now.resources name.now) }
    ensures value { OnOk result (outlook.new ≡ with_rising g.now types.now limits.now view.entry.now name.now outlook.old n) }
{
    if rises(g, types, limits, view, goal, outlook, name, n) {
        outlook.rising.add(name, n)?;
    }
    Ok(())
}

fn rises(
    g: &Groups,
    types: &Types,
    limits: &Limits,
    view: &GroupView,
    goal: NodeSet,
    outlook: &Outlook,
    name: &Name,
    n: NodeId,
) -> bool
    requires { goal ≡ goal_for view.now (named g.now.resources name.now) }
    ensures { result ≡ has_up_call g.now types.now limits.now view.entry.now outlook.now n name.now }
{
    goal.has(n) && has_up_call(g, types, limits, view, outlook, n, name)
}
