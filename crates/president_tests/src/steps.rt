// What a president does, step by step.
ghost use Rattle.std.specs.Prelude.{◌≡◌, ◌<◌, ◌^◌, None, IfOk};
ghost use Rattle.rg_view.specs.Orders.{order_of};
ghost use Rattle.rgm_president.specs.Acts.{HasRoom};

use crate::fixture::{Request, asked, name, node};
use crate::known::{Fact, is_known};
use ccr_tables::{Config, ResourceChange, Update};
use cl_base::{Ask, Epoch, GroupState, Method, NodeId, Outcome, Reason};
use rgm_president::President;
use std::alloc::Global;
use std::process::Abort;
use std::test::Fail;
use wire::Order;

/// What is told of a group that is not online. Resources have names of one letter.
#[derive(Clone, Copy)]
pub enum Why {
    Nothing,
    Faulted(u8),
    Blocked(u8),
    Dependency(u8),
}

/// What is done, and what is wanted of it.
#[derive(Clone, Copy)]
pub enum Step {
    /// The decision calls on the node, by an order of this number, this method of the resource, and
    /// nothing else.
    Call(u64, u64, u8, Method),
    /// The decision gives no order.
    Rest,
    /// The same, where orders are held up.
    HeldUp,
    /// The node tells how the order of this number ended, which is taken or not.
    Done(u64, u64, Outcome, bool),
    /// How many orders were given.
    Given(u64),
    /// How g stands on the node, and the reason that is told.
    Stands(u64, GroupState, Why),
    /// The resource is disabled.
    Disable(u8),
    /// What the node asks for is followed by no order at once.
    Ask(u64, Request),
    /// Node 2 asks to clear the mark of the resource on the node, which an order of this number does.
    Clear(u8, u64, u64),
    /// This is known.
    Know(Fact),
}

/// An order's number, its resource and its method.
type Wanted = (u64, u8, Option<Method>);

/// The order is of the membership, too.
fn is_order(order: &Order, wanted: Wanted) -> bool {
    let (number, resource, method) = wanted;
    order.epoch == Epoch::from_number(65)
        && order.number == number
        && order.resource.items() == [resource].as_slice()
        && order.method == method
}

fn is_only(orders: &[(NodeId, Order)], n: u64, wanted: Wanted) -> bool {
    match orders {
        [(node, order)] => node.number() == n && is_order(order, wanted),
        _ => false,
    }
}

fn check_given(p: &President) -> Result<(), Fail>
    ensures { IfOk result (λ _. p.now.given < 2 ^ 63) }
{
    if p.given() < 1000 {
        Ok(())
    } else {
        Err(Fail::new("many orders"))
    }
}

fn decision(
    alloc: Global,
    p: &mut President,
    c: &Config,
    held_up: bool,
) -> Result<Vec<(NodeId, Order)>, Fail> {
    check_given(p)?;
    Ok(p.decide(alloc, c, 30, held_up)?)
}

fn calls(
    alloc: Global,
    p: &mut President,
    c: &Config,
    n: u64,
    wanted: Wanted,
) -> Result<bool, Fail> {
    Ok(is_only(&decision(alloc, p, c, false)?, n, wanted))
}

fn rests(alloc: Global, p: &mut President, c: &Config, held_up: bool) -> Result<bool, Fail> {
    Ok(decision(alloc, p, c, held_up)?.is_empty())
}

fn ends(
    alloc: Global,
    p: &mut President,
    c: &Config,
    n: u64,
    number: u64,
    outcome: Outcome,
    wanted: bool,
) -> Result<bool, Fail> {
    Ok(p.done(alloc, node(n)?, number, outcome, c, 20)? == wanted)
}

fn reason(why: Why) -> Result<Option<Reason>, Fail> {
    match why {
        Why::Nothing => Ok(None),
        Why::Faulted(r) => Ok(Some(Reason::Faulted(name(r)?))),
        Why::Blocked(r) => Ok(Some(Reason::Blocked(name(r)?))),
        Why::Dependency(r) => Ok(Some(Reason::Dependency(name(r)?))),
    }
}

fn stands(
    alloc: Global,
    p: &President,
    c: &Config,
    n: u64,
    state: GroupState,
    reason: Option<Reason>,
) -> Result<bool, Fail> {
    let (group, n) = (name(b'g')?, node(n)?);
    if c.groups().group(&group).is_none() {
        return Err(Fail::new("no group"));
    }
    let (found, told) = (p.state(alloc, c, &group, n)?, p.why(alloc, c, &group, n)?);
    Ok(found == state && told == reason)
}

fn change(alloc: Global, p: &mut President, c: &mut Config, u: &Update) -> Result<bool, Fail> {
    c.apply(u)?;
    p.changed(alloc, u, c)?;
    Ok(true)
}

fn disable(alloc: Global, p: &mut President, c: &mut Config, r: u8) -> Result<bool, Fail> {
    let update = Update::ChangeResource {
        resource: name(r)?,
        change: ResourceChange::Disable,
    };
    change(alloc, p, c, &update)
}

fn check_free(p: &President, n: NodeId) -> Result<(), Fail>
    ensures { IfOk result (λ _. order_of p.now.view.outstanding n ≡ None) }
{
    if p.view().outstanding.at(n).is_some() {
        Err(Fail::new("has an order"))
    } else {
        Ok(())
    }
}

/// To clear a mark is an order to a node that has none.
fn check_room(p: &President, what: Ask) -> Result<(), Fail>
    ensures { IfOk result (λ _. HasRoom p.now what) }
{
    match what {
        Ask::Clear { node, .. } => check_free(p, node),
        Ask::Restart(_) | Ask::Move(_) | Ask::Remaster(_) | Ask::Evacuate(_) => Ok(()),
    }
}

fn ask(
    alloc: Global,
    p: &mut President,
    c: &Config,
    from: u64,
    request: Request,
) -> Result<Option<Order>, Fail> {
    let (from, what) = (node(from)?, asked(request)?);
    check_room(p, what)?;
    check_given(p)?;
    Ok(p.ask(alloc, from, what, c, 30)?)
}

fn clears(
    alloc: Global,
    p: &mut President,
    c: &Config,
    request: Request,
    wanted: Wanted,
) -> Result<bool, Fail> {
    match ask(alloc, p, c, 2, request)? {
        Some(order) => Ok(is_order(&order, wanted)),
        None => Ok(false),
    }
}

fn holds(alloc: Global, p: &mut President, c: &mut Config, step: Step) -> Result<bool, Fail> {
    match step {
        Step::Call(n, number, r, method) => calls(alloc, p, c, n, (number, r, Some(method))),
        Step::Rest => rests(alloc, p, c, false),
        Step::HeldUp => rests(alloc, p, c, true),
        Step::Done(n, number, outcome, wanted) => ends(alloc, p, c, n, number, outcome, wanted),
        Step::Given(count) => Ok(p.given() == count),
        Step::Stands(n, state, why) => stands(alloc, p, c, n, state, reason(why)?),
        Step::Disable(r) => disable(alloc, p, c, r),
        Step::Ask(n, request) => Ok(ask(alloc, p, c, n, request)?.is_none()),
        Step::Clear(r, n, number) => {
            clears(alloc, p, c, Request::Clear(r, n), (number, r, None))
        }
        Step::Know(fact) => is_known(p.view(), fact),
    }
}

/// The steps hold, one after the other.
pub fn take_all(
    rt: &impl Abort,
    alloc: Global,
    p: &mut President,
    c: &mut Config,
    steps: &[Step],
) -> Result<(), Fail> {
    for place in 0..steps.len() {
        let holds = holds(alloc, p, c, steps[place])?;
        assert!(rt; holds, "step {place}");
    }
    Ok(())
}
