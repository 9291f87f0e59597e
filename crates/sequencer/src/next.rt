ghost use Rattle.std.specs.Prelude.{◌≡◌};
ghost use Rattle.sequencer.specs.Next.{call_of, down_call, first_up, last_down, next_call_of, up_call};
ghost use Rattle.sequencer.specs.Outlooks.{outlook_of};

use crate::methods::allowed;
use crate::outlook::Outlook;
use cl_base::{Method, Name, NodeId};
use load_limits::Limits;
use rg_props::Groups;
use rg_view::GroupView;
use rt_types::Types;

#[tactic(auto, unfolding(crate::specs::Next::next_call_of))]
/// The first allowed call on the node: down before up, the last resource of the order first for
/// going down, and the first one for coming up. It takes no memory.
pub fn next_call(
    g: &Groups,
    types: &Types,
    limits: &Limits,
    view: &GroupView,
    outlook: &Outlook,
    order: &[Name],
    n: NodeId,
) -> Option<(Name, Method)>
    ensures value { result ≡ next_call_of g.now types.now limits.now view.entry.now outlook.now order.now n }
{
    match last_down(g, types, limits, view, outlook, order, n) {
        Some(call) => Some(call),
        None => first_up(g, types, limits, view, outlook, order, n),
    }
}

/// The down call of the last resource that has one.
fn last_down(
    g: &Groups,
    types: &Types,
    limits: &Limits,
    view: &GroupView,
    outlook: &Outlook,
    order: &[Name],
    n: NodeId,
) -> Option<(Name, Method)>
    ensures { result ≡ last_down g.now types.now limits.now view.entry.now outlook.now order.now n }
{
    let mut found = None;
    for name in order {
        found = down_call(g, types, limits, view, outlook, n, name).or(found);
    }
    found
}

/// The up call of the first resource that has one.
fn first_up(
    g: &Groups,
    types: &Types,
    limits: &Limits,
    view: &GroupView,
    outlook: &Outlook,
    order: &[Name],
    n: NodeId,
) -> Option<(Name, Method)>
    ensures { result ≡ first_up g.now types.now limits.now view.entry.now outlook.now order.now n }
{
    let mut found = None;
    for name in order {
        if found.is_none() {
            found = up_call(g, types, limits, view, outlook, n, name);
        }
    }
    found
}

fn down_call(
    g: &Groups,
    types: &Types,
    limits: &Limits,
    view: &GroupView,
    outlook: &Outlook,
    n: NodeId,
    name: &Name,
) -> Option<(Name, Method)>
    ensures { result ≡ down_call g.now types.now limits.now view.entry.now outlook.now n name.now }
{
    if let Some(call) = call_of(
        g,
        types,
        limits,
        view,
        outlook,
        n,
        name,
        Method::MonitorStop,
    ) {
        return Some(call);
    }
    if let Some(call) = call_of(g, types, limits, view, outlook, n, name, Method::Stop) {
        return Some(call);
    }
    call_of(
        g,
        types,
        limits,
        view,
        outlook,
        n,
        name,
        Method::PostnetStop,
    )
}

fn up_call(
    g: &Groups,
    types: &Types,
    limits: &Limits,
    view: &GroupView,
    outlook: &Outlook,
    n: NodeId,
    name: &Name,
) -> Option<(Name, Method)>
    ensures { result ≡ up_call g.now types.now limits.now view.entry.now outlook.now n name.now }
{
    if let Some(call) = call_of(
        g,
        types,
        limits,
        view,
        outlook,
        n,
        name,
        Method::PrenetStart,
    ) {
        return Some(call);
    }
    if let Some(call) = call_of(g, types, limits, view, outlook, n, name, Method::Start) {
        return Some(call);
    }
    call_of(
        g,
        types,
        limits,
        view,
        outlook,
        n,
        name,
        Method::MonitorStart,
    )
}

/// The method of the resource, where it is allowed.
fn call_of(
    g: &Groups,
    types: &Types,
    limits: &Limits,
    view: &GroupView,
    outlook: &Outlook,
    n: NodeId,
    name: &Name,
    m: Method,
) -> Option<(Name, Method)>
    ensures { result ≡ call_of g.now types.now limits.now view.entry.now outlook.now n name.now m }
{
    if allowed(g, types, limits, view, outlook, n, name, m) {
        Some((*name, m))
    } else {
        None
    }
}
