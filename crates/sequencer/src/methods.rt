ghost use Rattle.std.specs.Prelude.{◌≡◌};
ghost use Rattle.std.specs.Option.{option_copied};
ghost use Rattle.cl_base.specs.declared.method.Method.TheVariants.{PrenetStart};
ghost use Rattle.rg_view.specs.States.{state_of};
ghost use Rattle.rt_types.specs.Types.{type_of};
ghost use Rattle.sequencer.specs.Allowed.{has_up_call, is_allowed, is_callable, may_call, offers};

use crate::outlook::Outlook;
use crate::starting::{may_start, may_start_monitor, may_start_net};
use crate::stopping::{may_stop, may_stop_monitor, may_stop_net};
use cl_base::{Method, Name, NodeId};
use load_limits::Limits;
use placement::is_stop_failed;
use rg_props::{Groups, Resource};
use rg_view::{GroupView, ResourceAt};
use rt_types::{ResourceType, Types};

#[tactic(auto, unfolding(crate::specs::Allowed::is_allowed))]
/// Whether the method of the resource may be called on the node. The outlook is that of these
/// groups, types, limits and this view. It takes no memory.
pub fn allowed(
    g: &Groups,
    types: &Types,
    limits: &Limits,
    view: &GroupView,
    outlook: &Outlook,
    n: NodeId,
    r: &Name,
    m: Method,
) -> bool
    ensures value { result ≡ is_allowed g.now types.now limits.now view.entry.now outlook.now n r.now m }
{
    match g.resource(r) {
        Some(found) => is_callable(g, types, limits, view, outlook, n, r, found, m),
        None => false,
    }
}

#[tactic(auto, unfolding(crate::specs::Allowed::is_callable))]
fn is_callable(
    g: &Groups,
    types: &Types,
    limits: &Limits,
    view: &GroupView,
    outlook: &Outlook,
    n: NodeId,
    name: &Name,
    r: &Resource,
    m: Method,
) -> bool
    ensures { result ≡ is_callable g.now types.now limits.now view.entry.now outlook.now n name.now r.now m }
{
    let t = types.resource_type(&r.resource_type);
    if !view.members.has(n) || !offers(t, m) {
        return false;
    }
    let s = view.resources.state(name, n);
    let net = offers(t, Method::PrenetStart);
    // What goes through all places comes last: few calls are due.
    may_call(g, limits, view, outlook, name, r, n, s, net, m) && !is_stop_failed(g, view, &r.group)
}

/// Whether a type which is there has the method.
fn offers(t: Option<&ResourceType>, m: Method) -> bool
    ensures { result ≡ offers (option_copied t.entry) m }
{
    match t {
        Some(t) => t.has(m),
        None => false,
    }
}

fn may_call(
    g: &Groups,
    limits: &Limits,
    view: &GroupView,
    outlook: &Outlook,
    name: &Name,
    r: &Resource,
    n: NodeId,
    s: ResourceAt,
    net: bool,
    m: Method,
) -> bool
    ensures { result ≡ may_call g.now limits.now view.entry.now outlook.now name.now r.now n s net m }
{
    match m {
        Method::MonitorStop => may_stop_monitor(outlook, name, r, n, s),
        Method::Stop => may_stop(g, view, outlook, name, r, n, s),
        Method::PostnetStop => may_stop_net(outlook, name, n, s),
        Method::PrenetStart => may_start_net(g, limits, view, outlook, name, r, n, s),
        Method::Start => may_start(g, limits, view, outlook, name, r, n, s, net),
        Method::MonitorStart => may_start_monitor(g, view, outlook, name, r, n, s),
        Method::MonitorCheck
        | Method::Validate
        | Method::Init
        | Method::Fini
        | Method::Boot
        | Method::Update => false,
    }
}

/// Whether some up call of the resource is allowed on the node.
pub fn has_up_call(
    g: &Groups,
    types: &Types,
    limits: &Limits,
    view: &GroupView,
    outlook: &Outlook,
    n: NodeId,
    r: &Name,
) -> bool
    ensures { result ≡ has_up_call g.now types.now limits.now view.entry.now outlook.now n r.now }
{
    allowed(g, types, limits, view, outlook, n, r, Method::PrenetStart)
        || allowed(g, types, limits, view, outlook, n, r, Method::Start)
        || allowed(g, types, limits, view, outlook, n, r, Method::MonitorStart)
}
