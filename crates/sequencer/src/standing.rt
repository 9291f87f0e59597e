// What counts as online and as up while orders are outstanding.
ghost use Rattle.std.specs.Prelude.{◌≡◌};
ghost use Rattle.std.specs.Option.{option_copied};
ghost use Rattle.sequencer.specs.Standing.{has_flag, is_online, is_order_for, is_ordered, is_up};

use cl_base::{Name, NodeId};
use rg_view::{GroupView, Outstanding, ResourceAt};

#[tactic(auto, unfolding(crate::specs::Standing::is_ordered))]
/// Whether an order for the resource is outstanding on the node.
pub fn is_ordered(view: &GroupView, r: &Name, n: NodeId) -> bool
    ensures { result ≡ is_ordered view.entry.now r.now n }
{
    is_order_for(r, view.outstanding.at(n))
}

fn is_order_for(r: &Name, order: Option<&Outstanding>) -> bool
    ensures { result ≡ is_order_for r.now (option_copied order.entry) }
{
    match order {
        Some(order) => order.resource.bytes() == r.bytes(),
        None => false,
    }
}

#[tactic(auto, unfolding(crate::specs::Standing::is_online))]
/// Whether the resource runs on the node and has no order there.
pub fn is_online(view: &GroupView, r: &Name, n: NodeId) -> bool
    ensures { result ≡ is_online view.entry.now r.now n }
{
    view.resources.state(r, n).run && !is_ordered(view, r, n)
}

/// Whether the state has a flag.
pub fn has_flag(s: ResourceAt) -> bool
    ensures { result ≡ has_flag s }
{
    s.pre || s.run || s.mon
}

#[tactic(auto, unfolding(crate::specs::Standing::is_up))]
/// Whether the resource has a flag on the node, or an order there.
pub fn is_up(view: &GroupView, r: &Name, n: NodeId) -> bool
    ensures { result ≡ is_up view.entry.now r.now n }
{
    has_flag(view.resources.state(r, n)) || is_ordered(view, r, n)
}
