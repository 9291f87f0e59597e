// Which places of a target a dependency speaks of.
ghost use Rattle.std.specs.Prelude.{◌≡◌};
ghost use Rattle.std.specs.Option.{option_copied};
ghost use Rattle.rg_props.specs.Lookups.{keeps_close};
ghost use Rattle.sequencer.specs.Scopes.{in_scope, is_tied, is_tied_to};

use cl_base::{Name, NodeId};
use rg_props::{Group, Groups, Resource};

#[tactic(auto, unfolding(crate::specs::Scopes::is_tied))]
/// Whether a dependent of the group is tied to the node where its target is.
pub fn is_tied(g: &Groups, group: &Name, target: &Name) -> bool
    ensures { result ≡ is_tied g.now group.now target.now }
{
    is_tied_to(g, group, g.resource(target))
}

fn is_tied_to(g: &Groups, group: &Name, target: Option<&Resource>) -> bool
    ensures { result ≡ is_tied_to g.now group.now (option_copied target.entry) }
{
    match target {
        Some(target) => group.bytes() == target.group.bytes()
            || keeps_close(g.group(group), &target.group),
        None => false,
    }
}

fn keeps_close(group: Option<&Group>, to: &Name) -> bool
    ensures { result ≡ keeps_close (option_copied group.entry) to.now }
{
    match group {
        Some(group) => group.declares_close(to),
        None => false,
    }
}

/// Whether the place on node m is in scope of the dependent on node n.
pub fn in_scope(tied: bool, n: NodeId, m: NodeId) -> bool
    ensures { result ≡ in_scope tied n m }
{
    !tied || m == n
}
