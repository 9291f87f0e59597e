// Why what is asked without an update is refused.
ghost use Rattle.std.specs.Prelude.{◌≡◌};
ghost use Rattle.quorum_votes.specs.Votes.{is_configured};
ghost use Rattle.cl_base.specs.declared.refusal.Thing.TheVariants.{Named, Numbered};
ghost use Rattle.rg_props.specs.Lookups.{named};
ghost use Rattle.ccr_tables.specs.Refusals.{missing, unless};
ghost use Rattle.cl_base.specs.declared.command.Ask.TheVariants.{Clear};
ghost use Rattle.admin_commands.specs.Asks.{refusal_of_ask, refusal_to_remaster};
ghost use Rattle.admin_commands.specs.Cases.{unknown};

use crate::managing::is_unmanaged;
use crate::numbers::where_so;
use crate::standing::no_mark;
use ccr_tables::Config;
use cl_base::{Ask, Name, NodeId, Refusal, Thing};
use rg_view::GroupView;

/// Why the president does not do it, if it does not.
pub fn refusal_of_ask(config: &Config, view: &GroupView, ask: &Ask) -> Option<Refusal>
    ensures { result ≡ refusal_of_ask config.now view.entry.now ask.now }
{
    match ask {
        Ask::Restart(resource) | Ask::Move(resource) => unknown_resource(config, resource),
        Ask::Remaster(group) => refusal_to_remaster(config, group),
        Ask::Evacuate(node) => unknown_node(config, *node),
        Ask::Clear { resource, node } => refusal_to_clear(config, view, resource, *node),
    }
}

fn unknown_resource(config: &Config, resource: &Name) -> Option<Refusal>
    ensures { result ≡ unknown
        (missing (named config.now.groups.resources resource.now) (Named resource.now)) }
{
    match config.groups().resource(resource) {
        Some(_) => None,
        None => Some(Refusal::Unknown(Thing::Named(*resource))),
    }
}

fn unknown_node(config: &Config, node: NodeId) -> Option<Refusal>
    ensures { result ≡ unknown (unless (is_configured config.now.votes node) (Numbered node)) }
{
    if config.votes().configured(node) {
        None
    } else {
        Some(Refusal::Unknown(Thing::Numbered(node.number())))
    }
}

fn refusal_to_remaster(config: &Config, group: &Name) -> Option<Refusal>
    ensures { result ≡ refusal_to_remaster config.now group.now }
{
    if config.groups().group(group).is_none() {
        return Some(Refusal::Unknown(Thing::Named(*group)));
    }
    where_so(is_unmanaged(config, group), Refusal::Unmanaged)
}

fn refusal_to_clear(
    config: &Config,
    view: &GroupView,
    resource: &Name,
    node: NodeId,
) -> Option<Refusal>
    ensures { result ≡ refusal_of_ask config.now view.entry.now (Clear resource.now node) }
{
    if let Some(refusal) = unknown_resource(config, resource) {
        return Some(refusal);
    }
    if let Some(refusal) = unknown_node(config, node) {
        return Some(refusal);
    }
    no_mark(view, resource, node)
}
