// Why updates of shared addresses are refused.
ghost use Rattle.std.specs.Prelude.{◌≡◌, ◌==◌, false, None, Some};
ghost use Rattle.std.specs.List.{list_any};
ghost use Rattle.std.specs.Option.{is_some};
ghost use Rattle.cl_base.specs.declared.refusal.Thing.TheVariants.{Named};
ghost use Rattle.rg_props.specs.Lookups.{named};
ghost use Rattle.rg_props.specs.Values.{are_distinct};
ghost use Rattle.ccr_tables.specs.Refusals.{are_listed, first_fit, first_unconfigured_weight, is_bad_weights, missing, nodelist_of, refusal_of, same_node};
ghost use Rattle.ccr_tables.specs.declared.update.Update.TheVariants.{DeleteAddress, SetWeights};

use crate::address::{Address, Weight};
use crate::config::Config;
use crate::search::has_node;
use crate::shorthand::unknown;
use cl_base::{Name, NodeId, Refusal, Thing};

impl Config {
    pub(crate) fn create_address_refusal(&self, address: &Name, group: &Name) -> Option<Refusal>
        ensures { result ≡ first_fit (missing (named self.now.groups.groups group.now) (Named group.now)) (is_some (named self.now.addresses address.now)) None false false false }
    {
        if self.groups.group(group).is_none() {
            return unknown(group);
        }
        if self.addresses.address(address).is_some() {
            return Some(Refusal::Exists);
        }
        None
    }

    pub(crate) fn delete_address_refusal(&self, address: &Name) -> Option<Refusal>
        ensures { result ≡ refusal_of self.now (DeleteAddress address.now) }
    {
        if self.addresses.address(address).is_none() {
            return unknown(address);
        }
        None
    }

    pub(crate) fn set_weights_refusal(&self, address: &Name, weights: &[Weight]) -> Option<Refusal>
        ensures { result ≡ refusal_of self.now (SetWeights address.now weights.now) }
    {
        let Some(held) = self.addresses.address(address) else {
            return unknown(address);
        };
        if let Some(thing) = self.unconfigured_weight(weights) {
            return Some(Refusal::Unknown(thing));
        }
        if self.is_bad_weights(held, weights) {
            return Some(Refusal::BadSetting);
        }
        None
    }

    /// The first of the nodes that is not configured.
    fn unconfigured_weight(&self, weights: &[Weight]) -> Option<Thing>
        ensures { result ≡ first_unconfigured_weight self.now weights.now }
    {
        weights
            .iter()
            .find(|w| !self.votes.configured(w.node))
            .map(|w| Thing::Numbered(w.node.number()))
    }

    /// A node outside the Nodelist, or a node twice.
    fn is_bad_weights(&self, address: &Address, weights: &[Weight]) -> bool
        ensures { result ≡ is_bad_weights self.now (Some address.now) weights.now }
    {
        !are_listed(self.nodelist(&address.group), weights) || !are_distinct(weights)
    }

    fn nodelist(&self, group: &Name) -> &[NodeId]
        ensures { result.now ≡ nodelist_of (named self.now.groups.groups group.now) }
    {
        match self.groups.group(group) {
            Some(held) => held.nodelist.items(),
            None => &[],
        }
    }
}

fn are_listed(nodes: &[NodeId], weights: &[Weight]) -> bool
    ensures { result ≡ are_listed nodes.now weights.now }
{
    weights.iter().all(|w| has_node(w.node, nodes))
}

fn are_distinct(weights: &[Weight]) -> bool
    ensures { result ≡ are_distinct same_node weights.now }
{
    match weights {
        [] => true,
        [first, rest @ ..] => !has_weight(first.node, rest) && are_distinct(rest),
    }
}

fn has_weight(node: NodeId, weights: &[Weight]) -> bool
    ensures { result ≡ list_any (λ w. node == w.node) weights.now }
{
    weights.iter().any(|w| node == w.node)
}
