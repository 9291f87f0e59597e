// What the refusals share.
ghost use Rattle.std.specs.Prelude.{◌≡◌, Some};
ghost use Rattle.std.specs.Option.{is_some};
ghost use Rattle.cl_base.specs.declared.refusal.Refusal.TheVariants.{Unknown};
ghost use Rattle.cl_base.specs.declared.refusal.Thing.TheVariants.{Named, Numbered};
ghost use Rattle.rg_props.specs.Lookups.{named};
ghost use Rattle.ccr_tables.specs.Refusals.{first_missing, first_unconfigured};

use crate::config::Config;
use cl_base::{DevId, Name, NodeId, Refusal, Thing};
use std::alloc::Global;

/// Nothing of this name is there.
pub(crate) fn unknown(name: &Name) -> Option<Refusal>
    ensures { result ≡ Some (Unknown (Named name.now)) }
{
    Some(Refusal::Unknown(Thing::Named(*name)))
}

/// The node is not there.
pub(crate) fn unknown_node(n: NodeId) -> Option<Refusal>
    ensures { result ≡ Some (Unknown (Numbered n)) }
{
    Some(Refusal::Unknown(Thing::Numbered(n.number())))
}

/// The device is not there.
pub(crate) fn unknown_device(d: DevId) -> Option<Refusal>
    ensures { result ≡ Some (Unknown (Numbered d)) }
{
    Some(Refusal::Unknown(Thing::Numbered(d.number())))
}

impl Config {
    pub(crate) fn alloc(&self) -> Global {
        *self.order.allocator()
    }

    pub(crate) fn has_group(&self, name: &Name) -> bool
        ensures { result ≡ is_some (named self.now.groups.groups name.now) }
    {
        self.groups.group(name).is_some()
    }

    pub(crate) fn has_resource(&self, name: &Name) -> bool
        ensures { result ≡ is_some (named self.now.groups.resources name.now) }
    {
        self.groups.resource(name).is_some()
    }

    /// The first of the nodes that is not configured.
    pub(crate) fn unconfigured(&self, nodes: &[NodeId]) -> Option<Thing>
        ensures { result ≡ first_unconfigured self.now nodes.now }
    {
        nodes
            .iter()
            .find(|n| !self.votes.configured(**n))
            .map(|n| Thing::Numbered(n.number()))
    }

    /// The first of the names that no group has.
    pub(crate) fn missing_group(&self, names: &[Name]) -> Option<Thing>
        ensures { result ≡ first_missing self.now.groups.groups names.now }
    {
        names
            .iter()
            .find(|name| !self.has_group(name))
            .map(|name| Thing::Named(*name))
    }

    /// The first of the names that no resource has.
    pub(crate) fn missing_resource(&self, names: &[Name]) -> Option<Thing>
        ensures { result ≡ first_missing self.now.groups.resources names.now }
    {
        names
            .iter()
            .find(|name| !self.has_resource(name))
            .map(|name| Thing::Named(*name))
    }
}
