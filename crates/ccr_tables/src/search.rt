// What names something else: the first of it, in order of creation.
ghost use Rattle.std.specs.Prelude.{◌≡◌, None};
ghost use Rattle.std.specs.Option.{is_some};
ghost use Rattle.rt_types.specs.Types.{type_of};
ghost use Rattle.rg_props.specs.Settings.{has_name};
ghost use Rattle.ccr_tables.specs.Uses.{first_named, group_passes, has_failover, has_node, is_affine_to, is_failover, needs_resource, resource_passes, user_of_group, user_of_node, user_of_resource, user_of_type};

use crate::config::Config;
use cl_base::{Name, NodeId};
use rg_props::{Group, Resource};

/// What is asked of a resource.
#[derive(Clone, Copy, Debug, PartialEq, Eq)]
pub enum ResourceTest {
    /// Is it of the type?
    OfType(Name),
    /// Is it in the group?
    InGroup(Name),
    /// Is it in the group, and of a failover type?
    FailoverIn(Name),
    /// Does it depend on the resource?
    Needs(Name),
}

/// What is asked of a group.
#[derive(Clone, Copy, Debug, PartialEq, Eq)]
pub enum GroupTest {
    /// Does it depend on the group?
    Needs(Name),
    /// Does it declare an affinity to the group?
    AffineTo(Name),
    /// Does its Nodelist have the node?
    Lists(NodeId),
}

impl Config {
    /// The first resource of the type.
    pub(crate) fn user_of_type(&self, name: &Name) -> Option<Name>
        ensures { result ≡ user_of_type self.now name.now }
    {
        self.first_resource(&ResourceTest::OfType(*name))
    }

    /// What names the group: its first resource; else the first group that depends on it; else the
    /// first that declares an affinity to it; else the first address that it serves.
    pub(crate) fn user_of_group(&self, name: &Name) -> Option<Name>
        ensures { result ≡ user_of_group self.now name.now }
    {
        if let Some(user) = self.first_resource(&ResourceTest::InGroup(*name)) {
            return Some(user);
        }
        if let Some(user) = self.first_group(&GroupTest::Needs(*name)) {
            return Some(user);
        }
        if let Some(user) = self.first_group(&GroupTest::AffineTo(*name)) {
            return Some(user);
        }
        self.addresses.first_served_by(name)
    }

    /// The first resource that depends on the resource.
    pub(crate) fn user_of_resource(&self, name: &Name) -> Option<Name>
        ensures { result ≡ user_of_resource self.now name.now }
    {
        self.first_resource(&ResourceTest::Needs(*name))
    }

    /// The first group that lists the node.
    pub(crate) fn user_of_node(&self, n: NodeId) -> Option<Name>
        ensures { result ≡ user_of_node self.now n }
    {
        self.first_group(&GroupTest::Lists(n))
    }

    /// Whether the group has a resource of a failover type.
    pub(crate) fn has_failover(&self, name: &Name) -> bool
        ensures { result ≡ has_failover self.now name.now }
    {
        self.first_resource(&ResourceTest::FailoverIn(*name))
            .is_some()
    }

    #[tactic(auto, using(crate::proofs::Firsts::none_more, crate::proofs::Firsts::none_past, crate::proofs::Firsts::none_there, crate::proofs::Firsts::found_here))]
    fn first_resource(&self, test: &ResourceTest) -> Option<Name>
        ensures { result ≡ first_named (resource_passes self.now test.now) self.now.groups.resources }
    {
        for place in 0..self.groups.resource_count() {
            if let Some((name, resource)) = self.groups.resource_at(place)
                && self.resource_passes(test, resource)
            {
                return Some(*name);
            }
        }
        None
    }

    fn resource_passes(&self, test: &ResourceTest, r: &Resource) -> bool
        ensures { result ≡ resource_passes self.now test.now r.now }
    {
        match test {
            ResourceTest::OfType(name) => r.resource_type.bytes() == name.bytes(),
            ResourceTest::InGroup(name) => r.group.bytes() == name.bytes(),
            ResourceTest::FailoverIn(name) => {
                r.group.bytes() == name.bytes() && self.is_failover(&r.resource_type)
            }
            ResourceTest::Needs(name) => needs_resource(r, name),
        }
    }

    fn is_failover(&self, resource_type: &Name) -> bool
        ensures { result ≡ is_failover (type_of self.now.types resource_type.now) }
    {
        match self.types.resource_type(resource_type) {
            Some(t) => t.failover(),
            None => false,
        }
    }

    #[tactic(auto, using(crate::proofs::Firsts::none_more, crate::proofs::Firsts::none_past, crate::proofs::Firsts::none_there, crate::proofs::Firsts::found_here))]
    fn first_group(&self, test: &GroupTest) -> Option<Name>
        ensures { result ≡ first_named (group_passes test.now) self.now.groups.groups }
    {
        for place in 0..self.groups.group_count() {
            if let Some((name, group)) = self.groups.group_at(place)
                && group_passes(test, group)
            {
                return Some(*name);
            }
        }
        None
    }
}

fn needs_resource(r: &Resource, name: &Name) -> bool
    ensures { result ≡ needs_resource name.now r.now }
{
    has_name(name, r.strong.items())
        || has_name(name, r.weak.items())
        || has_name(name, r.offline_restart.items())
}

fn group_passes(test: &GroupTest, g: &Group) -> bool
    ensures { result ≡ group_passes test.now g.now }
{
    match test {
        GroupTest::Needs(name) => has_name(name, g.dependencies.items()),
        GroupTest::AffineTo(name) => is_affine_to(g, name),
        GroupTest::Lists(n) => has_node(*n, g.nodelist.items()),
    }
}

fn is_affine_to(g: &Group, name: &Name) -> bool
    ensures { result ≡ is_affine_to name.now g.now }
{
    g.affinities
        .items()
        .iter()
        .any(|a| a.group.bytes() == name.bytes())
}

fn has_name(name: &Name, names: &[Name]) -> bool
    ensures { result ≡ has_name name.now names.now }
{
    names.iter().any(|n| n.bytes() == name.bytes())
}

pub(crate) fn has_node(n: NodeId, nodes: &[NodeId]) -> bool
    ensures { result ≡ has_node n nodes.now }
{
    nodes.iter().any(|m| *m == n)
}
