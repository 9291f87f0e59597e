ghost use Rattle.std.specs.Prelude.{◌≡◌, [], None, Some, OnOk, OnErr, length, slice_get};
ghost use Rattle.rg_view.specs.States.{StatesAreApart, state_at, state_of, states_with, states_without, states_of_others, unmarked};
ghost use Rattle.rg_view.specs.Tables.{FindsAt, LosesAt};

use crate::memory::NoMemory;
use crate::name_at::NameAt;
use cl_base::{Name, NodeId};
use indexmap::IndexMap;
use std::alloc::Global;
use std::marker::Model;

/// What is known of a resource on a node: its flags and its marks.
#[derive(Clone, Copy, Debug)]
pub struct ResourceAt {
    /// The resource.
    pub resource: Name,
    /// The node.
    pub node: NodeId,
    /// What comes before START is done.
    pub pre: bool,
    /// It runs.
    pub run: bool,
    /// Its monitor runs.
    pub mon: bool,
    /// It is faulted there.
    pub faulted: bool,
    /// STOP failed there.
    pub stop_failed: bool,
    /// Its monitor could not be started there.
    pub monitor_failed: bool,
}

impl ResourceAt {
    /// No flag and no mark.
    pub fn unmarked(resource: Name, node: NodeId) -> ResourceAt
        ensures value { result ≡ unmarked resource node }
    {
        ResourceAt {
            resource,
            node,
            pre: false,
            run: false,
            mon: false,
            faulted: false,
            stop_failed: false,
            monitor_failed: false,
        }
    }
}

/// The states of resources on nodes. Contracts see the list of them, none twice for a resource and
/// node, in the order in which they came. One that is not listed has no flag and no mark.
#[derive(Debug, Drop)]
pub struct ResourceStates {
    states: IndexMap<NameAt, ResourceAt>,
}

impl Model for ResourceStates {
    ghost use Rattle.std.specs.Prelude.{List};
    ghost use Rattle.std.specs.Map.{values_of};
    ghost use Rattle.rg_view.specs.declared.states.ResourceAt.{ResourceAt};

    ghost Value = { List ResourceAt };

    ghost use Rattle.rg_view.specs.States.{place_of_state};
    ghost use Rattle.rg_view.specs.Tables.{IsTable};

    ghost view = { λ s. values_of s.states.entries };

    ghost invariant = { λ s. IsTable place_of_state s.states.entries };
}

impl ResourceStates {
    /// Nothing is listed.
    pub fn new(alloc: Global) -> ResourceStates
        ensures value { result ≡ [] }
    {
        ResourceStates {
            states: IndexMap::new(alloc),
        }
    }

    /// What is listed for the resource on the node.
    pub fn at(&self, r: &Name, n: NodeId) -> Option<ResourceAt>
        ensures value { result ≡ state_at self.now r.now n }
    {
        self.states.get(&NameAt { name: *r, node: n }).copied()
    }

    /// The resource's flags and marks on the node, none where nothing is listed.
    pub fn state(&self, r: &Name, n: NodeId) -> ResourceAt
        ensures value { result ≡ state_of self.now r.now n }
    {
        self.at(r, n).unwrap_or(ResourceAt::unmarked(*r, n))
    }

    /// Lists this state in the place of the one for its resource and node, or else at the end.
    pub fn put(&mut self, s: ResourceAt) -> Result<(), NoMemory>
        ensures ok { OnOk result (self.new ≡ states_with self.old s) }
        ensures found { OnOk result (FindsAt state_at self.old s.resource s.node (Some s) self.new) }
        ensures err { OnErr result (self.new ≡ self.old) }
    {
        let place = NameAt {
            name: s.resource,
            node: s.node,
        };
        match self.states.insert(place, s) {
            Ok(_) => Ok(()),
            Err(_) => Err(NoMemory),
        }
    }

    /// Takes the resource on the node from the list. The others keep their order.
    pub fn remove(&mut self, r: &Name, n: NodeId)
        ensures value { self.new ≡ states_without self.old r.now n }
        ensures found { FindsAt state_at self.old r.now n None self.new }
    {
        self.states.shift_remove(&NameAt { name: *r, node: n });
    }

    /// Takes the resource on all nodes from the list. The others keep their order.
    pub fn remove_resource(&mut self, r: &Name)
        ensures value { self.new ≡ states_of_others self.old r.now }
        ensures found { LosesAt state_at self.old r.now self.new }
    {
        self.states.retain(|_, s| r.bytes() != s.resource.bytes());
    }

    /// How many are listed.
    pub fn len(&self) -> usize
        ensures value { result ≡ length self.now }
        ensures apart { StatesAreApart self.now }
    {
        self.states.len()
    }

    /// The state at this place of the list, counted from 0.
    pub fn get(&self, place: usize) -> Option<ResourceAt>
        ensures value { result ≡ slice_get self.now place }
    {
        self.states.get_index(place).map(|(_, s)| *s)
    }
}
