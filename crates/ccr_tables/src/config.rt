ghost use Rattle.std.specs.Prelude.{◌≡◌, ◌≤◌, length, IfOk};
ghost use Rattle.std.specs.Option.{option_copied};
ghost use Rattle.cl_base.specs.Limits.{most_devices};
ghost use Rattle.rg_props.specs.Lookups.{named};
ghost use Rattle.ccr_tables.specs.State.{first_config};
ghost use Rattle.ccr_tables.specs.Updates.{generation_of};
ghost use Rattle.ccr_tables.specs.Refusals.{has_device};

use crate::address::Address;
use crate::addresses::Addresses;
use crate::error::NoMemory;
use crate::generations::Generations;
use cl_base::{DevId, Header, Name, NodeId, Table, Version};
use load_limits::Limits;
use quorum_votes::{DevState, VoteChange, VoteError, Votes};
use rg_props::Groups;
use rt_types::Types;
use std::alloc::Global;
use std::marker::Model;

/// The configuration of a cluster. Contracts see it as a `ConfigState`.
pub struct Config {
    pub(crate) nodes: u64,
    pub(crate) votes: Votes,
    pub(crate) order: Vec<NodeId>,
    pub(crate) types: Types,
    pub(crate) groups: Groups,
    pub(crate) limits: Limits,
    pub(crate) addresses: Addresses,
    pub(crate) generations: Generations,
}

impl Drop for Config {
    fn drop(self) {
        let Config {
            nodes: _,
            votes: _,
            order: _,
            types: _,
            groups: _,
            limits: _,
            addresses: _,
            generations: _,
        } = self;
    }
}

impl Model for Config {
    ghost use Rattle.ccr_tables.specs.State.{ConfigState};

    ghost Value = { ConfigState };

    ghost view = { λ c. record { nodes = c.nodes; votes = c.votes; order = c.order.items; types = c.types; groups = c.groups; limits = c.limits; addresses = c.addresses; generations = c.generations } };
}

impl Config {
    /// What the header says, before any update.
    pub fn first(alloc: Global, header: &Header) -> Result<Config, NoMemory>
        requires devices { length header.now.devices ≤ most_devices }
        ensures value { IfOk result (λ config. config ≡ first_config header.now) }
    {
        Ok(Config {
            nodes: header.nodes,
            votes: Votes::first(header),
            order: header.configured.nodes(alloc)?,
            types: Types::new(alloc),
            groups: Groups::new(alloc, header.version),
            limits: Limits::new(alloc),
            addresses: Addresses::new(alloc),
            generations: Generations {
                infrastructure: 0,
                types: 0,
                groups: 0,
                resources: 0,
                addresses: 0,
            },
        })
    }

    /// The version of the schedule.
    pub fn version(&self) -> Version
        ensures value { result ≡ self.now.groups.version }
    {
        self.groups.version()
    }

    /// How many nodes the header has.
    pub fn nodes(&self) -> u64
        ensures value { result ≡ self.now.nodes }
    {
        self.nodes
    }

    /// The configured nodes, in the order in which they were configured.
    pub fn order(&self) -> &[NodeId]
        ensures value { result.now ≡ self.now.order }
    {
        self.order.as_slice()
    }

    /// The votes of nodes and devices.
    pub fn votes(&self) -> &Votes
        ensures value { result.now ≡ self.now.votes }
    {
        &self.votes
    }

    /// Whether the header has the device.
    pub fn has_device(&self, d: DevId) -> bool
        ensures value { result ≡ has_device self.now d }
    {
        // The votes know no other device, and this changes none.
        let absent = VoteChange::Device {
            dev: d,
            state: DevState::Absent,
        };
        match self.votes.change(absent) {
            Err(VoteError::Unknown) => false,
            Ok(_) | Err(VoteError::SameValue) => true,
        }
    }

    /// The resource types.
    pub fn types(&self) -> &Types
        ensures value { result.now ≡ self.now.types }
    {
        &self.types
    }

    /// The groups and the resources.
    pub fn groups(&self) -> &Groups
        ensures value { result.now ≡ self.now.groups }
    {
        &self.groups
    }

    /// The load limits of nodes.
    pub fn limits(&self) -> &Limits
        ensures value { result.now ≡ self.now.limits }
    {
        &self.limits
    }

    /// The shared addresses.
    pub fn addresses(&self) -> &Addresses
        ensures value { result.now ≡ self.now.addresses }
    {
        &self.addresses
    }

    /// The shared address of this name, if there is one.
    pub fn address(&self, a: &Name) -> Option<&Address>
        ensures value { option_copied result ≡ named self.now.addresses a.now }
    {
        self.addresses.address(a)
    }

    /// How many updates have changed the table.
    pub fn generation(&self, t: Table) -> u64
        ensures value { result ≡ generation_of self.now.generations t }
    {
        self.generations.of(t)
    }
}
