// Groups and resources as they are kept.
use crate::affinity::Affine;
use cl_base::{FailoverMode, Items, Name, Names, NodeId};
use load_limits::Factor;

/// Nodes in the order of preference.
pub type Nodes = Items<NodeId>;

/// Declared affinities in order.
pub type Affinities = Items<Affine>;

/// Load factors in order.
pub type Factors = Items<Factor>;

/// A resource group: its properties and its flags.
#[derive(Drop)]
pub struct Group {
    /// Nodelist: the nodes that may run it, the preferred ones first.
    pub nodelist: Nodes,
    /// Maximum_primaries: on how many nodes it may be online at once.
    pub maximum: u64,
    /// Desired_primaries: on how many nodes it is to be online.
    pub desired: u64,
    /// RG_dependencies: the groups that it depends on.
    pub dependencies: Names,
    /// RG_affinities: where it is to be, seen from other groups.
    pub affinities: Affinities,
    /// Pingpong_interval: for how many seconds a failure to start counts.
    pub pingpong: u64,
    /// Failback: whether it goes back to a preferred node that returns.
    pub failback: bool,
    /// Load_factors: what it adds to the loads of a node.
    pub factors: Factors,
    /// Priority: a group of a higher one is placed first.
    pub priority: u64,
    /// Whether it is managed.
    pub managed: bool,
    /// Whether it is wanted online.
    pub wanted: bool,
    /// Whether it is suspended.
    pub suspended: bool,
}

/// A resource: its group, its type, its properties and its flags.
#[derive(Drop)]
pub struct Resource {
    /// The name of its group.
    pub group: Name,
    /// The name of its type.
    pub resource_type: Name,
    /// Whether it is enabled.
    pub enabled: bool,
    /// Whether it is monitored.
    pub monitored: bool,
    /// Resource_dependencies: the resources that it needs.
    pub strong: Names,
    /// Resource_dependencies_weak: the resources that start before it.
    pub weak: Names,
    /// Resource_dependencies_offline_restart: the resources that it needs, and whose stopping
    /// restarts it.
    pub offline_restart: Names,
    /// Failover_mode: what becomes of it where a method fails.
    pub mode: FailoverMode,
    /// Retry_count: how often it is restarted within an interval.
    pub retry_count: u64,
    /// Retry_interval: the interval's seconds.
    pub retry_interval: u64,
}

/// What is set of a group or a resource by commands of its own.
#[derive(Clone, Copy, Debug, PartialEq, Eq)]
pub enum Flag {
    /// The group is managed.
    Managed,
    /// The group is wanted online.
    Wanted,
    /// The group is suspended.
    Suspended,
    /// The resource is enabled.
    Enabled,
    /// The resource is monitored.
    Monitored,
}

/// Which nodes a dependency of a resource speaks of.
#[derive(Clone, Copy, Debug, PartialEq, Eq)]
pub enum Scope {
    /// The node of the dependent resource alone.
    SameNode,
    /// Any member of the cluster.
    AnyMember,
}
