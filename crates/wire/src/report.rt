use cl_base::{Bytes, Items};

/// The flags and marks of a resource on a node.
#[derive(Clone, Copy, Debug, PartialEq, Eq)]
pub struct Marks {
    /// Its network addresses are prepared.
    pub pre: bool,
    /// It was started.
    pub run: bool,
    /// It is monitored.
    pub mon: bool,
    /// It failed to start.
    pub faulted: bool,
    /// It failed to stop.
    pub stop_failed: bool,
    /// Its monitor failed to start.
    pub monitor_failed: bool,
}

/// The seconds at which a group last failed to start, the two last at most, in order.
#[derive(Clone, Copy, Debug, PartialEq, Eq)]
pub enum LastFailures {
    /// It did not fail to start.
    Never,
    /// It failed to start once.
    Once(u64),
    /// It failed to start twice or more.
    Twice(u64, u64),
}

/// What a node reports of a resource.
#[derive(Debug, Drop)]
pub struct ResourceReport {
    /// The resource's name.
    pub resource: Bytes,
    /// Its flags and marks on the node.
    pub marks: Marks,
}

/// What is reported of resources, in order.
pub type ResourceReports = Items<ResourceReport>;

/// What a node reports of a group.
#[derive(Debug, Drop)]
pub struct GroupReport {
    /// The group's name.
    pub group: Bytes,
    /// The seconds at which it last failed to start on the node.
    pub failures: LastFailures,
    /// The second at which a monitor last asked to move it from the node.
    pub moved: Option<u64>,
}

/// What is reported of groups, in order.
pub type GroupReports = Items<GroupReport>;

/// What a node reports of its resources and groups where it joins a membership.
#[derive(Debug, Drop)]
pub struct Report {
    /// Its resources.
    pub resources: ResourceReports,
    /// Its groups.
    pub groups: GroupReports,
}
