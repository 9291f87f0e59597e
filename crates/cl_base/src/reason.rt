use crate::name::Name;

/// Why a resource group is not online on a node.
#[derive(Clone, Copy, Debug, PartialEq, Eq)]
pub enum Reason {
    /// The group is not managed.
    Unmanaged,
    /// It is not wanted online.
    Offline,
    /// It is suspended.
    Suspended,
    /// It has no enabled resource.
    Empty,
    /// The node is no member.
    NotMember,
    /// One of its resources could not be stopped on some member.
    StopFailed,
    /// The node was evacuated.
    Evacuated,
    /// It failed to start there twice or more of late.
    StartFailed,
    /// A monitor moved it away from there of late.
    Moved,
    /// It is leaving the node.
    Leaving,
    /// The affinity to this group forbids the node.
    Affinity(Name),
    /// It depends on this group or resource, which is not there.
    Dependency(Name),
    /// With it the node would exceed the hard limit of this load.
    Load(Name),
    /// This resource is faulted there.
    Faulted(Name),
    /// This resource waits to be started there.
    Blocked(Name),
}
