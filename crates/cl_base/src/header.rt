use crate::items::Items;
use crate::node_set::NodeSet;

/// The version of a cluster schedule. The second has more nodes, nodes that come and go, load
/// limits, shared addresses and quorum servers.
#[derive(Clone, Copy, Debug, PartialEq, Eq)]
pub enum Version {
    /// At most 16 nodes, all of them configured.
    One,
    /// At most 32 nodes, of which the header configures some.
    Two,
}

/// What a shared device is at first.
#[derive(Clone, Copy, Debug, PartialEq, Eq)]
pub enum DeviceKind {
    /// A disk that holds data.
    Data,
    /// A disk that is a quorum device, too.
    Quorum,
    /// A quorum device that is a server, reached by messages.
    Server,
}

/// A shared device as the header of a cluster schedule lists it.
#[derive(Clone, Copy, Debug, PartialEq, Eq)]
pub struct HeaderDevice {
    /// What it is at first.
    pub kind: DeviceKind,
    /// The nodes that have a path to it.
    pub attached: NodeSet,
}

/// The devices of a header; device d stands at place d - 1.
pub type HeaderDevices = Items<HeaderDevice>;

/// The header of a cluster schedule: what the simulated cluster starts with.
#[derive(Debug, Drop)]
pub struct Header {
    /// The version of the schedule.
    pub version: Version,
    /// The cluster's id, not 0.
    pub cluster: u32,
    /// How many nodes there are: they are numbered from 1.
    pub nodes: u64,
    /// The nodes that are configured at first: under version 1 all of them.
    pub configured: NodeSet,
    /// The shared devices, numbered from 1.
    pub devices: HeaderDevices,
}
