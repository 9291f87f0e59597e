use cl_base::{Bytes, DevSet, Epoch, Name, NodeId, NodeSet};

/// How a resource stands on a node, as a membership takes it over.
#[derive(Clone, Copy)]
pub struct AdoptedFlags {
    /// Its network part is up.
    pub pre: bool,
    /// It is up.
    pub run: bool,
    /// It is monitored.
    pub mon: bool,
    /// It is faulted.
    pub faulted: bool,
    /// It could not be stopped.
    pub stop_failed: bool,
}

/// What a membership starts with.
#[derive(Drop)]
pub enum StartEntry {
    /// The membership.
    Started {
        /// Its epoch.
        epoch: Epoch,
        /// Its members.
        members: NodeSet,
        /// The devices that it holds.
        held: DevSet,
        /// How many updates its base has.
        base: u64,
    },
    /// An update of its base.
    Base {
        /// Its epoch.
        epoch: Epoch,
        /// The update's place, from 1.
        place: u64,
        /// The update's words.
        words: Bytes,
    },
    /// A resource that it takes over.
    Adopted {
        /// Its epoch.
        epoch: Epoch,
        /// The node on which the resource has flags or marks.
        node: NodeId,
        /// The resource.
        resource: Name,
        /// Its flags and marks.
        flags: AdoptedFlags,
    },
}
