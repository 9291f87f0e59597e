use cl_base::SeizeEnd;
use pgr_device::KeyList;

/// For what a device is seized.
#[derive(Clone, Copy, Debug, PartialEq, Eq)]
pub enum SeizeKind {
    /// For its votes: as a quorum device.
    Vote,
    /// As a device without votes.
    Plain,
}

/// How a seizing ended, with the keys that were read last.
pub type SeizeResult = SeizeEnd<KeyList>;

/// How joining a device ended.
#[derive(Clone, Copy, Debug, PartialEq, Eq)]
pub enum JoinResult {
    /// The node has joined it.
    Joined,
    /// Its word is this other one.
    Late(u64),
    /// A command failed.
    Fault,
}
