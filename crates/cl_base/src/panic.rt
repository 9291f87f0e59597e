use crate::device::DevId;
use crate::epoch::Epoch;
use crate::name::Name;

/// Why a node panics.
#[derive(Clone, Copy, Debug, PartialEq, Eq)]
pub enum Panic {
    /// The device refused its write: the node is fenced.
    Fenced(DevId),
    /// An attempt left it out, since its record is older than a membership that it was no part of;
    /// the newest epoch of which it was left out.
    Excluded(Epoch),
    /// Its local disk failed.
    Disk,
    /// A method that stops this resource failed, and its Failover_mode is HARD.
    Stop(Name),
}
