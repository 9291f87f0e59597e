use crate::items::Names;
use crate::name::Name;
use crate::node::NodeId;

/// What a command names, as it names it.
#[derive(Clone, Copy, Debug, PartialEq, Eq)]
pub enum Thing {
    /// A resource type, group, resource, table, load limit or shared address, by its name.
    Named(Name),
    /// A node or device, by its number.
    Numbered(u64),
}

/// Why a command is refused over the configuration in force: the first that fits, in this order.
#[derive(Debug, Drop)]
pub enum Refusal {
    /// This is not there.
    Unknown(Thing),
    /// It is there already.
    Exists,
    /// This names what is to be deleted.
    InUse(Name),
    /// The group is managed.
    Managed,
    /// The group is not managed.
    Unmanaged,
    /// The command would change nothing.
    SameValue,
    /// The node is not in the Nodelist.
    NotListed(NodeId),
    /// There are more nodes than Maximum_primaries.
    TooMany,
    /// There is no such property of it.
    BadProperty,
    /// The property has no such value.
    BadSetting,
    /// The group is still up on a member.
    StillUp,
    /// The dependencies would form this cycle.
    Cycle(Names),
    /// The type allows one resource alone, and there is one.
    Single,
    /// There is no stop-failed mark to clear.
    NoMark,
    /// The node is a member.
    NodeIsMember,
    /// The membership does not hold the device.
    DeviceNotHeld,
    /// The membership would lack a majority under the new votes.
    LoseQuorum {
        /// The votes that it would have.
        have: u64,
        /// The votes that it would need.
        need: u64,
    },
    /// The record would be longer than a node may save.
    RecordFull {
        /// The length that it would have, in bytes.
        length: u64,
    },
    /// The node has a vote.
    NodeHasVote,
}
