use cl_base::{DevId, Epoch, Items, Lacking, NodeId};
use seize::SeizeKind;
use wire::{Install, Message};

/// How an attempt ends that starts no membership.
#[derive(Drop)]
pub enum AttemptEnd {
    /// The votes are too few.
    Votes {
        /// The votes of the members and of the devices held.
        have: u64,
        /// The votes that are needed.
        need: u64,
        /// The quorum devices under these votes that are not held.
        lacking: Lacking,
    },
    /// A member had promised this epoch.
    Superseded(Epoch),
    /// This member's answer did not come.
    Silent(NodeId),
    /// This member is not configured, neither under the newest record's committed updates nor with
    /// its pending one.
    Foreign(NodeId),
    /// This member has resources of a membership that a newer one left out.
    Excluded(NodeId),
}

/// What a coordinator is to do next in an attempt.
#[derive(Drop)]
pub enum Step {
    /// The message is to be sent.
    Send {
        /// The receiver.
        to: NodeId,
        /// The message.
        message: Message,
    },
    /// The coordinator is to seize the device itself.
    SeizeHere {
        /// The device.
        dev: DevId,
        /// For what it is seized.
        kind: SeizeKind,
    },
    /// The votes under this member's record are wanted.
    NeedVotes {
        /// The member with the newest record.
        newest: NodeId,
    },
    /// The coordinator is to install the membership itself.
    InstallHere(Install),
    /// The coordinator is to start the membership.
    StartHere,
    /// The attempt has ended.
    Ended(AttemptEnd),
}

/// Steps in the order in which they are to be done.
pub type Steps = Items<Step>;
