use cl_base::{Epoch, Lacking, NodeId, NodeSet};

/// How an attempt on a membership begins, or ends without one.
#[derive(Drop)]
pub enum AttemptEntry {
    /// It begins.
    Begun {
        /// Its epoch.
        epoch: Epoch,
        /// Its members.
        members: NodeSet,
    },
    /// It has too few votes.
    Votes {
        /// Its epoch.
        epoch: Epoch,
        /// The votes that it has.
        have: u64,
        /// The votes that it needs.
        need: u64,
        /// The quorum devices that it lacks.
        lacking: Lacking,
    },
    /// A greater promise stands against it.
    Superseded {
        /// Its epoch.
        epoch: Epoch,
        /// The greater one.
        by: Epoch,
    },
    /// A member did not answer.
    Silent {
        /// Its epoch.
        epoch: Epoch,
        /// The member.
        node: NodeId,
    },
    /// A member that has resources up knows less than the others.
    Excluded {
        /// Its epoch.
        epoch: Epoch,
        /// The member.
        node: NodeId,
    },
    /// A member is configured neither under the newest committed updates nor under these with the
    /// pending one.
    Foreign {
        /// Its epoch.
        epoch: Epoch,
        /// The least such member.
        node: NodeId,
    },
}
