use cl_base::{Epoch, NodeSet};

/// The membership of which a node is a member.
#[derive(Clone, Copy)]
pub struct Membership {
    /// Its epoch.
    pub epoch: Epoch,
    /// Its members.
    pub members: NodeSet,
}
