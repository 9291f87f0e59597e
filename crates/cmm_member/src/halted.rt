ghost use Rattle.std.specs.Prelude.{◌≡◌};

use crate::down::DownNode;
use cl_base::{DevSet, NodeId, Panic};
use std::marker::Model;

/// A node that has panicked. All that it kept in memory is lost but the cause. Contracts see it as a
/// `HaltedState`.
#[derive(Debug, Drop)]
pub struct HaltedNode {
    me: NodeId,
    first_valid: DevSet,
    cause: Panic,
}

impl Model for HaltedNode {
    ghost use Rattle.cmm_member.specs.Nodes.{HaltedState};

    ghost Value = { HaltedState };

    ghost view = { λ h. record { me = h.me; first_valid = h.first_valid; cause = h.cause } };
}

impl HaltedNode {
    // What a panic leaves.
    pub(crate) fn new(me: NodeId, first_valid: DevSet, cause: Panic) -> HaltedNode
        ensures value { result ≡ record { me = me; first_valid = first_valid; cause = cause } }
    {
        HaltedNode {
            me,
            first_valid,
            cause,
        }
    }

    /// Why it panicked. This takes no memory.
    pub fn cause(&self) -> Panic
        ensures value { result ≡ self.now.cause }
    {
        self.cause
    }

    /// The node as it is down. This takes no memory.
    pub fn down(self) -> DownNode
        ensures value { result ≡ record { me = self.me; first_valid = self.first_valid } }
    {
        DownNode::new(self.me, self.first_valid)
    }
}
