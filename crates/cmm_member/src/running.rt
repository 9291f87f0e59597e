ghost use Rattle.std.specs.Prelude.{◌≡◌};
ghost use Rattle.cmm_member.specs.Nodes.{down_of, halted_by, promised_to};
ghost use Rattle.cmm_member.specs.Views.{seen};

use crate::down::DownNode;
use crate::halted::HaltedNode;
use ccr_commit::Entries;
use cl_base::{DevSet, Epoch, NodeId, NodeSet, Panic};

/// What a node keeps on its local disk.
#[derive(Debug, Drop)]
pub struct Record {
    /// The greatest epoch that it promised.
    pub promised: Epoch,
    /// The epoch that it installed last, or zero.
    pub installed: Epoch,
    /// The members of that attempt.
    pub members: NodeSet,
    /// The devices that are valid to it.
    pub valid: DevSet,
    /// The updates of the configuration.
    pub entries: Entries,
}

/// What a running node keeps, whether it is a member or not.
#[derive(Debug, Drop)]
pub struct Running {
    /// The node.
    pub me: NodeId,
    /// The devices that are valid to it before its first record.
    pub first_valid: DevSet,
    /// Its record.
    pub durable: Record,
    /// The epoch of its last promise since it came up, or zero.
    pub session: Epoch,
    /// The devices that it has joined in this session.
    pub joined: DevSet,
}

impl Running {
    /// The same node with the promise p, in its session.
    pub fn promise(self, p: Epoch) -> Running
        ensures { seen result ≡ promised_to (seen self) p }
    {
        let mut running = self;
        running.durable.promised = p;
        running.session = p;
        running.joined = DevSet::empty();
        running
    }

    /// The node after a panic.
    pub fn halt(self, cause: Panic) -> HaltedNode
        ensures { result ≡ halted_by (seen self) cause }
    {
        HaltedNode::new(self.me, self.first_valid, cause)
    }

    /// The node as it is down.
    pub fn crash(self) -> DownNode
        ensures { result ≡ down_of (seen self) }
    {
        DownNode::new(self.me, self.first_valid)
    }
}
