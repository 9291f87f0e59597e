ghost use Rattle.std.specs.Prelude.{◌≡◌, IfOk, IsSome};
ghost use Rattle.rg_props.specs.Lookups.{named};
ghost use Rattle.rgm_president.specs.Status.{group_state, reason_for};

use crate::president::President;
use crate::statuses::{group_state, reason_for};
use ccr_tables::Config;
use cl_base::{GroupState, Name, NodeId, Reason};
use rgm_state::NoMemory;
use std::alloc::Global;

impl President {
    /// How the group stands on the node.
    pub fn state(
        &self,
        alloc: Global,
        c: &Config,
        group: &Name,
        n: NodeId,
    ) -> Result<GroupState, NoMemory>
        requires { IsSome (named c.now.groups.groups group.now) }
        ensures value { IfOk result (λ state. state ≡ group_state c.now self.now.view group.now n) }
    {
        group_state(alloc, c, &self.view, group, n)
    }

    /// Why the group is not online on the node: where its goal lacks the node and has fewer nodes
    /// than desired, the first reason against the node; and where its goal has the node and it is
    /// faulted or blocked there, the first faulted resource, or else the first that waits.
    pub fn why(
        &self,
        alloc: Global,
        c: &Config,
        group: &Name,
        n: NodeId,
    ) -> Result<Option<Reason>, NoMemory>
        requires { IsSome (named c.now.groups.groups group.now) }
        ensures value { IfOk result (λ reason. reason ≡ reason_for c.now self.now.view group.now n) }
    {
        reason_for(alloc, c, &self.view, group, n)
    }
}
