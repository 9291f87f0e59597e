ghost use Rattle.std.specs.Prelude.{◌≡◌, IfOk};
ghost use Rattle.status_report.specs.StatusLines.{group_state_text, resource_state_text, reason_text, member_text, quorum_state_text};

use crate::status_entry::QuorumState;
use crate::words::{named, plain};
use cl_base::{GroupState, Reason, ResourceState};
use std::alloc::{AllocError, Global};

pub fn group_state_word(state: GroupState) -> &'static str
    ensures { result.now ≡ group_state_text state }
{
    match state {
        GroupState::Unmanaged => "UNMANAGED",
        GroupState::ErrorStopFailed => "ERROR_STOP_FAILED",
        GroupState::OnlineFaulted => "ONLINE_FAULTED",
        GroupState::Online => "ONLINE",
        GroupState::PendingOnline => "PENDING_ONLINE",
        GroupState::PendingOnlineBlocked => "PENDING_ONLINE_BLOCKED",
        GroupState::PendingOffline => "PENDING_OFFLINE",
        GroupState::Offline => "OFFLINE",
    }
}

pub fn resource_state_word(state: ResourceState) -> &'static str
    ensures { result.now ≡ resource_state_text state }
{
    match state {
        ResourceState::StopFailed => "STOP_FAILED",
        ResourceState::StartFailed => "START_FAILED",
        ResourceState::Online => "ONLINE",
        ResourceState::Starting => "STARTING",
        ResourceState::Offline => "OFFLINE",
    }
}

/// Why a group is not online on a node.
pub fn reason_text(alloc: Global, reason: &Reason) -> Result<Vec<u8>, AllocError>
    ensures { IfOk result (λ text. text.items ≡ reason_text reason.now) }
{
    match reason {
        Reason::Unmanaged => plain(alloc, "unmanaged"),
        Reason::Offline => plain(alloc, "offline"),
        Reason::Suspended => plain(alloc, "suspended"),
        Reason::Empty => plain(alloc, "empty"),
        Reason::NotMember => plain(alloc, "not-member"),
        Reason::StopFailed => plain(alloc, "stop-failed"),
        Reason::Evacuated => plain(alloc, "evacuated"),
        Reason::StartFailed => plain(alloc, "start-failed"),
        Reason::Moved => plain(alloc, "moved"),
        Reason::Leaving => plain(alloc, "leaving"),
        Reason::Affinity(target) => named(alloc, "affinity ", target),
        Reason::Dependency(target) => named(alloc, "dependency ", target),
        Reason::Load(limit) => named(alloc, "load ", limit),
        Reason::Faulted(resource) => named(alloc, "faulted ", resource),
        Reason::Blocked(resource) => named(alloc, "blocked ", resource),
    }
}

pub fn member_word(member: bool) -> &'static str
    ensures { result.now ≡ member_text member }
{
    if member { "member" } else { "absent" }
}

pub fn quorum_state_word(state: QuorumState) -> &'static str
    ensures { result.now ≡ quorum_state_text state }
{
    match state {
        QuorumState::Held => "held",
        QuorumState::Lost => "lost",
        QuorumState::Off => "off",
    }
}
