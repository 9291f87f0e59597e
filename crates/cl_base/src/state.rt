/// How a resource group stands on a node.
#[derive(Clone, Copy, Debug, PartialEq, Eq)]
pub enum GroupState {
    /// The group is not managed.
    Unmanaged,
    /// One of its resources could not be stopped there.
    ErrorStopFailed,
    /// It is to be online there, and one of its resources is faulted.
    OnlineFaulted,
    /// It is to be online there, and all its enabled resources are.
    Online,
    /// It is coming online.
    PendingOnline,
    /// It is to be online there, and nothing that would bring it there may be done now.
    PendingOnlineBlocked,
    /// It is going offline.
    PendingOffline,
    /// It is offline.
    Offline,
}

/// How a resource stands on a node.
#[derive(Clone, Copy, Debug, PartialEq, Eq)]
pub enum ResourceState {
    /// It could not be stopped.
    StopFailed,
    /// It is faulted: it could not be started.
    StartFailed,
    /// It is online.
    Online,
    /// Its network part is up, and the rest is not.
    Starting,
    /// It is offline.
    Offline,
}
