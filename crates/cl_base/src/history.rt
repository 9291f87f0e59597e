use crate::items::Seconds;

/// What the president does where a method of a resource fails.
#[derive(Clone, Copy, Debug, PartialEq, Eq)]
pub enum FailoverMode {
    /// A resource that fails to start is marked faulted; one that fails to stop is marked.
    None,
    /// A resource that fails to start takes its group to another node.
    Soft,
    /// As `Soft`, and a node on which a method to stop fails panics.
    Hard,
    /// A failed probe restarts the resource and never moves its group.
    RestartOnly,
    /// A failed probe is logged alone.
    LogOnly,
}

/// What a node keeps of a resource and its group: when they failed to start, were moved, or were
/// restarted.
#[derive(Debug, Drop)]
pub struct History {
    /// The seconds of the start failures.
    pub failures: Seconds,
    /// The seconds of the moves that a monitor asked for.
    pub moves: Seconds,
    /// The seconds of the restarts that a monitor asked for.
    pub restarts: Seconds,
}
