/// Why a line of a schedule is skipped.
#[derive(Clone, Copy)]
pub enum SkipCause {
    /// The node is up.
    Up,
    /// The node is down.
    Down,
    /// There is no such packet.
    NoPacket,
    /// The node has no device command queued.
    NoWork,
    /// The resource is not monitored there.
    NoMonitor,
    /// The node is not the president.
    NoPresident,
    /// There is no such shared address.
    NoAddress,
}

/// What a line of a schedule comes to that no node answers.
#[derive(Clone, Copy)]
pub enum ScheduleEntry {
    /// The clock stands at this second.
    Clock(u64),
    /// The outcome of a call is queued.
    Queued,
    /// A fault or a stop is armed.
    Armed,
    /// The rounds are done.
    RoundsDone,
    /// The line could not act.
    Skipped(SkipCause),
}
