use cl_base::{Epoch, Panic};

/// Why a node goes down.
#[derive(Clone, Copy)]
pub enum DownCause {
    /// It was made to crash.
    Crash,
    /// It was stopped in a call of its local disk.
    Stopped,
    /// It panicked.
    Panic(Panic),
}

/// What a node tells of itself.
#[derive(Clone, Copy)]
pub enum NodeEntry {
    /// It boots.
    Up,
    /// It goes down.
    Down(DownCause),
    /// Its clock ticked.
    Ticked,
    /// It saved its record.
    Saved,
    /// It has the membership of this epoch as its installed one.
    Installed(Epoch),
    /// It is a member of the membership of this epoch.
    Member(Epoch),
}
