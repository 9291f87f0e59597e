ghost use Rattle.std.specs.Prelude.{◌≡◌};
ghost use Rattle.replay.specs.Statuses.{code_of};

/// How a run ended.
#[derive(Clone, Copy, Debug, PartialEq, Eq)]
pub enum Status {
    /// The input was read to its end, or to the line that ends the schedule.
    Done,
    /// The words are no command. Nothing was read or written.
    Usage,
    /// A line was refused; the last line written says which, and why.
    Refused,
    /// The source failed.
    ReadFault,
    /// The sink failed, or took nothing of a piece.
    WriteFault,
    /// There was no memory.
    NoMemory,
    /// A line was too long, or there were too many; the last line written says which.
    TooLarge,
}

impl Status {
    /// The exit status of a process: 0, and 2 to 7 in order.
    pub fn code(self) -> u8
        ensures value { result ≡ code_of self }
    {
        match self {
            Status::Done => 0,
            Status::Usage => 2,
            Status::Refused => 3,
            Status::ReadFault => 4,
            Status::WriteFault => 5,
            Status::NoMemory => 6,
            Status::TooLarge => 7,
        }
    }
}
