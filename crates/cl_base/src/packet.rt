ghost use Rattle.std.specs.Prelude.{◌≡◌, ◌≤◌};
ghost use Rattle.cl_base.specs.Kinds.{kind_byte};

/// Why a packet was dropped.
#[derive(Clone, Copy, Debug, PartialEq, Eq)]
pub enum DropCause {
    /// Its link held 64 packets when another was sent.
    Link,
    /// Too few cells were free for it.
    Pool,
    /// The node that it was delivered to was down.
    Down,
}

/// The kinds of messages between nodes, in the order of their bytes.
#[derive(Clone, Copy, Debug, PartialEq, Eq)]
pub enum MessageKind {
    Heartbeat,
    Collect,
    Promise,
    Nack,
    SeizeQuorum,
    SeizeData,
    Seized,
    Install,
    Ready,
    Start,
    Prepare,
    Prepared,
    Commit,
    Order,
    Done,
    Request,
    Answer,
    Excluded,
}

impl MessageKind {
    /// The byte that a message of this kind begins with, 1 to 18.
    pub fn byte(self) -> u8
        ensures value { result ≡ kind_byte self }
        ensures low { 1 ≤ result }
        ensures high { result ≤ 18 }
    {
        self as u8 + 1
    }
}

/// A message as the trace names it: its kind, and the number that follows it.
#[derive(Clone, Copy, Debug, PartialEq, Eq)]
pub struct MessageName {
    /// Its kind.
    pub kind: MessageKind,
    /// The device of `SeizeQuorum`, `SeizeData` and `Seized`, the place of `Prepare`, `Prepared` and
    /// `Commit`, the number of the order of `Order` and `Done`, and that of the request of `Request` and
    /// `Answer`; no other kind has one.
    pub number: Option<u64>,
}
