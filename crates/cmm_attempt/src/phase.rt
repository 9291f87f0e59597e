use cl_base::NodeId;
use wire::Message;

/// How far an attempt has come.
#[derive(Clone, Copy, PartialEq, Eq)]
pub enum Phase {
    /// The members' Promises are awaited.
    Collecting,
    /// The votes under the newest record are awaited.
    Choosing,
    /// Quorum devices are being seized.
    SeizingVotes,
    /// The other devices are being seized.
    SeizingOthers,
    /// The members' Readies are awaited.
    Installing,
    /// The attempt has ended, or the membership starts.
    Over,
}

/// A Ready that was taken.
#[derive(Drop)]
pub struct Readied {
    /// The node that sent it.
    pub node: NodeId,
    /// The message.
    pub message: Message,
}
