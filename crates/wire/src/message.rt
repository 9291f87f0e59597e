ghost use Rattle.std.specs.Prelude.{◌≡◌};
ghost use Rattle.wire.specs.Kinds.{kind_of};

use crate::lists::{Keys, Readings, Texts};
use crate::report::Report;
use cl_base::{
    Bytes, DevId, DevSet, Epoch, MessageKind, Method, NodeId, NodeSet, Outcome, SeizeEnd,
};

/// How a seizing ended, with the keys that were read last.
pub type SeizedResult = SeizeEnd<Keys>;

/// A membership as its coordinator has it installed.
#[derive(Debug, Drop)]
pub struct Install {
    /// The attempt's epoch.
    pub epoch: Epoch,
    /// The members.
    pub members: NodeSet,
    /// The committed updates.
    pub committed: Texts,
    /// The pending update, if there is one.
    pub pending: Option<Bytes>,
    /// What was read on the devices that are held.
    pub readings: Readings,
}

/// An order of the president to a member: a method to be called, or a clear.
#[derive(Debug, Drop)]
pub struct Order {
    /// The membership's epoch.
    pub epoch: Epoch,
    /// The order's number.
    pub number: u64,
    /// The method; none of an order to clear.
    pub method: Option<Method>,
    /// The resource's name.
    pub resource: Bytes,
}

/// What a message says, by kind.
#[derive(Debug, Drop)]
pub enum Body {
    /// The sender is there.
    Heartbeat {
        promised: Epoch,
        session: Epoch,
        member: bool,
    },
    /// An attempt begins.
    Collect {
        epoch: Epoch,
        members: NodeSet,
    },
    /// The sender takes part in the attempt; its record.
    Promise {
        epoch: Epoch,
        installed: Epoch,
        /// The members of the installed membership.
        members: NodeSet,
        /// The devices that are valid to the sender.
        valid: DevSet,
        /// Whether any resource has a flag on the sender.
        flagged: bool,
        committed: Texts,
        pending: Option<Bytes>,
    },
    /// The sender has promised a greater epoch.
    Nack {
        epoch: Epoch,
        promised: Epoch,
    },
    /// A quorum device is to be seized.
    SeizeQuorum {
        epoch: Epoch,
        members: NodeSet,
        device: DevId,
    },
    /// A data device is to be seized.
    SeizeData {
        epoch: Epoch,
        members: NodeSet,
        device: DevId,
    },
    /// How the seizing ended.
    Seized {
        epoch: Epoch,
        device: DevId,
        outcome: SeizedResult,
    },
    /// A membership is to be installed.
    Install(Install),
    /// The sender has installed it and joined these devices.
    Ready {
        epoch: Epoch,
        joined: DevSet,
        report: Report,
    },
    /// The membership starts.
    Start {
        epoch: Epoch,
    },
    /// An update is to be prepared at a place.
    Prepare {
        epoch: Epoch,
        place: u64,
        text: Bytes,
    },
    /// The sender has prepared the update.
    Prepared {
        epoch: Epoch,
        place: u64,
    },
    /// The update is committed.
    Commit {
        epoch: Epoch,
        place: u64,
    },
    /// An order of the president.
    Order(Order),
    /// How the order ended.
    Done {
        epoch: Epoch,
        number: u64,
        outcome: Outcome,
    },
    /// A command of a member that is not the president.
    Request {
        epoch: Epoch,
        number: u64,
        text: Bytes,
    },
    /// The answer to the command.
    Answer {
        epoch: Epoch,
        number: u64,
        text: Bytes,
    },
    /// The receiver is no member of a newer membership.
    Excluded {
        epoch: Epoch,
        newest: Epoch,
    },
}

impl Body {
    /// The kind of message that says this.
    pub fn kind(&self) -> MessageKind
        ensures value { result ≡ kind_of self.now }
    {
        match self {
            Body::Heartbeat { .. } => MessageKind::Heartbeat,
            Body::Collect { .. } => MessageKind::Collect,
            Body::Promise { .. } => MessageKind::Promise,
            Body::Nack { .. } => MessageKind::Nack,
            Body::SeizeQuorum { .. } => MessageKind::SeizeQuorum,
            Body::SeizeData { .. } => MessageKind::SeizeData,
            Body::Seized { .. } => MessageKind::Seized,
            Body::Install(_) => MessageKind::Install,
            Body::Ready { .. } => MessageKind::Ready,
            Body::Start { .. } => MessageKind::Start,
            Body::Prepare { .. } => MessageKind::Prepare,
            Body::Prepared { .. } => MessageKind::Prepared,
            Body::Commit { .. } => MessageKind::Commit,
            Body::Order(_) => MessageKind::Order,
            Body::Done { .. } => MessageKind::Done,
            Body::Request { .. } => MessageKind::Request,
            Body::Answer { .. } => MessageKind::Answer,
            Body::Excluded { .. } => MessageKind::Excluded,
        }
    }
}

/// A message from one node to another.
#[derive(Debug, Drop)]
pub struct Message {
    /// The node that sends it.
    pub sender: NodeId,
    /// What it says.
    pub body: Body,
}
