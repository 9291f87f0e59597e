use cl_base::{Bytes, DropCause, MessageName, NodeId};

/// What becomes of a packet. Packets are numbered from 1.
#[derive(Drop)]
pub enum PacketEntry {
    /// It is sent.
    Sent {
        /// Its number.
        number: u64,
        /// Its sender.
        from: NodeId,
        /// Its receiver.
        to: NodeId,
        /// The message that it holds.
        message: MessageName,
        /// Its bytes.
        bytes: Bytes,
    },
    /// It arrives.
    Delivered {
        /// Its number.
        number: u64,
        /// Its sender.
        from: NodeId,
        /// Its receiver.
        to: NodeId,
    },
    /// The packet of this number is lost.
    Lost(u64),
    /// It is sent once more.
    Repeated {
        /// Its number.
        number: u64,
        /// The number of the copy.
        copy: u64,
    },
    /// It is dropped.
    Dropped {
        /// Its number.
        number: u64,
        /// Why.
        cause: DropCause,
    },
}
