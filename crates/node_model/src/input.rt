use cl_base::{Bytes, DevId, Name, NodeId};
use pgr_device::{Failed, PrAnswer};
use wire::Message;

/// What happens to a node.
#[derive(Drop)]
pub enum Input {
    /// It starts from its record.
    Boot,
    /// It goes down and loses all but its record.
    Crash,
    /// Its clock ticks.
    Tick,
    /// A packet is delivered to it.
    Packet {
        /// The node that sent it.
        from: NodeId,
        /// The message that it holds.
        message: Message,
    },
    /// The command of its tasks that is due is about to be done.
    CommandDue,
    /// That command is answered so.
    Answered(Result<PrAnswer, Failed>),
    /// Its write to a device is answered so.
    Wrote {
        /// The device.
        device: DevId,
        /// What it wrote.
        value: u64,
        /// The answer.
        answer: Result<PrAnswer, Failed>,
    },
    /// An administrator gives it a command, in these words.
    Commanded(Bytes),
    /// The monitor of a resource reports.
    Reported {
        /// The resource.
        resource: Name,
        /// Whether it is well.
        good: bool,
    },
    /// A request of a client of a shared address comes to it.
    Client {
        /// The shared address.
        address: Name,
        /// The client.
        client: u32,
        /// The port that it asks for.
        port: u16,
    },
}
