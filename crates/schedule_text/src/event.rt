use cl_base::{Bytes, DevId, Method, Name, NodeId, NodeSet, Outcome};

/// What the ranges of a local disk that are not synced come to hold at a stop.
#[derive(Clone, Copy)]
pub enum StopChoice {
    /// What they held at the last sync.
    Old,
    /// What was written since.
    New,
    /// Zeros.
    Zero,
}

/// A line of a cluster schedule after its header: what happens next.
#[derive(Drop)]
pub enum Event {
    /// The node starts from its record.
    Boot(NodeId),
    /// The node goes down and loses all but its record.
    Crash(NodeId),
    /// A later local disk call of the node stops it.
    CrashAt {
        /// The node.
        node: NodeId,
        /// Which of its next local disk calls it is, 1 to 1,000.
        calls: u64,
        /// What becomes of what is not synced.
        choice: StopChoice,
    },
    /// A tick of the node's clock.
    Tick(NodeId),
    /// The packet of this number arrives.
    Deliver(u64),
    /// It is lost.
    Lose(u64),
    /// It is sent once more.
    Repeat(u64),
    /// The oldest packet in flight from the one node to the other arrives.
    Next {
        /// Its sender.
        from: NodeId,
        /// Its receiver.
        to: NodeId,
    },
    /// It is lost.
    Drop {
        /// Its sender.
        from: NodeId,
        /// Its receiver.
        to: NodeId,
    },
    /// It is sent once more.
    Again {
        /// Its sender.
        from: NodeId,
        /// Its receiver.
        to: NodeId,
    },
    /// The node does its next queued device command.
    Disk(NodeId),
    /// The node's next command to the device fails.
    Fault {
        /// The node.
        node: NodeId,
        /// The device.
        device: DevId,
        /// Whether it is done all the same.
        done: bool,
    },
    /// The node writes to the device.
    Write {
        /// The node.
        node: NodeId,
        /// The device.
        device: DevId,
        /// What it writes.
        value: u64,
    },
    /// An administrator's command at the node.
    Command {
        /// The node.
        node: NodeId,
        /// The words of the command, with one space between two.
        words: Bytes,
    },
    /// How the next such call of a method will end.
    Outcome {
        /// The node on which it is called.
        node: NodeId,
        /// The resource.
        resource: Name,
        /// The method.
        method: Method,
        /// How it ends.
        outcome: Outcome,
    },
    /// The monitor of the resource at the node reports.
    Probe {
        /// The node.
        node: NodeId,
        /// The resource.
        resource: Name,
        /// Whether the resource is well.
        good: bool,
    },
    /// The clock stands at this second.
    Clock(u64),
    /// Rounds among these nodes.
    Rounds {
        /// How many, 1 to 100.
        count: u64,
        /// The nodes.
        nodes: NodeSet,
    },
    /// A request of a client of a shared address comes to the node.
    Client {
        /// The node.
        node: NodeId,
        /// The shared address.
        address: Name,
        /// The client.
        client: u32,
        /// The port that it asks for.
        port: u16,
    },
}
