use cl_base::{NodeId, Refusal};

/// The answer to a command.
#[derive(Drop)]
pub enum Answer {
    /// It is done.
    Ok,
    /// Its membership ended before its answer came.
    Unknown,
    /// There is no such command.
    UnknownCommand,
    /// It has too few words.
    MissingOperand,
    /// A word has not the form that is wanted there, or is one too many.
    BadValue,
    /// The node is no member.
    NotMember,
    /// This node, the president, is to be asked.
    Ask(NodeId),
    /// Too many requests of the node wait.
    QueueFull,
    /// It is refused over the configuration.
    Refused(Refusal),
}

/// A command of an administrator at a node. A node numbers its commands from 1 since its boot.
#[derive(Drop)]
pub enum CommandEntry {
    /// It is given.
    Asked {
        /// The node.
        node: NodeId,
        /// The command's number.
        number: u64,
    },
    /// It is answered.
    Answered {
        /// The node.
        node: NodeId,
        /// The command's number.
        number: u64,
        /// The answer.
        answer: Answer,
    },
}
