use cl_base::Bytes;

/// A request that waits for its answer.
#[derive(Debug, Drop)]
pub struct Request {
    /// Its number: a node's requests are numbered since its boot.
    pub number: u64,
    /// What it asks for, in words.
    pub text: Bytes,
    /// Whether its answer is told: that of a command is, that of a monitor's request is not.
    pub told: bool,
    /// The second at which it was asked.
    pub second: u64,
}
