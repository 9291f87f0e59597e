use thiserror::Error;

/// This number names no node or no device: it is 0, or above the greatest number there is.
#[derive(Clone, Copy, Debug, PartialEq, Eq, Error)]
#[error("{0} is out of range")]
pub struct BadNumber(pub u64);
