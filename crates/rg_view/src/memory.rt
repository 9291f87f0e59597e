use thiserror::Error;

/// There was no memory for one more entry. Nothing is changed.
#[derive(Clone, Copy, Debug, PartialEq, Eq, Error)]
#[error("no memory")]
pub struct NoMemory;
