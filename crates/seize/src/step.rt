use crate::kind::{JoinResult, SeizeResult};
use pgr_device::KeyList;

/// How far a seizing has come: what it does next.
#[derive(Clone, Copy, Debug, PartialEq, Eq)]
pub enum SeizeStep {
    /// It reads the keys, to find the own one.
    Check,
    /// It registers the own key.
    Register,
    /// It reads the word.
    ReadWord,
    /// It swaps this word, a smaller one, for the epoch.
    Swap { expected: u64 },
    /// It reserves.
    Reserve,
    /// It reads the keys, for the `reading`th time running (1 to 64).
    ReadKeys { reading: u64 },
    /// It preempts this key, which the `reading`th reading running showed (1 to 63).
    Preempt { victim: u64, reading: u64 },
    /// It reads the word once more. These keys were read last.
    Confirm { keys: KeyList },
    /// Nothing: it has ended so.
    Ended(SeizeResult),
}

/// How far a joining has come: what it does next.
#[derive(Clone, Copy, Debug, PartialEq, Eq)]
pub enum JoinStep {
    /// It registers the own key.
    Register,
    /// It reads the word.
    ReadWord,
    /// Nothing: it has ended so.
    Ended(JoinResult),
}
