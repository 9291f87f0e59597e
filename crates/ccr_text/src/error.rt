ghost use Rattle.std.specs.Prelude.{◌≡◌};
ghost use Rattle.ccr_text.specs.declared.error.TextError.TheVariants.{NoMemory};

use std::alloc::{AllocError, AllocFailed};
use thiserror::Error;

/// A SHA-256 digest (FIPS 180-4), kept in place.
#[derive(Clone, Copy, Debug, PartialEq, Eq)]
pub struct Digest {
    /// Its bytes, the first one first.
    pub bytes: [u8; 32],
}

/// Why a text was not read as a table's.
#[derive(Clone, Copy, Debug, PartialEq, Eq, Error)]
pub enum TextError {
    /// The first line, counted from 1, that a table's text cannot have there: it is missing among
    /// the first two, has another form, repeats a key, or lacks its newline.
    #[error("line {0} is none of a table's text")]
    BadLine(u64),
    /// Every line is allowed, but the checksum is not that of the rows.
    #[error("the checksum is not that of the rows")]
    BadChecksum {
        /// The digest that the text keeps.
        kept: Digest,
        /// The digest of its rows.
        computed: Digest,
    },
    /// Memory ran out.
    #[error("out of memory")]
    NoMemory,
}

impl From<AllocError> for TextError {
    ghost from_gives = { λ _ e. e ≡ NoMemory };

    fn from(_: AllocError) -> TextError {
        TextError::NoMemory
    }
}

impl<T: Drop> From<AllocFailed<T>> for TextError {
    ghost from_gives = { λ _ e. e ≡ NoMemory };

    fn from(_: AllocFailed<T>) -> TextError {
        TextError::NoMemory
    }
}
