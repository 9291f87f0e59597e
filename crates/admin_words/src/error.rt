ghost use Rattle.std.specs.Prelude.{◌≡◌};
ghost use Rattle.admin_words.specs.declared.error.WordError.TheVariants.{NoMemory};

use std::alloc::AllocError;
use thiserror::Error;

/// Why words are no command.
#[derive(Clone, Copy, Debug, PartialEq, Eq, Error)]
pub enum WordError {
    /// The first words are no command's.
    #[error("unknown command")]
    UnknownCommand,
    /// The command has more operands than these.
    #[error("missing operand")]
    MissingOperand,
    /// A word is not of its operand's form or range, or is one too many.
    #[error("bad value")]
    BadValue,
    /// There was no memory.
    #[error("no memory")]
    NoMemory,
}

impl From<AllocError> for WordError {
    ghost from_gives = { λ _ e. e ≡ NoMemory };

    fn from(_: AllocError) -> WordError {
        WordError::NoMemory
    }
}
