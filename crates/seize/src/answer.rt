//! What the answer to a command tells. Each function says `None` or false of an answer that counts
//! as a failure.
ghost use Rattle.std.specs.Prelude.{◌≡◌};
ghost use Rattle.seize.specs.Answers.{keys_told, word_told, word_found, is_good, is_conflict};

use pgr_device::{Failed, KeyList, PrAnswer};

/// What became of a command.
pub(crate) type Answer = Result<PrAnswer, Failed>;

/// The keys that were read.
pub(crate) fn keys_told(answer: Answer) -> Option<KeyList>
    ensures { result ≡ keys_told answer }
{
    let Ok(told) = answer else {
        return None;
    };
    match told {
        PrAnswer::Keys(keys) => Some(keys),
        _ => None,
    }
}

/// The word that was read.
pub(crate) fn word_told(answer: Answer) -> Option<u64>
    ensures { result ≡ word_told answer }
{
    match answer {
        Ok(PrAnswer::Word(word)) => Some(word),
        _ => None,
    }
}

/// The word that a swap found in place of the one that it expected.
pub(crate) fn word_found(expected: u64, answer: Answer) -> Option<u64>
    ensures { result ≡ word_found expected answer }
{
    match answer {
        Ok(PrAnswer::Miscompare(word)) if word != expected => Some(word),
        _ => None,
    }
}

/// Whether the command was done.
pub(crate) fn is_good(answer: &Answer) -> bool
    ensures { result ≡ is_good answer.now }
{
    matches!(answer, Ok(PrAnswer::Good))
}

/// Whether the device refused the command.
pub(crate) fn is_conflict(answer: &Answer) -> bool
    ensures { result ≡ is_conflict answer.now }
{
    matches!(answer, Ok(PrAnswer::Conflict))
}
