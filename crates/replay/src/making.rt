ghost use Rattle.std.specs.Prelude.{◌≡◌, ◌≤◌, map, IfSome};
ghost use Rattle.std.specs.String.{string_bytes};
ghost use Rattle.replay.specs.Gens.{making_by, making_of, number_of};

use schedule_text::{Numeral, decimal};

/// The most lines that follow the opening of a schedule that is made.
const MOST_MADE: u64 = 90_000;

/// A schedule that is to be made.
#[derive(Clone, Copy, Debug, PartialEq, Eq)]
pub struct Making {
    /// Its seed.
    pub seed: u64,
    /// How many lines follow its opening.
    pub count: u64,
}

/// The schedule that the words `gen SEED COUNT` ask for, if they are these.
pub fn read_making(words: &[String]) -> Option<Making>
    ensures value { result ≡ making_of (map string_bytes words.now) }
    ensures few { IfSome result (λ m. m.count ≤ 90000) }
{
    match words {
        [word, seed, count] => {
            if word.as_bytes() != b"gen".as_slice() {
                return None;
            }
            making_by(number(seed.as_str()), number(count.as_str()))
        }
        _ => None,
    }
}

fn making_by(seed: Option<u64>, count: Option<u64>) -> Option<Making>
    ensures value { result ≡ making_by seed count }
    ensures few { IfSome result (λ m. m.count ≤ 90000) }
{
    let (Some(seed), Some(count)) = (seed, count) else {
        return None;
    };
    if count > MOST_MADE {
        return None;
    }
    Some(Making { seed, count })
}

/// The number of 64 bits that the word is, if it is one.
fn number(word: &str) -> Option<u64>
    ensures { result ≡ number_of word.now }
{
    match decimal(word.as_bytes()) {
        Some(Numeral::Within(number)) => Some(number),
        Some(Numeral::Beyond) | None => None,
    }
}
