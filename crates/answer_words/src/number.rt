// Decimal numbers without leading zeros.
ghost use Rattle.std.specs.Prelude.{◌≡◌};
ghost use Rattle.std.specs.List.{list_all};
ghost use Rattle.std.specs.Char.{is_ascii_digit};
ghost use Rattle.rg_props.specs.Words.{decimal_in, has_no_leading_zero, is_decimal};

/// The number that the word is, where it is one of those that 64 bits hold.
pub fn decimal(word: &[u8]) -> Option<u64>
    ensures { result ≡ decimal_in word.now }
{
    if !is_decimal(word) {
        return None;
    }
    let Ok(text) = std::str::from_utf8(word) else {
        return None;
    };
    match text.parse::<u64>() {
        Ok(number) => Some(number),
        Err(_) => None,
    }
}

fn is_decimal(word: &[u8]) -> bool
    ensures { result ≡ is_decimal word.now }
{
    !word.is_empty() && has_no_leading_zero(word) && all_digits(word)
}

fn all_digits(word: &[u8]) -> bool
    ensures { result ≡ list_all is_ascii_digit word.now }
{
    word.iter().all(|b| b.is_ascii_digit())
}

fn has_no_leading_zero(word: &[u8]) -> bool
    ensures { result ≡ has_no_leading_zero word.now }
{
    match word {
        [b'0'] => true,
        [first, ..] => *first != b'0',
        [] => true,
    }
}
