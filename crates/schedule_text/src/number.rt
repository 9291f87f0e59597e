ghost use Rattle.std.specs.Prelude.{◌≡◌, ◌≤◌, if◌then◌else◌, Some, None};
ghost use Rattle.std.specs.List.{list_all};
ghost use Rattle.std.specs.Char.{is_ascii_digit};
ghost use Rattle.schedule_text.specs.declared.number.Numeral.TheVariants.{Beyond};
ghost use Rattle.schedule_text.specs.Words.{decimal_in, followed_by, cluster_in, is_decimal, is_key, is_key_digit, has_no_leading_zero, key_in};

/// A decimal number of a schedule.
#[derive(Clone, Copy)]
pub enum Numeral {
    /// A number below 2^64.
    Within(u64),
    /// A greater one.
    Beyond,
}

impl Numeral {
    /// The number that one more digit behind it makes.
    fn followed_by(self, digit: u8) -> Numeral
        requires { digit ≤ 9 }
        ensures { result ≡ followed_by self digit }
    {
        let Numeral::Within(number) = self else {
            return Numeral::Beyond;
        };
        let Some(tens) = number.checked_mul(10) else {
            return Numeral::Beyond;
        };
        match tens.checked_add(digit as u64) {
            Some(number) => Numeral::Within(number),
            None => Numeral::Beyond,
        }
    }
}

/// The decimal number that the word is, if it is one. It is read in one pass: most words of a schedule
/// are numbers.
pub fn decimal(word: &[u8]) -> Option<Numeral>
    ensures { result ≡ decimal_in word.now }
{
    if word.is_empty() || !has_no_leading_zero(word) {
        return None;
    }
    let mut number = 0;
    for place in 0..word.len() {
        let digit = word[place];
        if !digit.is_ascii_digit() {
            return None;
        }
        match Numeral::Within(number).followed_by(digit - b'0') {
            Numeral::Within(more) => number = more,
            Numeral::Beyond => return beyond(&word[place + 1..]),
        }
    }
    Some(Numeral::Within(number))
}

/// The number that these make behind one that is too great, if all are digits.
fn beyond(digits: &[u8]) -> Option<Numeral>
    ensures { result ≡ (if list_all is_ascii_digit digits.now then Some Beyond else None) }
{
    if !all_digits(digits) {
        return None;
    }
    Some(Numeral::Beyond)
}

/// The key that the word is, if it is one.
pub fn key(word: &[u8]) -> Option<u64>
    ensures { result ≡ key_in word.now }
{
    if !is_key(word) {
        return None;
    }
    let Ok(text) = std::str::from_utf8(word) else {
        return None;
    };
    match u64::from_str_radix(text, 16) {
        Ok(key) => Some(key),
        Err(_) => None,
    }
}

/// The id of a cluster that the word is, if it is one.
pub fn cluster_id(word: &[u8]) -> Option<u32>
    ensures { result ≡ cluster_in word.now }
{
    if word.len() > 8 {
        return None;
    }
    let id = key(word)?;
    if id == 0 {
        return None;
    }
    u32::try_from(id).ok()
}

/// Whether the word is a decimal number without a leading zero.
pub fn is_decimal(word: &[u8]) -> bool
    ensures { result ≡ is_decimal word.now }
{
    !word.is_empty() && has_no_leading_zero(word) && all_digits(word)
}

/// Whether the word is a key of 1 to 16 hexadecimal digits without a leading zero.
fn is_key(word: &[u8]) -> bool
    ensures { result ≡ is_key word.now }
{
    !word.is_empty() && word.len() <= 16 && has_no_leading_zero(word) && all_key_digits(word)
}

fn all_digits(word: &[u8]) -> bool
    ensures { result ≡ list_all is_ascii_digit word.now }
{
    word.iter().all(|b| b.is_ascii_digit())
}

fn all_key_digits(word: &[u8]) -> bool
    ensures { result ≡ list_all is_key_digit word.now }
{
    word.iter().all(|b| is_key_digit(*b))
}

fn is_key_digit(b: u8) -> bool
    ensures { result ≡ is_key_digit b }
{
    b.is_ascii_digit() || (b'a' <= b && b <= b'f')
}

fn has_no_leading_zero(word: &[u8]) -> bool
    ensures { result ≡ has_no_leading_zero word.now }
{
    match word {
        [b'0'] => true,
        [first, ..] => *first != b'0',
        [] => true,
    }
}
