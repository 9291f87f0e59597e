ghost use Rattle.std.specs.Prelude.{◌≡◌, ◌<◌, ◌≤◌, ◌==◌, ◌||◌, ◌&&◌, not, true, false, ◌^◌, ℕ, MatchOption, IfSome};
ghost use Rattle.cl_base.specs.Sets.{has, count_to, set_with, set_without};

use std::marker::Model;

/// A set of numbers from 1 to 32.
#[derive(Clone, Copy, Debug, PartialEq, Eq)]
pub struct NumberSet {
    bits: u32,
}

impl Model for NumberSet {
    ghost use Rattle.std.specs.Prelude.{ℕ, ◌<◌, ◌^◌};

    ghost Value = { ℕ };

    ghost view = { λ s. s.bits };

    ghost invariant = { λ s. s.bits < 2 ^ 32 };

    ghost inverse = { λ n. record { bits = n } };
}

impl NumberSet {
    pub fn empty() -> NumberSet
        ensures value { result ≡ 0 }
        ensures members { (m : ℕ) → has result m ≡ false }
    {
        NumberSet { bits: 0 }
    }

    pub fn from_bits(bits: u32) -> NumberSet
        ensures { result ≡ bits }
    {
        NumberSet { bits }
    }

    pub fn bits(self) -> u32
        ensures { result ≡ self }
    {
        self.bits
    }

    pub fn has(self, n: u8) -> bool
        requires low { 1 ≤ n }
        requires high { n ≤ 32 }
        ensures { result ≡ has self n }
    {
        (self.bits >> (n - 1)) & 1 == 1
    }

    pub fn with(self, n: u8) -> NumberSet
        requires low { 1 ≤ n }
        requires high { n ≤ 32 }
        ensures value { result ≡ set_with self n }
        ensures members { (m : ℕ) → has result m ≡ ((m == n) || has self m) }
        ensures narrow { self < 2 ^ 16 → n ≤ 16 → result < 2 ^ 16 }
    {
        NumberSet {
            bits: self.bits | (1 << (n - 1)),
        }
    }

    pub fn without(self, n: u8) -> NumberSet
        requires low { 1 ≤ n }
        requires high { n ≤ 32 }
        ensures value { result ≡ set_without self n }
        ensures members { (m : ℕ) → has result m ≡ (not (m == n) && has self m) }
        ensures narrow { self < 2 ^ 16 → result < 2 ^ 16 }
    {
        NumberSet {
            bits: self.bits & !(1 << (n - 1)),
        }
    }

    /// How many of the numbers 1 to `most` the set has.
    pub fn count_to(self, most: u8) -> u64
        requires { most ≤ 32 }
        ensures value { result ≡ count_to self most }
        ensures few { result ≤ most }
    {
        let mut count = 0;
        for n in 0..most {
            if self.has(n + 1) {
                count += 1;
            }
        }
        count
    }

    pub fn least(self) -> Option<u8>
        ensures least { MatchOption result ((m : ℕ) → has self m ≡ false) (λ n. (has self n ≡ true) × ((m : ℕ) → m < n → has self m ≡ false)) }
        ensures range { IfSome result (λ n. (1 ≤ n) × (n ≤ 32)) }
        ensures narrow { self < 2 ^ 16 → IfSome result (λ n. n ≤ 16) }
    {
        let _bits = self.bits;
        for n in 1..33u8 {
            if self.has(n) {
                return Some(n);
            }
        }
        None
    }
}
