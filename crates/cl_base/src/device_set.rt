ghost use Rattle.std.specs.Prelude.{◌≡◌, ◌<◌, ◌≤◌, ◌==◌, ◌||◌, ◌&&◌, not, true, false, ℕ, MatchOption, IfOk};
ghost use Rattle.std.specs.String.{string_bytes};
ghost use Rattle.cl_base.specs.Sets.{has, count_to, set_with, set_without};
ghost use Rattle.cl_base.specs.Numbers.{set_text};
ghost use Rattle.cl_base.specs.Limits.{most_devices};

use crate::device::DevId;
use crate::number_set::NumberSet;
use crate::numbers::set_text;
use std::alloc::{AllocError, Global};
use std::marker::Model;

/// A set of devices. Contracts see it through `has set n`, which tells whether device n is in it.
#[derive(Clone, Copy, Debug, PartialEq, Eq)]
pub struct DevSet {
    numbers: NumberSet,
}

impl Model for DevSet {
    ghost use Rattle.std.specs.Prelude.{ℕ, ◌<◌, ◌^◌};

    ghost Value = { ℕ };

    ghost view = { λ s. s.numbers };

    ghost invariant = { λ s. s.numbers < 2 ^ 16 };

    ghost inverse = { λ n. record { numbers = n } };
}

impl DevSet {
    /// The set without a device.
    pub fn empty() -> DevSet
        ensures value { result ≡ 0 }
        ensures members { (m : ℕ) → has result m ≡ false }
    {
        DevSet {
            numbers: NumberSet::empty(),
        }
    }

    /// The set of the devices n whose bit n - 1 is set.
    pub fn from_bits(bits: u16) -> DevSet
        ensures value { result ≡ bits }
    {
        DevSet {
            numbers: NumberSet::from_bits(bits as u32),
        }
    }

    /// The set as a number: bit n - 1 is set for each device n in it.
    pub fn bits(self) -> u16
        ensures value { result ≡ self }
    {
        self.numbers.bits() as u16
    }

    /// The set and this device.
    pub fn with(self, n: DevId) -> DevSet
        ensures value { result ≡ set_with self n }
        ensures members { (m : ℕ) → has result m ≡ ((m == n) || has self m) }
    {
        DevSet {
            numbers: self.numbers.with(n.number() as u8),
        }
    }

    /// The set less this device.
    pub fn without(self, n: DevId) -> DevSet
        ensures value { result ≡ set_without self n }
        ensures members { (m : ℕ) → has result m ≡ (not (m == n) && has self m) }
    {
        DevSet {
            numbers: self.numbers.without(n.number() as u8),
        }
    }

    /// Whether the device is in the set.
    pub fn has(self, n: DevId) -> bool
        ensures value { result ≡ has self n }
        ensures low { 1 ≤ n }
        ensures high { n ≤ most_devices }
    {
        self.numbers.has(n.number() as u8)
    }

    /// The device of the set with the least number, if there is one.
    pub fn least(self) -> Option<DevId>
        ensures value { MatchOption result ((m : ℕ) → has self m ≡ false) (λ n. (has self n ≡ true) × ((m : ℕ) → m < n → has self m ≡ false)) }
    {
        let number = self.numbers.least()?;
        DevId::new(number as u64).ok()
    }

    /// How many devices the set has.
    pub fn count(self) -> u64
        ensures value { result ≡ count_to self most_devices }
        ensures most { result ≤ most_devices }
    {
        self.numbers.count_to(16)
    }

    /// The numbers of the set's devices by commas, or `none`.
    pub fn text(self, alloc: Global) -> Result<String, AllocError>
        ensures value { IfOk result (λ text. string_bytes text ≡ set_text self) }
    {
        set_text(alloc, self.numbers)
    }
}
