ghost use Rattle.std.specs.Prelude.{◌≡◌, ◌<◌, ◌≤◌, ◌⊎◌, ℕ, MatchResult};
ghost use Rattle.cl_base.specs.Limits.{most_devices};

use crate::number::BadNumber;
use std::marker::Model;

/// The number of a device, 1 to 16.
#[derive(Clone, Copy, Debug, PartialEq, Eq, PartialOrd, Ord)]
pub struct DevId {
    number: u8,
}

impl Model for DevId {
    ghost use Rattle.std.specs.Prelude.{ℕ, ◌≤◌};
    ghost use Rattle.cl_base.specs.Limits.{most_devices};

    ghost Value = { ℕ };

    ghost view = { λ n. n.number };

    ghost invariant = { λ n. (1 ≤ n.number) × (n.number ≤ most_devices) };

    ghost inverse = { λ n. record { number = n } };
}

impl DevId {
    /// The greatest number of a device.
    pub const MOST: u64 = 16;

    /// The device with this number, or `BadNumber` where it is 0 or above 16.
    pub fn new(n: u64) -> Result<DevId, BadNumber>
        ensures answer { MatchResult result (λ dev. (dev ≡ n) × (1 ≤ n) × (n ≤ most_devices)) (λ e. (e.0 ≡ n) × ((n ≡ 0) ⊎ (most_devices < n))) }
    {
        if n == 0 || n > DevId::MOST {
            return Err(BadNumber(n));
        }
        Ok(DevId { number: n as u8 })
    }

    /// The device's number, 1 to 16.
    pub fn number(self) -> u64
        ensures value { result ≡ self }
        ensures low { 1 ≤ result }
        ensures high { result ≤ most_devices }
    {
        self.number as u64
    }
}
