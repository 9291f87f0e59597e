use crate::key_list::KeyList;
use crate::kind::PrKind;

/// What a node asks of a device. `key` is the key that the sender shows as its own.
#[derive(Clone, Copy, Debug, PartialEq, Eq)]
pub enum PrCommand {
    /// PERSISTENT RESERVE OUT, service action 00h: registers the key `new`, changes the sender's
    /// key to it, or unregisters where it is zero. An unregistered sender shows the key zero.
    Register { key: u64, new: u64 },
    /// PERSISTENT RESERVE OUT, service action 06h: `Register` whatever key the sender has.
    Ignore { new: u64 },
    /// PERSISTENT RESERVE OUT, service action 01h: takes the reservation.
    Reserve { kind: PrKind, key: u64 },
    /// PERSISTENT RESERVE OUT, service action 02h: gives the reservation up.
    Release { kind: PrKind, key: u64 },
    /// PERSISTENT RESERVE OUT, service action 03h: removes the reservation and all registrations.
    Clear { key: u64 },
    /// PERSISTENT RESERVE OUT, service action 04h: removes the registrations with the key
    /// `victim`, and takes the reservation where its holder is among them.
    Preempt { kind: PrKind, key: u64, victim: u64 },
    /// PERSISTENT RESERVE IN, service action 00h: the registered keys.
    Keys,
    /// PERSISTENT RESERVE IN, service action 01h: the holder's key and the type.
    Holder,
    /// Reads the data.
    Read,
    /// Writes the data.
    Write { value: u64 },
    /// Reads the word.
    Word,
    /// Writes `new` to the word where it is `expect`.
    Swap { expect: u64, new: u64 },
}

/// What a device answers.
#[derive(Clone, Copy, Debug, PartialEq, Eq)]
pub enum PrAnswer {
    /// Status GOOD: it is done.
    Good,
    /// Status RESERVATION CONFLICT (18h): nothing is changed.
    Conflict,
    /// Status CHECK CONDITION, INVALID RELEASE OF PERSISTENT RESERVATION: the holder named another
    /// type, and nothing is changed.
    InvalidRelease,
    /// The sender has no path to the device, and nothing is changed.
    NoPath,
    /// The registered keys, in order of registration.
    Keys(KeyList),
    /// The holder's key and the reservation's type, if one stands.
    Holder(Option<(u64, PrKind)>),
    /// The word.
    Word(u64),
    /// The data.
    Value(u64),
    /// The word, which is not the one expected: nothing is changed.
    Miscompare(u64),
}

/// What a device answers, where the keys that a command asks for stay with the device.
#[derive(Clone, Copy, Debug, PartialEq, Eq)]
pub enum Reply {
    /// Status GOOD: it is done.
    Good,
    /// Status RESERVATION CONFLICT (18h): nothing is changed.
    Conflict,
    /// Status CHECK CONDITION, INVALID RELEASE OF PERSISTENT RESERVATION: nothing is changed.
    InvalidRelease,
    /// The sender has no path to the device, and nothing is changed.
    NoPath,
    /// The keys that the device has registered.
    Keys,
    /// The holder's key and the reservation's type, if one stands.
    Holder(Option<(u64, PrKind)>),
    /// The word.
    Word(u64),
    /// The data.
    Value(u64),
    /// The word, which is not the one expected: nothing is changed.
    Miscompare(u64),
}
