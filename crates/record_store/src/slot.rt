// The two slots of a disk and the selector that names one of them.
ghost use Rattle.std.specs.Prelude.{◌≡◌, ◌≤◌};
ghost use Rattle.record_store.specs.Images.{place_of, slot_named, other_slot, selector_of};

/// A slot of the disk: four bytes of length, then the text.
#[derive(Clone, Copy, Debug, PartialEq, Eq)]
pub enum Slot {
    First,
    Second,
}

impl Slot {
    /// The slot that a selector names: an even one the first, an odd one the second.
    pub fn named(selector: u8) -> Slot
        ensures { result ≡ slot_named selector }
    {
        if selector % 2 == 0 {
            Slot::First
        } else {
            Slot::Second
        }
    }

    /// Where the slot begins.
    pub fn place(self) -> u64
        ensures place { result ≡ place_of self }
        ensures within { result ≤ 65556 }
    {
        match self {
            Slot::First => 16,
            Slot::Second => 65_556,
        }
    }

    /// The selector that a save writes to name the slot.
    pub fn selector(self) -> u8
        ensures { result ≡ selector_of self }
    {
        match self {
            Slot::First => 0,
            Slot::Second => 1,
        }
    }

    pub fn other(self) -> Slot
        ensures { result ≡ other_slot self }
    {
        match self {
            Slot::First => Slot::Second,
            Slot::Second => Slot::First,
        }
    }
}
