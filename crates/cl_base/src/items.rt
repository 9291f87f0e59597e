ghost use Rattle.std.specs.Prelude.{◌≡◌};

use crate::name::Name;
use std::marker::Model;

/// Items in order. Contracts see the list of them.
#[derive(Debug, Drop)]
pub struct Items<T> {
    items: Vec<T>,
}

impl<T> Model for Items<T> {
    ghost use Rattle.std.specs.Prelude.{List};

    ghost Value = { List T };

    ghost view = { λ s. s.items.items };
}

impl<T> Items<T> {
    /// These items.
    pub fn new(items: Vec<T>) -> Items<T>
        ensures value { result ≡ items.items }
    {
        Items { items }
    }

    /// The items in order.
    pub fn items(&self) -> &[T]
        ensures value { result.now ≡ self.now }
    {
        self.items.as_slice()
    }

    /// The items in order, to be kept or moved on.
    pub fn into_items(self) -> Vec<T>
        ensures value { result.items ≡ self }
    {
        self.items
    }
}

/// Bytes in order: the words of a command, the text of an update, or a packet.
pub type Bytes = Items<u8>;

/// Names in order.
pub type Names = Items<Name>;

/// Seconds in the order in which they were recorded.
pub type Seconds = Items<u64>;
