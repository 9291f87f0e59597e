ghost use Rattle.std.specs.Prelude.{◌≡◌, ◌<◌, ◌≤◌, List, [], ◌∷◌, ◌++◌, length};

use std::marker::Model;

/// At most 32 keys, kept in place. Contracts see the list of them.
#[derive(Clone, Copy, Debug, PartialEq, Eq)]
pub struct KeyList {
    places: [u64; 32],
    len: u8,
}

impl Model for KeyList {
    ghost use Rattle.std.specs.Prelude.{List, ℕ, take, length, replicate, ◌++◌, ◌-◌};

    ghost Value = { List ℕ };

    ghost use Rattle.cl_base.specs.Padded.{IsPadded};
    ghost use Rattle.pgr_device.specs.KeyFields.{fields_back};

    ghost view = { λ k. take k.len k.places };

    ghost invariant = { λ k. IsPadded k.places k.len };

    ghost inverse = { λ keys. record { places = keys ++ replicate (32 - length keys) 0; len = length keys } };

    ghost inverse_ok = { λ k kept. fields_back k kept };
}

impl KeyList {
    /// The list of these keys.
    pub fn new(keys: &[u64]) -> KeyList
        requires { length keys.now ≤ 32 }
        ensures value { result ≡ keys.now }
    {
        let mut places = [0; 32];
        places[..keys.len()].copy_from_slice(keys);
        KeyList {
            places,
            len: keys.len() as u8,
        }
    }

    /// The list without a key.
    pub(crate) fn empty() -> KeyList
        ensures { result ≡ [] }
    {
        KeyList {
            places: [0; 32],
            len: 0,
        }
    }

    /// Appends a key.
    pub(crate) fn push(&mut self, key: u64)
        requires { length self.old < 32 }
        ensures { self.new ≡ self.old ++ key ∷ [] }
    {
        self.places[self.len as usize] = key;
        self.len += 1;
    }

    /// The keys, in order.
    pub fn keys(&self) -> &[u64]
        ensures value { result.now ≡ self.now }
        ensures most { length self.now ≤ 32 }
    {
        &self.places[..self.len as usize]
    }
}
