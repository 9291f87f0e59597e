use cl_base::{Bytes, Epoch};

/// An update of the configuration.
#[derive(Drop)]
pub enum UpdateEntry {
    /// The president proposes it.
    Proposed {
        /// The epoch of its membership.
        epoch: Epoch,
        /// The update's place, from 1.
        place: u64,
        /// The update's words.
        words: Bytes,
    },
    /// Every member has saved it.
    Acknowledged {
        /// The epoch of its membership.
        epoch: Epoch,
        /// The update's place, from 1.
        place: u64,
        /// The update's words.
        words: Bytes,
    },
}
