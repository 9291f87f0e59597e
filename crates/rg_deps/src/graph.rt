// Things that are to be ordered, by their places in order of creation.

/// A thing that is to be ordered.
#[derive(Clone, Copy, Debug)]
pub struct Thing {
    /// Its place in order of creation, from 0.
    pub place: usize,
    /// Of those that may come next the one of the greatest priority does.
    pub priority: u64,
}

/// That a thing comes after another, by their places.
#[derive(Clone, Copy, Debug)]
pub struct Edge {
    /// The one that comes later.
    pub from: usize,
    /// Its target, which comes before it.
    pub to: usize,
}
