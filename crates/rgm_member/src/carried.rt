use cl_base::Outcome;

/// What became of an order.
#[derive(Clone, Copy, Debug, PartialEq, Eq)]
pub enum Carried {
    /// Its method was called, and ended so.
    Called(Outcome),
    /// The stop-failed mark was cleared.
    Cleared,
    /// It was carried out before, with this outcome.
    Kept(Outcome),
    /// It is an order of another membership.
    Old,
}
