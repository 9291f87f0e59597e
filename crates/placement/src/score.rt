ghost use Rattle.std.specs.Prelude.{◌≡◌};
ghost use Rattle.placement.specs.Scores.{is_better};

/// How well a node suits a group that may run there.
#[derive(Clone, Copy, Debug, PartialEq, Eq)]
pub struct Score {
    /// How often the group failed to start there within its Pingpong_interval.
    pub failures: u64,
    /// How many limits of the node the group would bring above their soft bound.
    pub soft: u64,
    /// One more for each `+` target that is online there, and one less for each `-` target. Each
    /// of the two counts stays at 2^63 - 1.
    pub score: i64,
}

impl Score {
    /// Whether a node with this score comes before one with the other, whatever the Nodelist.
    pub fn is_better(self, other: Score) -> bool
        ensures value { result ≡ is_better self other }
    {
        if self.failures != other.failures {
            return self.failures < other.failures;
        }
        if self.soft != other.soft {
            return self.soft < other.soft;
        }
        self.score > other.score
    }
}
