ghost use Rattle.std.specs.Prelude.{◌≡◌, Some};
ghost use Rattle.rgm_member.specs.Outcomes.{one_more};
ghost use Rattle.rgm_member.specs.State.{no_past};

use wire::LastFailures;

/// What a node keeps of a group's past there. Nothing else of it is ever asked.
#[derive(Clone, Copy, Debug, PartialEq, Eq)]
pub struct Past {
    /// The seconds of its last two start failures, at most.
    pub failures: LastFailures,
    /// The second of its last move away.
    pub moved: Option<u64>,
}

impl Past {
    /// No start failure and no move.
    pub(crate) fn none() -> Past
        ensures { result ≡ no_past }
    {
        Past {
            failures: LastFailures::Never,
            moved: None,
        }
    }

    /// With a start failure at the second `now`.
    pub(crate) fn with_failure(self, now: u64) -> Past
        ensures { result ≡ record self { failures = one_more now self.failures } }
    {
        let failures = match self.failures {
            LastFailures::Never => LastFailures::Once(now),
            LastFailures::Once(first) => LastFailures::Twice(first, now),
            LastFailures::Twice(_, second) => LastFailures::Twice(second, now),
        };
        Past {
            failures,
            moved: self.moved,
        }
    }

    /// With a move at the second `now`.
    pub(crate) fn with_move(self, now: u64) -> Past
        ensures { result ≡ record self { moved = Some now } }
    {
        Past {
            failures: self.failures,
            moved: Some(now),
        }
    }
}
