ghost use Rattle.std.specs.Prelude.{◌<◌, ◌⊎◌, ◌↔◌, IsTrue, IfSome, All, take, length, slice_get};
ghost use Rattle.ccr_commit.specs.Newest.{IsNewer, IsAsNew};

use cl_base::{Epoch, NodeId, NodeSet};

/// What tells how new the entries of a node are.
#[derive(Clone, Copy, Debug, PartialEq, Eq)]
pub struct Summary {
    /// The node that keeps them.
    pub node: NodeId,
    /// The attempt whose installation it saved last, or zero.
    pub installed: Epoch,
    /// The members of that attempt.
    pub members: NodeSet,
    /// How many entries are committed.
    pub committed: u64,
    /// How many entries there are, the pending one included.
    pub all: u64,
}

/// The index of the newest: the greatest installed epoch decides, then the most entries, then the
/// most committed ones, then the least node. Of summaries that agree in all of these it is the
/// first. There is at least one summary.
pub fn newest(summaries: &[Summary]) -> u64
    requires some { 0 < length summaries.now }
    ensures index { result < length summaries.now }
    ensures newest { IfSome (slice_get summaries.now result) (λ best. All (λ other. IsNewer best other ⊎ IsAsNew best other) summaries.now) }
    ensures first { IfSome (slice_get summaries.now result) (λ best. All (λ other. IsNewer best other) (take result summaries.now)) }
{
    let mut best = 0;
    for (index, summary) in summaries.iter().enumerate() {
        if is_newer(summary, &summaries[best]) {
            best = index;
        }
    }
    best as u64
}

fn is_newer(a: &Summary, b: &Summary) -> bool
    ensures { IsTrue result ↔ IsNewer a.now b.now }
{
    let rank_of = |s: &Summary| (s.installed.number(), s.all, s.committed);
    rank_of(a) > rank_of(b) || (rank_of(a) == rank_of(b) && a.node.number() < b.node.number())
}
