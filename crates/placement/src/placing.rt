// The nodes of a group's goal, picked by their scores.
ghost use Rattle.std.specs.Prelude.{◌≡◌};
ghost use Rattle.placement.specs.Goals.{added, best_of, better_of, considered, kept, placed, staying};
ghost use Rattle.placement.specs.Scores.{score_at};

use crate::score::Score;
use cl_base::{NodeId, NodeSet};

/// For each node from 1 on its score, where it is eligible.
pub type Scores = [Option<Score>; 32];

/// A node that may be added to a goal.
#[derive(Clone, Copy, Debug)]
pub struct Candidate {
    /// The node.
    pub node: NodeId,
    /// Its score.
    pub score: Score,
}

#[tactic(auto, unfolding(crate::specs::Goals::placed))]
/// The nodes of the previous goal that are eligible, and the best of the others up to the number
/// desired.
pub fn placed(scores: &Scores, nodelist: &[NodeId], desired: u64, previous: NodeSet) -> NodeSet
    ensures { result ≡ placed (score_at scores.now) nodelist.now desired previous }
{
    let kept = kept(scores, nodelist, previous);
    let missing = desired.saturating_sub(kept.count());
    add_best(scores, nodelist, missing, kept)
}

#[tactic(auto, using(crate::proofs::Picks::fold_filter_more), unfolding(crate::specs::Goals::kept))]
fn kept(scores: &Scores, nodelist: &[NodeId], previous: NodeSet) -> NodeSet
    ensures { result ≡ kept (score_at scores.now) nodelist.now previous }
{
    let mut nodes = NodeSet::empty();
    for n in nodelist {
        if previous.has(*n) && score_at(scores, *n).is_some() {
            nodes = nodes.with(*n);
        }
    }
    nodes
}

/// So many more nodes, one after the other always the best of those left.
fn add_best(scores: &Scores, nodelist: &[NodeId], missing: u64, kept: NodeSet) -> NodeSet
    ensures { result ≡ added (score_at scores.now) nodelist.now kept missing }
{
    let mut nodes = kept;
    for _ in 0..missing {
        match best(scores, nodelist, nodes) {
            Some(best) => nodes = nodes.with(best.node),
            None => return nodes,
        }
    }
    nodes
}

#[tactic(auto, unfolding(crate::specs::Goals::best_of))]
/// The best of the eligible nodes outside the set.
fn best(scores: &Scores, nodelist: &[NodeId], nodes: NodeSet) -> Option<Candidate>
    ensures { result ≡ best_of (score_at scores.now) nodelist.now nodes }
{
    let mut best = None;
    for n in nodelist {
        if !nodes.has(*n) {
            best = better_of(best, *n, score_at(scores, *n));
        }
    }
    best
}

fn better_of(best: Option<Candidate>, node: NodeId, score: Option<Score>) -> Option<Candidate>
    ensures { result ≡ better_of best node score }
{
    let Some(score) = score else {
        return best;
    };
    match best {
        Some(best) if !score.is_better(best.score) => Some(best),
        _ => Some(Candidate { node, score }),
    }
}

fn score_at(scores: &Scores, n: NodeId) -> Option<Score>
    ensures { result ≡ score_at scores.now n }
{
    scores[n.number() as usize - 1]
}

#[tactic(auto, using(crate::proofs::Picks::fold_filter_more))]
/// The members of the Nodelist that were in the previous goal.
pub fn staying(members: NodeSet, nodelist: &[NodeId], previous: NodeSet) -> NodeSet
    ensures { result ≡ staying members nodelist.now previous }
{
    let mut nodes = NodeSet::empty();
    for n in nodelist {
        if members.has(*n) && previous.has(*n) {
            nodes = nodes.with(*n);
        }
    }
    nodes
}
