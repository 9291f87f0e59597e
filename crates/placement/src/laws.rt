//! What goals are: each law is a function that does nothing, and its clauses are the law.
ghost use Rattle.placement.specs.Best.{GoalIsBest};
ghost use Rattle.placement.specs.Decisions.{PlacedWithinLimits};

/// A goal that rests on eligible nodes has those of the previous goal, and no node left out comes
/// before one that was added.
pub fn goal_is_best()
    ensures { GoalIsBest }
{}

/// After a decision no hard limit is passed on a node by the groups whose goals have it, unless all
/// of these that bring a load are fixed.
pub fn placed_within_limits()
    ensures { PlacedWithinLimits }
{}
