ghost use Rattle.president_laws.specs.Laws.{GoalsFollowTheRule, GoalsStay, GroupsBegin, OrdersAreAllowed, QuietMembersHaveNoCall};

/// As a membership begins, each group's previous goal is the members where it is up, or none where
/// its Failback is TRUE and it is not suspended.
pub fn groups_begin()
    ensures { GroupsBegin }
{}

/// A decision gives each group its goal by the rule, over the new goals of the groups before it; and
/// where a group that is placed by scores may run on a node of its previous goal, that node stays.
pub fn goals_stay()
    ensures rule { GoalsFollowTheRule }
    ensures stay { GoalsStay }
{}

/// The orders of a decision are each for a member that has none, in ascending order, and each is for
/// a call that is allowed as it is given, those given before it being outstanding.
pub fn orders_are_allowed()
    ensures { OrdersAreAllowed }
{}

/// Where a decision that is not held up gives no order, no member without one has a call.
pub fn quiet()
    ensures { QuietMembersHaveNoCall }
{}
