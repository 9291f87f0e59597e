ghost use Rattle.decision_laws.specs.Limits.{DecidedWithinLimits};
ghost use Rattle.decision_laws.specs.Membership.{OrdersAreSafeThroughout};
ghost use Rattle.decision_laws.specs.Quiet.{GapsHaveReasons, QuietGoalsAreSettled, QuietHasNoCalls};
ghost use Rattle.decision_laws.specs.Safe.{AsksStaySafe, DecidedGoalsAreManaged, DecisionsStaySafe, DoneStaysSafe, SafeAtFirst, UpdatesStaySafe};

use rg_deps::laws;

/// The outstanding orders of a president are safe as its membership begins, and stay so over each
/// decision, old and new ones, as an order ends, as something is asked for, and as an update comes
/// while none is outstanding. In a decision no two resources have one name. No decision leaves a goal
/// node to a group that is not managed.
pub fn decisions_stay_safe()
    ensures first { SafeAtFirst }
    ensures decided { DecisionsStaySafe }
    ensures done { DoneStaysSafe }
    ensures asked { AsksStaySafe }
    ensures updated { UpdatesStaySafe }
    ensures managed { DecidedGoalsAreManaged }
{}

/// Whatever a president does in its membership, its outstanding orders are safe under the
/// configuration that is in force then.
pub fn orders_are_safe_throughout()
    ensures safe { OrdersAreSafeThroughout }
{}

/// Where nothing is outstanding after a decision, no member has a call; and where there is no cycle of
/// groups or resources, each goal node shows ONLINE or ERROR_STOP_FAILED, or has a reason.
pub fn quiet_is_settled()
    ensures calls { QuietHasNoCalls }
    ensures goals { QuietGoalsAreSettled }
{
    laws::what_is_chosen_is_an_order();
    laws::an_order_is_found();
}

/// After each decision, held up or not, a node of a group's Nodelist outside its goal has a reason,
/// where the goal has fewer nodes than desired. There is no cycle, and no two groups have one name.
pub fn gaps_have_reasons()
    ensures reasons { GapsHaveReasons }
{
    laws::what_is_chosen_is_an_order();
    laws::an_order_is_found();
}

/// After each decision no hard limit is passed on a node by the groups whose goals have it, unless all
/// of these that bring a load are fixed. There is no cycle, and no two groups have one name.
pub fn goals_are_within_limits()
    ensures limits { DecidedWithinLimits }
{
    laws::what_is_chosen_is_an_order();
    laws::an_order_is_found();
}
