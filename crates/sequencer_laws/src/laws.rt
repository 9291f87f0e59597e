//! What allowed calls keep to: each law is a function that does nothing, and its clauses are the
//! law.
ghost use Rattle.std.specs.Prelude.{◌<◌, ◌^◌};
ghost use Rattle.sequencer_laws.specs.Laws.{AreSafeWhere, GoalsAreManaged, IsIdle};
ghost use Rattle.sequencer_laws.specs.Orders.{AreApart, ClearIsSafe, DoneIsSafe, OrdersAreSafe, StaySafeWhere};
ghost use Rattle.sequencer_laws.specs.Views.{MayStandFor};

/// A call that is allowed under a view, on a node without an outstanding order, meets the rule of
/// allowed calls over each map of flags that the view may stand for. No group that is not managed
/// has a goal node.
pub fn allowed_calls_are_safe()
    ensures safe { AreSafeWhere (λ t types v n map. IsIdle v n × GoalsAreManaged t v × MayStandFor t types v map) }
{}

/// Outstanding orders stay safe: each is of a call that meets the rule over each map of flags that
/// the view may stand for, as long as it is not carried out. So it is once an allowed call is
/// ordered, once an order is done, and where marks are to be cleared. In the first case the members
/// are nodes, and no two resources have one name.
pub fn orders_stay_safe()
    ensures ordered { StaySafeWhere (λ t types limits v n. IsIdle v n × GoalsAreManaged t v × (v.members < 2 ^ 32) × AreApart t × OrdersAreSafe t types limits v) }
    ensures done { DoneIsSafe }
    ensures clear { ClearIsSafe }
{}
