//! What follows of the definitions alone.
ghost use Rattle.std.specs.Prelude.{◌≡◌, ◌≢◌, ◌<◌, ◌^◌, ◌∷◌, ◌++◌, ℕ, List, IfSome};
ghost use Rattle.std.specs.List.{Contains};
ghost use Rattle.cl_base.specs.declared.method.Method.{Method};
ghost use Rattle.cl_base.specs.declared.method.Method.TheVariants.{Start};
ghost use Rattle.cl_base.specs.declared.method.Outcome.{Outcome};
ghost use Rattle.cl_base.specs.declared.method.Outcome.TheVariants.{Success};
ghost use Rattle.decision_laws.specs.Limits.{IsWithin};
ghost use Rattle.decision_laws.specs.Quiet.{GroupsAreApart, HasNoCycle};
ghost use Rattle.load_limits.specs.declared.limits.Limit.{Limit};
ghost use Rattle.rg_props.specs.Lookups.{named};
ghost use Rattle.rg_view.specs.declared.view.GroupView.{GroupView};
ghost use Rattle.sequencer_laws.specs.AllowedCall.{IsAllowedCall};
ghost use Rattle.history.specs.Moment.{Moment};
ghost use Rattle.group_history.specs.Addresses.{ClientsServed};
ghost use Rattle.group_history.specs.AllowedCalls.{situation_of};
ghost use Rattle.group_history.specs.Doings.{done};
ghost use Rattle.group_history.specs.Flags.{flags_of};
ghost use Rattle.group_history.specs.GroupHistory.{GroupsHold};
ghost use Rattle.group_history.specs.KnownMap.{decided_in};
ghost use Rattle.group_history.specs.Limits.{StartsWithin};
ghost use Rattle.group_history.specs.Served.{ClientsStick, PortsStick, ServedByTargets, WeightsExact};
ghost use Rattle.group_history.specs.Setting.{Groups, config_of};

use decision_laws::goals_are_within_limits;

/// A call that does not succeed changes no flag of the map.
pub fn success_alone()
    ensures { (S : Groups) (e f n m : ℕ) (method : Method) (r s : List ℕ) (outcome : Outcome) (before : List Moment) → outcome ≢ Success
        → flags_of S e (done f m method s outcome ∷ before) r n ≡ flags_of S e before r n }
{}

/// What holds of groups in a trace holds of each prefix.
pub fn prefixes_hold()
    ensures { (S : Groups) (later before : List Moment) → GroupsHold S (later ++ before) → GroupsHold S before }
{}

/// A start that is allowed keeps within the hard limits of its node.
pub fn started_within_limits()
    ensures { (S : Groups) (e n : ℕ) (r : List ℕ) (before : List Moment) (allowed : IsAllowedCall (situation_of S e before) n r Start)
        → IfSome (named (config_of S e before).groups.groups allowed.resource.group) (StartsWithin (situation_of S e before) n allowed.resource.group) }
{}

/// After each decision the groups whose goal has a node bring it no more than its hard limits, or those that bring some are all fixed.
pub fn placed_within_limits()
    ensures { (S : Groups) (e : ℕ) (moments : List Moment) (v : GroupView) → HasNoCycle (config_of S e moments).groups → GroupsAreApart (config_of S e moments).groups
        → v.members < 2 ^ 32 → (l : Limit) → Contains (config_of S e moments).limits l → IsWithin (config_of S e moments) (decided_in S e moments v) l }
{
    goals_are_within_limits();
}

/// A client is served by a target of the address at that place, and by none exactly where there is no target.
pub fn served_by_targets()
    ensures { (S : Groups) (e : ℕ) (name : List ℕ) (moments : List Moment) → ClientsServed S moments → ServedByTargets S e name moments }
{}

/// Among requests in succession with the same targets, so many of which took a turn as the sum of the weights, each node is chosen by turns as
/// often as its weight.
pub fn weights_are_exact()
    ensures { (S : Groups) (e : ℕ) (name : List ℕ) (moments : List Moment) → ClientsServed S moments → WeightsExact S e name moments }
{}

/// A client gets the node of its first request while that is a target and no line tells that the client is forgotten.
pub fn clients_stick()
    ensures ports { (S : Groups) (e : ℕ) (name : List ℕ) (moments : List Moment) → ClientsServed S moments → PortsStick S e name moments }
    ensures clients { (S : Groups) (e : ℕ) (name : List ℕ) (moments : List Moment) → ClientsServed S moments → ClientsStick S e name moments }
{}
