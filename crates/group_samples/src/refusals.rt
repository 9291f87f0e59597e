//! What the definitions of groups refuse, by small traces: each clause says of one of them that it meets the definition, or that its newest
//! moment or event does not.
ghost use Rattle.std.specs.Prelude.{◌≡◌, [], ◌∷◌, Some, None, true, false, length};
ghost use Rattle.cl_base.specs.declared.history.FailoverMode.TheVariants as mode;
ghost use Rattle.cl_base.specs.declared.reason.Reason.TheVariants as reason;
ghost use Rattle.decision_laws.specs.Limits.{IsWithin};
ghost use Rattle.rgm_member.specs.State.{no_marks};
ghost use Rattle.history.specs.Order.{OfNewest, OfNewestEvent};
ghost use Rattle.group_history.specs.AllowedCalls.{IsAllowed};
ghost use Rattle.group_history.specs.Calls.{IsCall, CallsEnd};
ghost use Rattle.group_history.specs.Once.{IsFirst, IsDone};
ghost use Rattle.group_history.specs.Outcomes.{EndsSo};
ghost use Rattle.group_history.specs.Sending.{IsSending};
ghost use Rattle.group_history.specs.Reports.{IsReport};
ghost use Rattle.group_history.specs.Adopting.{AdoptLines};
ghost use Rattle.group_history.specs.Adoption.{IsTakenOver};
ghost use Rattle.group_history.specs.OwnMap.{nothing, own_of};
ghost use Rattle.group_history.specs.Flags.{flags_of};
ghost use Rattle.group_history.specs.Goals.{goal_in};
ghost use Rattle.group_history.specs.KnownMap.{known_of};
ghost use Rattle.group_history.specs.MembershipMap.{map_of};
ghost use Rattle.rg_view.specs.States.{state_of};
ghost use Rattle.group_history.specs.Failures.{Panics, IsFlagged, IsExclusion};
ghost use Rattle.group_history.specs.Probes.{IsProbed};
ghost use Rattle.group_history.specs.Reasons.{IsReason, ground_of};
ghost use Rattle.group_history.specs.Queries.{IsQueryAnswered};
ghost use Rattle.group_history.specs.Quiet.{IsQuietStatus};
ghost use Rattle.group_history.specs.Again.{GoesAgain};
ghost use Rattle.group_history.specs.Waiting.{IsWaiting};
ghost use Rattle.group_history.specs.Refusals.{IsProposal, IsAnswerDue, IsFull};
ghost use Rattle.group_history.specs.Addresses.{IsServed, answers_in};
ghost use Rattle.group_history.specs.Served.{ClientsStick, PortsStick, ServedByTargets, WeightsExact};
ghost use Rattle.group_samples.specs.SampleConfigurations.{a, g, group_on, moving, staying};
ghost use Rattle.group_samples.specs.SampleAllowed as allowed;
ghost use Rattle.group_samples.specs.SampleAllowed.{dependent, apart, close};
ghost use Rattle.group_samples.specs.SampleCalls as calls;
ghost use Rattle.group_samples.specs.SampleFailover as failover;
ghost use Rattle.group_samples.specs.SampleMaps as maps;
ghost use Rattle.group_samples.specs.SampleMaps.{hard};
ghost use Rattle.group_samples.specs.SampleStatus as told;
ghost use Rattle.group_samples.specs.SampleGoals.{both_there, limit, limited, one_there};
ghost use Rattle.group_samples.specs.SampleServing as sample;
ghost use Rattle.group_samples.specs.SampleServing.{by_client, sticking};
ghost use Rattle.group_samples.specs.SampleStatus.{commanded, serving, x};
ghost use Rattle.group_samples.specs.SampleTurns as turn;
ghost use Rattle.group_samples.specs.SampleTurns.{weighing};

/// Allowed call: a start waits for its strong dependencies, for room and for a node without a group that keeps away; a stop for its dependents.
#[tactic(auto, unfolding(cl_base::specs::Sets::has, sequencer_laws::specs::Situations::has_up, sequencer_laws::specs::Situations::has_online, placement::specs::Resources::has_enabled))]
pub fn allowed_calls()
    ensures before_its_dependency { OfNewest (IsAllowed dependent) allowed.started_before_its_dependency → ⊥ }
    ensures after_a_failure { OfNewest (IsAllowed dependent) allowed.started_after_a_failure → ⊥ }
    ensures before_its_dependent { OfNewest (IsAllowed dependent) allowed.stopped_before_its_dependent → ⊥ }
    ensures twice { OfNewest (IsAllowed staying) allowed.started_twice → ⊥ }
    ensures beside { OfNewest (IsAllowed apart) allowed.started_beside → ⊥ }
    ensures there { OfNewest (IsAllowed apart) allowed.started_there → ⊥ }
    ensures away_from_its_target { OfNewest (IsAllowed close) allowed.started_away → ⊥ }
    ensures without_running { OfNewest (IsAllowed staying) allowed.stopped_without_running → ⊥ }
    ensures without_a_method { OfNewest (IsAllowed staying) allowed.monitored_without_a_method → ⊥ }
    ensures outside { OfNewest (IsAllowed moving) allowed.started_outside → ⊥ }
{}

/// And what is allowed.
pub fn allowed_calls_that_may_be()
    ensures after_its_dependency { OfNewest (IsAllowed dependent) allowed.started_after_its_dependency }
    ensures away { OfNewest (IsAllowed apart) allowed.started_away }
{}

/// Call: an Order of the president names it, once the call before it is told to be over; the president itself calls once in a tick.
#[tactic(auto, unfolding(cl_base::specs::Sets::has, wire::specs::Reads::number_at, wire::specs::Reads::byte_at, wire::specs::Reads::node_at, wire::specs::Reads::text_at, wire::specs::Reads::method_at, wire::specs::Reads::outcome_at, wire::specs::Reads::kind_at, wire::specs::Reads::order_at, wire::specs::Reads::done_at, wire::specs::Reads::body_at, wire::specs::Reads::message_at, wire::specs::Reads::whole_of))]
pub fn ordered_calls()
    ensures in_time { OfNewest IsCall calls.called_in_time }
    ensures unordered { OfNewest IsCall calls.called_unordered → ⊥ }
    ensures another_method { OfNewest IsCall calls.called_another_method → ⊥ }
    ensures another_resource { OfNewest IsCall calls.called_another_resource → ⊥ }
    ensures in_another { OfNewest IsCall calls.called_in_another → ⊥ }
    ensures too_early { OfNewest IsCall calls.called_too_early → ⊥ }
    ensures twice_in_a_tick { OfNewest IsCall calls.called_twice_in_a_tick → ⊥ }
    ensures without_a_tick { OfNewest IsCall calls.called_without_a_tick → ⊥ }
{}

/// Call: each has its `done` line right after it.
pub fn ended_calls()
    ensures left { CallsEnd calls.left_in_a_call → ⊥ }
    ensures twice { CallsEnd calls.ended_twice → ⊥ }
    ensures another { CallsEnd calls.ended_another → ⊥ }
{}

/// Once: an order that comes again calls no more, and is answered as before.
#[tactic(auto, unfolding(cl_base::specs::Sets::has, wire::specs::Reads::number_at, wire::specs::Reads::byte_at, wire::specs::Reads::node_at, wire::specs::Reads::text_at, wire::specs::Reads::method_at, wire::specs::Reads::outcome_at, wire::specs::Reads::kind_at, wire::specs::Reads::order_at, wire::specs::Reads::done_at, wire::specs::Reads::body_at, wire::specs::Reads::message_at, wire::specs::Reads::whole_of))]
pub fn once()
    ensures next { OfNewest IsFirst calls.called_in_time }
    ensures again { OfNewest IsFirst calls.called_again → ⊥ }
    ensures told_again { OfNewest IsDone calls.told_again }
    ensures told_a_failure { OfNewest IsDone calls.told_a_failure → ⊥ }
    ensures told_of_nothing { OfNewest IsDone calls.told_of_nothing → ⊥ }
{}

/// Outcomes: as queued, each once; else as the agent says.
#[tactic(auto, unfolding(cl_base::specs::Sets::has))]
pub fn outcomes()
    ensures against_the_queue { OfNewest (EndsSo staying) calls.succeeded_against_the_queue → ⊥ }
    ensures by_itself { OfNewest (EndsSo moving) calls.failed_by_itself → ⊥ }
    ensures a_third_time { OfNewest (EndsSo moving) calls.failed_a_third_time → ⊥ }
{}

/// Sending: one order at a time, each under a new number.
#[tactic(auto, unfolding(cl_base::specs::Sets::has, wire::specs::Reads::number_at, wire::specs::Reads::byte_at, wire::specs::Reads::node_at, wire::specs::Reads::text_at, wire::specs::Reads::method_at, wire::specs::Reads::outcome_at, wire::specs::Reads::kind_at, wire::specs::Reads::order_at, wire::specs::Reads::done_at, wire::specs::Reads::body_at, wire::specs::Reads::message_at, wire::specs::Reads::whole_of))]
pub fn sending()
    ensures in_time { OfNewest IsSending calls.ordered_in_time }
    ensures too_early { OfNewest IsSending calls.ordered_too_early → ⊥ }
    ensures under_an_old_number { OfNewest IsSending calls.ordered_under_an_old_number → ⊥ }
{}

/// Own map: flags by success, marks by failure, nothing after a boot.
#[tactic(auto, unfolding(cl_base::specs::Sets::has))]
pub fn own_maps()
    ensures started { (own_of staying 1 maps.started_a).marks ≡ (a, record no_marks { run = true }) ∷ [] }
    ensures stopped { (own_of staying 1 maps.stopped_a).marks ≡ (a, no_marks) ∷ [] }
    ensures not_stopped { (own_of staying 1 maps.failed_to_stop_a).marks ≡ (a, record no_marks { run = true; stop_failed = true }) ∷ [] }
    ensures rebooted { own_of staying 1 maps.rebooted ≡ nothing }
{}

/// Adopting: a start takes over what was reported, and nothing else; and a report tells what is there.
#[tactic(auto, unfolding(cl_base::specs::Sets::has, wire::specs::Reads::number_at, wire::specs::Reads::byte_at, wire::specs::Reads::node_at, wire::specs::Reads::text_at, wire::specs::Reads::truth_at, wire::specs::Reads::device_at, wire::specs::Reads::devices_at, wire::specs::Reads::items_at, wire::specs::Reads::list_at, wire::specs::Reads::at_most_one_at, wire::specs::Reads::kind_at, wire::specs::Reads::marks_at, wire::specs::Reads::failures_at, wire::specs::Reads::resource_at, wire::specs::Reads::group_at, wire::specs::Reads::report_at, wire::specs::Reads::ready_at, wire::specs::Reads::body_at, wire::specs::Reads::message_at, wire::specs::Reads::whole_of, rg_props::specs::Words::name_in))]
pub fn adopting()
    ensures as_told { AdoptLines moving maps.adopted_as_told }
    ensures untold { AdoptLines moving maps.adopted_untold → ⊥ }
    ensures elsewhere { AdoptLines moving maps.adopted_elsewhere → ⊥ }
    ensures nothing { AdoptLines moving maps.adopted_nothing → ⊥ }
    ensures reported { OfNewest (IsReport moving) maps.reported → ⊥ }
{}

/// Adoption: no group on too many nodes, none beside one that it stays away from, none without one that it stays close to.
#[tactic(auto, unfolding(cl_base::specs::Sets::has, sequencer_laws::specs::Situations::has_up, sequencer_laws::specs::Situations::has_online, placement::specs::Resources::has_enabled))]
pub fn adoption()
    ensures apart { OfNewest (IsTakenOver apart) allowed.elsewhere }
    ensures close { OfNewest (IsTakenOver close) allowed.beside }
    ensures twice { OfNewest (IsTakenOver dependent) allowed.up_twice → ⊥ }
    ensures beside { OfNewest (IsTakenOver apart) allowed.beside → ⊥ }
    ensures away { OfNewest (IsTakenOver close) allowed.elsewhere → ⊥ }
{}

/// Failures: a node panics exactly where a stop failed under HARD; flags are promised as they are, and an excluded node has one.
#[tactic(auto, unfolding(cl_base::specs::Sets::has, wire::specs::Reads::number_at, wire::specs::Reads::byte_at, wire::specs::Reads::truth_at, wire::specs::Reads::node_at, wire::specs::Reads::device_at, wire::specs::Reads::devices_at, wire::specs::Reads::text_at, wire::specs::Reads::items_at, wire::specs::Reads::list_at, wire::specs::Reads::at_most_one_at, wire::specs::Reads::kind_at, wire::specs::Reads::promise_at, wire::specs::Reads::body_at, wire::specs::Reads::message_at, wire::specs::Reads::whole_of))]
pub fn failures()
    ensures panics { Panics hard maps.panicking }
    ensures stays { Panics hard maps.staying_up → ⊥ }
    ensures without_hard { Panics staying maps.panicking → ⊥ }
    ensures after_a_success { Panics hard maps.panicking_after_a_success → ⊥ }
    ensures promised { OfNewest (IsFlagged moving) maps.promised_flags → ⊥ }
    ensures excluded { OfNewest (IsExclusion moving) maps.excluded_without_flags → ⊥ }
{}

/// Probes: skipped exactly without a monitor, and else as the rule over the restarts says.
#[tactic(auto, unfolding(cl_base::specs::Sets::has))]
pub fn probes()
    ensures without { OfNewestEvent (IsProbed staying) told.skipped_without }
    ensures with_a_monitor { OfNewestEvent (IsProbed staying) told.skipped_with_a_monitor → ⊥ }
    ensures probed_without { OfNewestEvent (IsProbed staying) told.probed_without → ⊥ }
    ensures at_once { OfNewestEvent (IsProbed staying) told.moved_at_once → ⊥ }
    ensures twice { OfNewestEvent (IsProbed staying) told.restarted_twice }
    ensures then { OfNewestEvent (IsProbed staying) told.moved_then }
    ensures three_times { OfNewestEvent (IsProbed staying) told.restarted_three_times → ⊥ }
{}

/// Queries: the lines that are due, and no others.
#[tactic(auto, unfolding(cl_base::specs::Sets::has, cl_base::specs::Sets::set_with, placement::specs::Decisions::decided, placement::specs::Eligibility::group_reason, placement::specs::Eligibility::node_reason, placement::specs::Eligibility::target_reason, placement::specs::Eligibility::reason_of, placement::specs::Eligibility::online_targets, placement::specs::Eligibility::score_of, placement::specs::Eligibility::eligibility_of, placement::specs::Goals::kept, placement::specs::Goals::best_of, placement::specs::Goals::placed, placement::specs::Goals::goal_by_rule, placement::specs::Loads::is_fixed, placement::specs::Loads::counted, placement::specs::Loads::passed_limit, placement::specs::Loads::soft_passed, placement::specs::Resources::has_enabled, placement::specs::Resources::has_down, placement::specs::Resources::is_stop_failed, placement::specs::Targets::forbidding, placement::specs::Targets::without_goal, placement::specs::Targets::lacking, rgm_president::specs::Goals::with_listed, rgm_president::specs::Goals::with_decided, rgm_president::specs::Goals::with_ended, rgm_president::specs::Goals::with_goals, rgm_president::specs::Sequence::groups_in_order, rgm_president::specs::Sequence::members_in_order, load_limits::specs::Loads::load))]
pub fn queries()
    ensures online { OfNewestEvent (IsQueryAnswered staying) told.told_online → ⊥ }
    ensures without_a_reason { OfNewestEvent (IsQueryAnswered staying) told.told_without_a_reason → ⊥ }
    ensures another_reason { OfNewestEvent (IsQueryAnswered staying) told.told_another_reason → ⊥ }
    ensures nothing { OfNewestEvent (IsQueryAnswered staying) told.told_nothing → ⊥ }
    ensures blocked { OfNewestEvent (IsQueryAnswered staying) told.told_blocked }
{}

/// Quiet status: a president that starts nothing is not at rest.
#[tactic(auto, unfolding(cl_base::specs::Sets::has, cl_base::specs::Sets::set_with, placement::specs::Decisions::decided, placement::specs::Eligibility::group_reason, placement::specs::Eligibility::node_reason, placement::specs::Eligibility::target_reason, placement::specs::Eligibility::reason_of, placement::specs::Eligibility::online_targets, placement::specs::Eligibility::score_of, placement::specs::Eligibility::eligibility_of, placement::specs::Goals::kept, placement::specs::Goals::best_of, placement::specs::Goals::placed, placement::specs::Goals::goal_by_rule, placement::specs::Loads::is_fixed, placement::specs::Loads::counted, placement::specs::Loads::passed_limit, placement::specs::Loads::soft_passed, placement::specs::Resources::has_enabled, placement::specs::Resources::has_down, placement::specs::Resources::is_stop_failed, placement::specs::Targets::forbidding, placement::specs::Targets::without_goal, placement::specs::Targets::lacking, rgm_president::specs::Goals::with_listed, rgm_president::specs::Goals::with_decided, rgm_president::specs::Goals::with_ended, rgm_president::specs::Goals::with_goals, rgm_president::specs::Sequence::groups_in_order, rgm_president::specs::Sequence::members_in_order, load_limits::specs::Loads::load, sequencer::specs::Allowed::is_callable, sequencer::specs::Allowed::is_allowed, sequencer::specs::Leaving::has_lost, sequencer::specs::Leaving::has_shaken, sequencer::specs::Leaving::has_going, sequencer::specs::Leaving::follows, sequencer::specs::Leaving::has_reason, sequencer::specs::Leaving::going_of, sequencer::specs::Loads::others_load, sequencer::specs::Loads::is_too_much, sequencer::specs::Next::next_call_of, sequencer::specs::Outlooks::outlook_of, sequencer::specs::Scopes::is_tied, sequencer::specs::Standing::is_ordered, sequencer::specs::Standing::is_online, sequencer::specs::Standing::is_up, sequencer::specs::Standing::is_group_up, sequencer::specs::Standing::has_missing, sequencer::specs::Standing::is_group_online, sequencer::specs::Starting::has_room, sequencer::specs::Starting::is_supported, sequencer::specs::Starting::has_groups, sequencer::specs::Starting::are_suited, sequencer::specs::Starting::is_avoided, sequencer::specs::Starting::waits, sequencer::specs::Starting::may_begin, sequencer::specs::Stopping::is_held, sequencer::specs::Stopping::has_follower, sequencer::specs::Stopping::is_awaited))]
pub fn quiet()
    ensures blocked { OfNewestEvent (IsQuietStatus staying) told.told_blocked → ⊥ }
{}

/// Reasons: only what the trace shows.
#[tactic(auto, unfolding(cl_base::specs::Sets::has, cl_base::specs::Sets::set_with, placement::specs::Decisions::decided, placement::specs::Eligibility::group_reason, placement::specs::Eligibility::node_reason, placement::specs::Eligibility::target_reason, placement::specs::Eligibility::reason_of, placement::specs::Eligibility::online_targets, placement::specs::Eligibility::score_of, placement::specs::Eligibility::eligibility_of, placement::specs::Goals::kept, placement::specs::Goals::best_of, placement::specs::Goals::placed, placement::specs::Goals::goal_by_rule, placement::specs::Loads::is_fixed, placement::specs::Loads::counted, placement::specs::Loads::passed_limit, placement::specs::Loads::soft_passed, placement::specs::Resources::has_enabled, placement::specs::Resources::has_down, placement::specs::Resources::is_stop_failed, placement::specs::Targets::forbidding, placement::specs::Targets::without_goal, placement::specs::Targets::lacking, rgm_president::specs::Goals::with_listed, rgm_president::specs::Goals::with_decided, rgm_president::specs::Goals::with_ended, rgm_president::specs::Goals::with_goals, rgm_president::specs::Sequence::groups_in_order, rgm_president::specs::Sequence::members_in_order, load_limits::specs::Loads::load, rg_props::specs::Words::name_in, wire::specs::Reads::number_at, wire::specs::Reads::byte_at, wire::specs::Reads::node_at, wire::specs::Reads::text_at, wire::specs::Reads::truth_at, wire::specs::Reads::device_at, wire::specs::Reads::devices_at, wire::specs::Reads::items_at, wire::specs::Reads::list_at, wire::specs::Reads::at_most_one_at, wire::specs::Reads::method_at, wire::specs::Reads::outcome_at, wire::specs::Reads::kind_at, wire::specs::Reads::marks_at, wire::specs::Reads::failures_at, wire::specs::Reads::resource_at, wire::specs::Reads::group_at, wire::specs::Reads::report_at, wire::specs::Reads::ready_at, wire::specs::Reads::order_at, wire::specs::Reads::done_at, wire::specs::Reads::body_at, wire::specs::Reads::message_at, wire::specs::Reads::whole_of))]
pub fn reasons()
    ensures failed { IsReason (ground_of moving 65 failover.learned) g 1 reason.StartFailed (Some (group_on (1 ∷ 2 ∷ []))) }
    ensures failed_elsewhere { IsReason (ground_of moving 65 failover.learned) g 2 reason.StartFailed (Some (group_on (1 ∷ 2 ∷ []))) → ⊥ }
    ensures moved { IsReason (ground_of moving 65 failover.learned) g 1 reason.Moved (Some (group_on (1 ∷ 2 ∷ []))) → ⊥ }
    ensures not_member { IsReason (ground_of moving 65 failover.learned) g 1 reason.NotMember (Some (group_on (1 ∷ 2 ∷ []))) → ⊥ }
    ensures blocked { IsReason (ground_of moving 65 failover.learned) g 2 (reason.Blocked a) (Some (group_on (1 ∷ 2 ∷ []))) → ⊥ }
    ensures faulted { IsReason (ground_of moving 65 failover.learned) g 2 (reason.Faulted a) (Some (group_on (1 ∷ 2 ∷ []))) → ⊥ }
{}

/// Again: an Order that lacks its Done goes again at the fourth tick.
#[tactic(auto, unfolding(cl_base::specs::Sets::has, wire::specs::Reads::number_at, wire::specs::Reads::byte_at, wire::specs::Reads::node_at, wire::specs::Reads::text_at, wire::specs::Reads::method_at, wire::specs::Reads::outcome_at, wire::specs::Reads::kind_at, wire::specs::Reads::order_at, wire::specs::Reads::done_at, wire::specs::Reads::body_at, wire::specs::Reads::message_at, wire::specs::Reads::whole_of))]
pub fn again()
    ensures waits { OfNewestEvent (GoesAgain moving) told.order_waits }
    ensures sent { OfNewestEvent (GoesAgain moving) told.order_again }
    ensures left { OfNewestEvent (GoesAgain moving) told.order_left → ⊥ }
{}

/// Requests: answered by the rule and at once where nothing holds them up, one after another; and `queue-full` where the queue is full.
#[tactic(auto, unfolding(cl_base::specs::Sets::has, cl_base::specs::Sets::set_with, placement::specs::Decisions::decided, placement::specs::Eligibility::group_reason, placement::specs::Eligibility::node_reason, placement::specs::Eligibility::target_reason, placement::specs::Eligibility::reason_of, placement::specs::Eligibility::online_targets, placement::specs::Eligibility::score_of, placement::specs::Eligibility::eligibility_of, placement::specs::Goals::kept, placement::specs::Goals::best_of, placement::specs::Goals::placed, placement::specs::Goals::goal_by_rule, placement::specs::Loads::is_fixed, placement::specs::Loads::counted, placement::specs::Loads::passed_limit, placement::specs::Loads::soft_passed, placement::specs::Resources::has_enabled, placement::specs::Resources::has_down, placement::specs::Resources::is_stop_failed, placement::specs::Targets::forbidding, placement::specs::Targets::without_goal, placement::specs::Targets::lacking, rgm_president::specs::Goals::with_listed, rgm_president::specs::Goals::with_decided, rgm_president::specs::Goals::with_ended, rgm_president::specs::Goals::with_goals, rgm_president::specs::Sequence::groups_in_order, rgm_president::specs::Sequence::members_in_order, load_limits::specs::Loads::load))]
pub fn requests()
    ensures remastered { OfNewest (IsAnswerDue commanded) told.remastered }
    ensures refused { OfNewest (IsAnswerDue commanded) told.refused_to_remaster → ⊥ }
    ensures unacknowledged { OfNewest (IsAnswerDue commanded) told.unacknowledged → ⊥ }
    ensures full { OfNewestEvent (IsFull commanded) told.full_with_room → ⊥ }
    ensures unanswered { OfNewestEvent (IsWaiting commanded) told.asked_to_remaster → ⊥ }
    ensures out_of_turn { OfNewest (IsProposal commanded) told.proposed_out_of_turn → ⊥ }
{}

/// Addresses: a request is served by a target, where there is one.
#[tactic(auto, unfolding(address_targets::specs::Targets::targets_of, cl_base::specs::Sets::has, cl_base::specs::Sets::set_with, placement::specs::Decisions::decided, placement::specs::Eligibility::group_reason, placement::specs::Eligibility::node_reason, placement::specs::Eligibility::target_reason, placement::specs::Eligibility::reason_of, placement::specs::Eligibility::online_targets, placement::specs::Eligibility::score_of, placement::specs::Eligibility::eligibility_of, placement::specs::Goals::kept, placement::specs::Goals::best_of, placement::specs::Goals::placed, placement::specs::Goals::goal_by_rule, placement::specs::Loads::is_fixed, placement::specs::Loads::counted, placement::specs::Loads::passed_limit, placement::specs::Loads::soft_passed, placement::specs::Resources::has_enabled, placement::specs::Resources::has_down, placement::specs::Resources::is_stop_failed, placement::specs::Targets::forbidding, placement::specs::Targets::without_goal, placement::specs::Targets::lacking, rgm_president::specs::Goals::with_listed, rgm_president::specs::Goals::with_decided, rgm_president::specs::Goals::with_ended, rgm_president::specs::Goals::with_goals, rgm_president::specs::Sequence::groups_in_order, rgm_president::specs::Sequence::members_in_order, load_limits::specs::Loads::load))]
pub fn addresses()
    ensures target { OfNewestEvent (IsServed serving) told.served_by_the_target }
    ensures nobody { OfNewestEvent (IsServed serving) told.served_by_nobody → ⊥ }
    ensures offline { OfNewestEvent (IsServed serving) told.served_offline → ⊥ }
    ensures unknown { OfNewestEvent (IsServed serving) told.unknown_address → ⊥ }
{}

/// The map of a membership has a call that its president was not told of; the known map has it once the Done has come.
#[tactic(auto, unfolding(cl_base::specs::Sets::has, cl_base::specs::Sets::set_with, placement::specs::Decisions::decided, placement::specs::Eligibility::group_reason, placement::specs::Eligibility::node_reason, placement::specs::Eligibility::target_reason, placement::specs::Eligibility::reason_of, placement::specs::Eligibility::online_targets, placement::specs::Eligibility::score_of, placement::specs::Eligibility::eligibility_of, placement::specs::Goals::kept, placement::specs::Goals::best_of, placement::specs::Goals::placed, placement::specs::Goals::goal_by_rule, placement::specs::Loads::is_fixed, placement::specs::Loads::counted, placement::specs::Loads::passed_limit, placement::specs::Loads::soft_passed, placement::specs::Resources::has_enabled, placement::specs::Resources::has_down, placement::specs::Resources::is_stop_failed, placement::specs::Targets::forbidding, placement::specs::Targets::without_goal, placement::specs::Targets::lacking, rgm_president::specs::Goals::with_listed, rgm_president::specs::Goals::with_decided, rgm_president::specs::Goals::with_ended, rgm_president::specs::Goals::with_goals, rgm_president::specs::Sequence::groups_in_order, rgm_president::specs::Sequence::members_in_order, load_limits::specs::Loads::load, rg_props::specs::Words::name_in, wire::specs::Reads::number_at, wire::specs::Reads::byte_at, wire::specs::Reads::node_at, wire::specs::Reads::text_at, wire::specs::Reads::truth_at, wire::specs::Reads::device_at, wire::specs::Reads::devices_at, wire::specs::Reads::items_at, wire::specs::Reads::list_at, wire::specs::Reads::at_most_one_at, wire::specs::Reads::method_at, wire::specs::Reads::outcome_at, wire::specs::Reads::kind_at, wire::specs::Reads::marks_at, wire::specs::Reads::failures_at, wire::specs::Reads::resource_at, wire::specs::Reads::group_at, wire::specs::Reads::report_at, wire::specs::Reads::ready_at, wire::specs::Reads::order_at, wire::specs::Reads::done_at, wire::specs::Reads::body_at, wire::specs::Reads::message_at, wire::specs::Reads::whole_of))]
pub fn maps_of_a_membership()
    ensures carried_out { (state_of (map_of moving 65 failover.told) a 2).run ≡ true }
    ensures unknown { (state_of (known_of moving 65 failover.told).resources a 2).run ≡ false }
    ensures known { (state_of (known_of moving 65 failover.learned).resources a 2).run ≡ true }
    ensures flags { (flags_of moving 65 failover.told a 2).run ≡ true }
    ensures goal { goal_in moving 65 g failover.told ≡ 2 }
{}

/// The requests that count: those at the president of the membership, since the address was deleted.
#[tactic(auto, unfolding(address_targets::specs::Targets::targets_of, cl_base::specs::Sets::has, cl_base::specs::Sets::set_with, placement::specs::Decisions::decided, placement::specs::Eligibility::group_reason, placement::specs::Eligibility::node_reason, placement::specs::Eligibility::target_reason, placement::specs::Eligibility::reason_of, placement::specs::Eligibility::online_targets, placement::specs::Eligibility::score_of, placement::specs::Eligibility::eligibility_of, placement::specs::Goals::kept, placement::specs::Goals::best_of, placement::specs::Goals::placed, placement::specs::Goals::goal_by_rule, placement::specs::Loads::is_fixed, placement::specs::Loads::counted, placement::specs::Loads::passed_limit, placement::specs::Loads::soft_passed, placement::specs::Resources::has_enabled, placement::specs::Resources::has_down, placement::specs::Resources::is_stop_failed, placement::specs::Targets::forbidding, placement::specs::Targets::without_goal, placement::specs::Targets::lacking, rgm_president::specs::Goals::with_listed, rgm_president::specs::Goals::with_decided, rgm_president::specs::Goals::with_ended, rgm_president::specs::Goals::with_goals, rgm_president::specs::Sequence::groups_in_order, rgm_president::specs::Sequence::members_in_order, load_limits::specs::Loads::load))]
pub fn requests_that_count()
    ensures once { length (answers_in sticking 65 x sample.served_first) ≡ 1 }
    ensures another_president { length (answers_in sticking 65 x sample.served_by_another_president) ≡ 1 }
    ensures deleted { answers_in sticking 65 x sample.deleted ≡ [] }
{}

/// Served by targets: by a target where there is one, and by nobody only where there is none.
#[tactic(auto, unfolding(address_targets::specs::Targets::targets_of, cl_base::specs::Sets::has, cl_base::specs::Sets::set_with, placement::specs::Decisions::decided, placement::specs::Eligibility::group_reason, placement::specs::Eligibility::node_reason, placement::specs::Eligibility::target_reason, placement::specs::Eligibility::reason_of, placement::specs::Eligibility::online_targets, placement::specs::Eligibility::score_of, placement::specs::Eligibility::eligibility_of, placement::specs::Goals::kept, placement::specs::Goals::best_of, placement::specs::Goals::placed, placement::specs::Goals::goal_by_rule, placement::specs::Loads::is_fixed, placement::specs::Loads::counted, placement::specs::Loads::passed_limit, placement::specs::Loads::soft_passed, placement::specs::Resources::has_enabled, placement::specs::Resources::has_down, placement::specs::Resources::is_stop_failed, placement::specs::Targets::forbidding, placement::specs::Targets::without_goal, placement::specs::Targets::lacking, rgm_president::specs::Goals::with_listed, rgm_president::specs::Goals::with_decided, rgm_president::specs::Goals::with_ended, rgm_president::specs::Goals::with_goals, rgm_president::specs::Sequence::groups_in_order, rgm_president::specs::Sequence::members_in_order, load_limits::specs::Loads::load))]
pub fn served_by_targets()
    ensures target { ServedByTargets serving 65 x told.served_by_the_target }
    ensures nobody { ServedByTargets serving 65 x told.served_by_nobody → ⊥ }
    ensures offline { ServedByTargets serving 65 x told.served_offline → ⊥ }
    ensures elsewhere { ServedByTargets sticking 65 x sample.served_elsewhere → ⊥ }
{}

/// Weights exact: with one target, each turn is its own; of two, the one with twice the weight has two of three.
#[tactic(auto, unfolding(address_targets::specs::Targets::targets_of, cl_base::specs::Sets::has, cl_base::specs::Sets::set_with, placement::specs::Decisions::decided, placement::specs::Eligibility::group_reason, placement::specs::Eligibility::node_reason, placement::specs::Eligibility::target_reason, placement::specs::Eligibility::reason_of, placement::specs::Eligibility::online_targets, placement::specs::Eligibility::score_of, placement::specs::Eligibility::eligibility_of, placement::specs::Goals::kept, placement::specs::Goals::best_of, placement::specs::Goals::placed, placement::specs::Goals::goal_by_rule, placement::specs::Loads::is_fixed, placement::specs::Loads::counted, placement::specs::Loads::passed_limit, placement::specs::Loads::soft_passed, placement::specs::Resources::has_enabled, placement::specs::Resources::has_down, placement::specs::Resources::is_stop_failed, placement::specs::Targets::forbidding, placement::specs::Targets::without_goal, placement::specs::Targets::lacking, rgm_president::specs::Goals::with_listed, rgm_president::specs::Goals::with_decided, rgm_president::specs::Goals::with_ended, rgm_president::specs::Goals::with_goals, rgm_president::specs::Sequence::groups_in_order, rgm_president::specs::Sequence::members_in_order, load_limits::specs::Loads::load, rg_props::specs::Words::name_in, wire::specs::Reads::number_at, wire::specs::Reads::byte_at, wire::specs::Reads::node_at, wire::specs::Reads::text_at, wire::specs::Reads::truth_at, wire::specs::Reads::device_at, wire::specs::Reads::devices_at, wire::specs::Reads::items_at, wire::specs::Reads::list_at, wire::specs::Reads::at_most_one_at, wire::specs::Reads::method_at, wire::specs::Reads::outcome_at, wire::specs::Reads::kind_at, wire::specs::Reads::marks_at, wire::specs::Reads::failures_at, wire::specs::Reads::resource_at, wire::specs::Reads::group_at, wire::specs::Reads::report_at, wire::specs::Reads::ready_at, wire::specs::Reads::order_at, wire::specs::Reads::done_at, wire::specs::Reads::body_at, wire::specs::Reads::message_at, wire::specs::Reads::whole_of))]
pub fn turns()
    ensures by_weight { OfNewestEvent (IsServed weighing) turn.by_weight }
    ensures nobodys { WeightsExact serving 65 x told.served_by_nobody → ⊥ }
    ensures anothers { WeightsExact serving 65 x sample.served_elsewhere_at_once → ⊥ }
    ensures all_the_firsts { WeightsExact weighing 65 x turn.always_the_first → ⊥ }
    ensures two_of_the_second { WeightsExact weighing 65 x turn.as_if_weighted_otherwise → ⊥ }
{}

/// Sticky: a client whose node is still a target is served there again, under STICKY_PORT at its port, under LB_STICKY at each port.
pub fn clients_that_stick()
    ensures elsewhere { PortsStick sticking 65 x sample.served_elsewhere → ⊥ }
    ensures nobody { PortsStick sticking 65 x sample.served_nobody → ⊥ }
    ensures elsewhere_by_client { ClientsStick by_client 65 x sample.served_elsewhere_by_client → ⊥ }
    ensures nobody_by_client { ClientsStick by_client 65 x sample.served_nobody_by_client → ⊥ }
{}

/// Placed within limits: groups that are not fixed bring a node no more than its hard limit.
#[tactic(auto, unfolding(cl_base::specs::Sets::has, placement::specs::Loads::is_fixed, placement::specs::Resources::is_stop_failed, load_limits::specs::Loads::load))]
pub fn placed_within_limits()
    ensures one { IsWithin (limited 1) one_there limit }
    ensures both { IsWithin (limited 1) both_there limit → ⊥ }
    ensures too_heavy { IsWithin (limited 2) one_there limit → ⊥ }
{}

/// Clears: the mark of a failed stop is there until the tick after the command.
#[tactic(auto, unfolding(cl_base::specs::Sets::has))]
pub fn clears()
    ensures marked { (own_of sticking 1 sample.not_stopped).marks ≡ (a, record no_marks { run = true; stop_failed = true }) ∷ [] }
    ensures cleared { (own_of sticking 1 sample.cleared).marks ≡ (a, record no_marks { run = true }) ∷ [] }
{}
