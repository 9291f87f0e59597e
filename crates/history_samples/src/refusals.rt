//! What the definitions refuse, by small traces: each clause says of one of them that it meets the definition, or that its newest moment
//! or event does not. A definition that refused nothing would say nothing.
ghost use Rattle.std.specs.Prelude.{◌≡◌, [], ◌∷◌, Some, None};
ghost use Rattle.history.specs.Order.{OfNewest, OfNewestEvent};
ghost use Rattle.history.specs.DeviceRun.{DeviceRun, IsDeviceLine};
ghost use Rattle.history.specs.Links.{FollowsLinks};
ghost use Rattle.history.specs.Member.{member_of};
ghost use Rattle.history.specs.Starts.{StartLines};
ghost use Rattle.history.specs.Lineage.{Lineage};
ghost use Rattle.history.specs.Kept.{Kept};
ghost use Rattle.history.specs.DiskRule.{IsSafe};
ghost use Rattle.history.specs.Validated.{validity, Valid, Lapsed, Open};
ghost use Rattle.history.specs.Deeds.{deeds};
ghost use Rattle.history.specs.Placed.{Placed};
ghost use Rattle.history.specs.Contact as contact;
ghost use Rattle.history.specs.Requests as requests;
ghost use Rattle.history.specs.Contents as contents;
ghost use Rattle.history.specs.Queue.{queue_of};
ghost use Rattle.history.specs.Round.{Rounds, KeepsRound};
ghost use Rattle.history.specs.Lines.{LinesAnswered, HasAnswer};
ghost use Rattle.history.specs.Attempts.{HasCause, EndsInTime, AllAccounted};
ghost use Rattle.history.specs.Downs.{GoesDown};
ghost use Rattle.history.specs.Commands.{CommandIsTaken, IsAnswer};
ghost use Rattle.history.specs.Messages.{Owes};
ghost use Rattle.history_samples.specs.SampleSplit as split;
ghost use Rattle.history_samples.specs.SampleSplit.{two_nodes, pair, distant};
ghost use Rattle.history_samples.specs.SampleAmnesia as amnesia;
ghost use Rattle.history_samples.specs.SampleMessages as messages;
ghost use Rattle.history_samples.specs.SampleRequests as wanted;
ghost use Rattle.history_samples.specs.SampleContents as carried;
ghost use Rattle.history_samples.specs.SampleValidity as changing;
ghost use Rattle.history_samples.specs.SampleJoiner as joining;
ghost use Rattle.history_samples.specs.SampleCauses as causes;
ghost use Rattle.history_samples.specs.SampleSecond as second;
ghost use Rattle.history_samples.specs.SampleCauses.{moving};
ghost use Rattle.history.specs.History.{IsWhole};
ghost use Rattle.history_samples.specs.SampleOneNode.{alone, installed_alone, stopped_alone};
ghost use Rattle.history_samples.specs.SampleContents.{bare};
ghost use Rattle.history_samples.specs.SampleAnswers as answers;
ghost use Rattle.history_samples.specs.SampleResults as results;
ghost use Rattle.history_samples.specs.SampleResults.{asking, wordless};
ghost use Rattle.history_samples.specs.SampleLines as lined;
ghost use Rattle.history_samples.specs.SampleSilence as silence;
ghost use Rattle.history_samples.specs.SampleSilence.{seizing, collecting};
ghost use Rattle.history_samples.specs.SamplePending as pending;
ghost use Rattle.history_samples.specs.SamplePending.{voting};

/// Device: a line ends `failed` exactly where a fault is armed, a later `fault` line stands in the place of an earlier one, and the
/// device answers by what was done.
#[tactic(auto, unfolding(cl_base::specs::Sets::has))]
pub fn device_run()
    ensures failed_done { DeviceRun two_nodes answers.failed_done }
    ensures failed_undone { DeviceRun two_nodes answers.failed_undone }
    ensures failed_unarmed { OfNewest (IsDeviceLine two_nodes) answers.failed_unarmed → ⊥ }
    ensures armed_and_good { OfNewest (IsDeviceLine two_nodes) answers.armed_and_good → ⊥ }
    ensures undone_and_read { OfNewest (IsDeviceLine two_nodes) answers.undone_and_read → ⊥ }
    ensures written_without_key { OfNewest (IsDeviceLine two_nodes) split.written_without_key → ⊥ }
{}

/// Links: a packet has the next number, arrives once and where it was sent to, and is dropped only for want of room.
pub fn links()
    ensures delivered_twice { OfNewest (FollowsLinks 65536) messages.delivered_twice → ⊥ }
    ensures delivered_elsewhere { OfNewest (FollowsLinks 65536) messages.delivered_elsewhere → ⊥ }
    ensures number_left_out { OfNewest (FollowsLinks 65536) messages.number_left_out → ⊥ }
    ensures copied_under_its_own_number { OfNewest (FollowsLinks 65536) messages.copied_under_its_own_number → ⊥ }
    ensures dropped_with_room { OfNewest (FollowsLinks 65536) messages.dropped_with_room → ⊥ }
    ensures crowded { OfNewest (FollowsLinks 65536) messages.crowded → ⊥ }
    ensures crowded_and_dropped { OfNewest (FollowsLinks 65536) messages.crowded_and_dropped }
    ensures out_of_cells { OfNewest (FollowsLinks 1) messages.out_of_cells → ⊥ }
    ensures out_of_cells_and_dropped { OfNewest (FollowsLinks 1) messages.out_of_cells_and_dropped }
    ensures lost_twice { OfNewest (FollowsLinks 65536) lined.lost_twice → ⊥ }
    ensures dropped_for_the_pool { OfNewest (FollowsLinks 65536) lined.dropped_for_the_pool → ⊥ }
    ensures dropped_what_is_gone { OfNewest (FollowsLinks 65536) lined.dropped_what_is_gone → ⊥ }
    ensures dropped_the_newest { OfNewest (FollowsLinks 65536) lined.dropped_the_newest → ⊥ }
{}

/// A start is followed by the lines of its base.
pub fn start_lines()
    ensures base_line_missing { StartLines amnesia.base_line_missing → ⊥ }
    ensures base_line_misplaced { StartLines amnesia.base_line_misplaced → ⊥ }
{}

/// Lineage: a number starts once, and each base stands on the one before.
pub fn lineage()
    ensures update_lost { Lineage (deeds amnesia.update_lost) → ⊥ }
    ensures base_of_nothing { Lineage (deeds amnesia.base_of_nothing) → ⊥ }
    ensures first_with_a_base { Lineage (deeds amnesia.first_with_a_base) → ⊥ }
    ensures started_twice { Lineage (deeds amnesia.started_twice) → ⊥ }
    ensures one_pending { Lineage (deeds amnesia.one_pending) }
    ensures two_pending { Lineage (deeds amnesia.two_pending) → ⊥ }
{}

/// Kept: an acknowledged update stands in each greater base, at its place.
pub fn kept()
    ensures update_lost { Kept (deeds amnesia.update_lost) → ⊥ }
    ensures base_of_nothing { Kept (deeds amnesia.base_of_nothing) → ⊥ }
{}

/// Disk rule: who is no member, whose membership does not hold the device, or who is left out by a greater one that holds it, writes
/// nothing.
#[tactic(auto, unfolding(cl_base::specs::Sets::has))]
pub fn disk_rule()
    ensures written_by_no_member { OfNewest (IsSafe two_nodes) split.written_by_no_member → ⊥ }
    ensures written_to_what_is_not_held { OfNewest (IsSafe two_nodes) split.written_to_what_is_not_held → ⊥ }
    ensures written_while_left_out { OfNewest (IsSafe two_nodes) split.write_while_left_out → ⊥ }
{}

/// Validated: at first, by an install, by joining, and not by reading the word later, or after another promise.
#[tactic(auto, unfolding(cl_base::specs::Sets::has))]
pub fn validity()
    ensures at_first { validity two_nodes 2 1 [] ≡ Valid }
    ensures seen { validity two_nodes 2 1 split.together ≡ Valid }
    ensures seizer { validity two_nodes 1 1 changing.unseen ≡ Valid }
    ensures unseen { validity two_nodes 2 1 changing.unseen ≡ Lapsed }
    ensures registered { validity two_nodes 2 1 changing.registered_again ≡ Lapsed }
    ensures joined { validity two_nodes 2 1 changing.joined ≡ Valid }
    ensures too_late { validity two_nodes 2 1 changing.too_late ≡ Lapsed }
    ensures moved_on { validity two_nodes 2 1 changing.moved_on ≡ Lapsed }
    ensures stopped { validity two_nodes 2 1 changing.unknown ≡ Open }
{}

/// A node that had read keys in another attempt joins: the device is seized by the node that tried to reserve it for this one, read the
/// keys and then the word, and held where the coordinator is that node or was told.
#[tactic(auto, unfolding(cl_base::specs::Sets::has, wire::specs::Reads::number_at, wire::specs::Reads::byte_at, wire::specs::Reads::node_at, wire::specs::Reads::device_at, wire::specs::Reads::items_at, wire::specs::Reads::list_at, wire::specs::Reads::kind_at, wire::specs::Reads::seized_result_at, wire::specs::Reads::seized_at, wire::specs::Reads::body_at, wire::specs::Reads::message_at, wire::specs::Reads::whole_of))]
pub fn joiner()
    ensures devices { DeviceRun joining.shared_by_two joining.started }
    ensures held { OfNewest (contact.IsHeld joining.shared_by_two) joining.started }
    ensures known { OfNewest (contents.IsKnownHeld joining.shared_by_two) joining.started }
    ensures seizer { validity joining.shared_by_two 1 1 joining.started ≡ Valid }
    ensures registered { validity joining.shared_by_two 2 1 joining.registered ≡ Lapsed }
    ensures joined { validity joining.shared_by_two 2 1 joining.joined ≡ Valid }
    ensures joined_unseized { OfNewest (contact.IsHeld joining.shared_by_two) joining.joined_unseized → ⊥ }
    ensures told_held { OfNewest (contents.IsKnownHeld joining.shared_by_others) joining.told_held }
    ensures held_untold { OfNewest (contents.IsKnownHeld joining.shared_by_others) joining.held_untold → ⊥ }
{}

/// Member: until the node goes down, begins an attempt, or saves at a Collect.
pub fn member()
    ensures member { member_of 2 split.together ≡ Some 65 }
    ensures crashed { member_of 2 changing.crashed ≡ None }
    ensures promising { member_of 2 changing.promising ≡ None }
    ensures unmoved { member_of 2 changing.unmoved ≡ Some 65 }
    ensures begins { member_of 1 changing.unmoved ≡ None }
{}

/// Contact: a start waits for each Ready, holds what was seized for it, and has a majority; a member was told; an update was asked for,
/// has its place, and is acknowledged and answered when it is prepared.
#[tactic(auto, unfolding(cl_base::specs::Sets::has, quorum_votes::specs::Sums::sum_to))]
pub fn contact()
    ensures started_without_ready { OfNewest contact.IsReady messages.started_without_ready → ⊥ }
    ensures ready_before_install { OfNewest contact.IsReady messages.ready_before_install → ⊥ }
    ensures installed_so { OfNewest contact.IsInstalled carried.installed_so }
    ensures installed_untold { OfNewest contact.IsInstalled carried.installed_untold → ⊥ }
    ensures installed_for_another { OfNewest contact.IsInstalled carried.installed_for_another → ⊥ }
    ensures held_by_another_word { OfNewest (contact.IsHeld two_nodes) split.held_by_another_word → ⊥ }
    ensures held_by_nobody { OfNewest (contact.IsHeld two_nodes) split.held_by_nobody → ⊥ }
    ensures started_too_early { OfNewest (contact.IsHeld two_nodes) split.started_too_early → ⊥ }
    ensures short_of_votes { contact.HasVotes pair split.short_of_votes → ⊥ }
    ensures acked_unproposed { Placed (deeds amnesia.acked_unproposed) → ⊥ }
    ensures acked_elsewhere { Placed (deeds amnesia.acked_elsewhere) → ⊥ }
    ensures proposed_elsewhere { Placed (deeds amnesia.proposed_elsewhere) → ⊥ }
    ensures proposed_in_nothing { Placed (deeds amnesia.proposed_in_nothing) → ⊥ }
    ensures acknowledged { OfNewest contact.IsPrepared messages.acknowledged }
    ensures acked_unprepared { OfNewest contact.IsPrepared messages.acked_unprepared → ⊥ }
    ensures member_untold { OfNewest contact.IsTold messages.member_untold → ⊥ }
    ensures member_told_too_early { contact.ToldMembers messages.member_told_too_early → ⊥ }
    ensures proposed_unasked { OfNewest (requests.IsAskedFor pair) amnesia.proposed_unasked → ⊥ }
    ensures proposed_twice { OfNewest (requests.IsAskedFor pair) amnesia.proposed_twice → ⊥ }
    ensures answered_too_early { OfNewest (requests.IsAnswered pair) amnesia.answered_too_early → ⊥ }
    ensures proposed_too_often { OfNewest (requests.IsAskedFor pair) wanted.proposed_too_often → ⊥ }
    ensures proposed_once_more { OfNewest (requests.IsAskedFor pair) wanted.proposed_once_more → ⊥ }
    ensures answered_for_another { OfNewest (requests.IsAnswered pair) wanted.answered_for_another → ⊥ }
    ensures started_with_others { OfNewest contact.IsReady results.started_with_others → ⊥ }
    ensures started_without_attempt { OfNewest contact.IsReady results.started_without_attempt → ⊥ }
    ensures acked_after_an_early_answer { OfNewest contact.IsPrepared results.acked_after_an_early_answer → ⊥ }
{}

/// Contents: the bytes spell a message of the sender and of the kind that the line names.
pub fn spelled()
    ensures sent_nothing { contents.Spelled carried.sent_nothing → ⊥ }
    ensures sent_for_another { contents.Spelled carried.sent_for_another → ⊥ }
    ensures sent_as_another_kind { contents.Spelled carried.sent_as_another_kind → ⊥ }
{}

/// Contents: a message carries what its sender has, and nothing else.
#[tactic(auto, unfolding(cl_base::specs::Sets::has, wire::specs::Reads::number_at, wire::specs::Reads::byte_at, wire::specs::Reads::truth_at, wire::specs::Reads::node_at, wire::specs::Reads::device_at, wire::specs::Reads::text_at, wire::specs::Reads::devices_at, wire::specs::Reads::items_at, wire::specs::Reads::list_at, wire::specs::Reads::at_most_one_at, wire::specs::Reads::method_at, wire::specs::Reads::outcome_at, wire::specs::Reads::kind_at, wire::specs::Reads::marks_at, wire::specs::Reads::failures_at, wire::specs::Reads::reading_at, wire::specs::Reads::resource_at, wire::specs::Reads::group_at, wire::specs::Reads::report_at, wire::specs::Reads::seized_result_at, wire::specs::Reads::heartbeat_at, wire::specs::Reads::collect_at, wire::specs::Reads::promise_at, wire::specs::Reads::nack_at, wire::specs::Reads::install_at, wire::specs::Reads::ready_at, wire::specs::Reads::start_at, wire::specs::Reads::prepare_at, wire::specs::Reads::prepared_at, wire::specs::Reads::request_at, wire::specs::Reads::answer_at, wire::specs::Reads::body_at, wire::specs::Reads::message_at, wire::specs::Reads::whole_of))]
pub fn contents()
    ensures installed_otherwise { OfNewest contents.IsRecord carried.installed_otherwise → ⊥ }
    ensures based_otherwise { contents.InstallsTheBase carried.based_otherwise → ⊥ }
    ensures promised_too_much { OfNewest contents.IsRecord carried.promised_too_much → ⊥ }
    ensures promised_an_update { OfNewest contents.IsRecord carried.promised_an_update → ⊥ }
    ensures old_base { contents.NewestBase carried.old_base → ⊥ }
    ensures installing_newest { OfNewest contents.IsRecord carried.installing_newest }
    ensures installing_as_pending { OfNewest contents.IsRecord carried.installing_as_pending }
    ensures installing_old { OfNewest contents.IsRecord carried.installing_old → ⊥ }
    ensures installing_as_committed { OfNewest contents.IsRecord carried.installing_as_committed → ⊥ }
    ensures held_unknown { OfNewest (contents.IsKnownHeld two_nodes) carried.held_unknown → ⊥ }
    ensures false_heartbeat { OfNewest contents.IsHeartbeat carried.false_heartbeat → ⊥ }
    ensures prepared_so { OfNewest (contents.CarriesUpdate pair) carried.prepared_so }
    ensures prepared_otherwise { OfNewest (contents.CarriesUpdate pair) carried.prepared_otherwise → ⊥ }
    ensures answered_alone { OfNewest (contents.CarriesUpdate pair) carried.answered_alone → ⊥ }
    ensures based_in_order { contents.InstallsTheBase carried.based_in_order }
    ensures based_pending_first { contents.InstallsTheBase carried.based_pending_first → ⊥ }
    ensures promised_what_it_has { OfNewest contents.IsRecord carried.promised_what_it_has }
    ensures promised_less { OfNewest contents.IsRecord carried.promised_less → ⊥ }
    ensures promised_unseen { OfNewest contents.IsRecord carried.promised_unseen → ⊥ }
    ensures promised_as_committed { OfNewest contents.IsRecord carried.promised_as_committed → ⊥ }
    ensures promised_as_new { OfNewest contents.IsRecord carried.promised_as_new → ⊥ }
    ensures requested_so { OfNewest (contents.CarriesUpdate bare) carried.requested_so }
    ensures requested_otherwise { OfNewest (contents.CarriesUpdate bare) carried.requested_otherwise → ⊥ }
{}

/// Device queue: a coordinator's own seizing comes with its last Promise, a member's joining with its install; they move on by device
/// lines, a promise of another number drops them, and a member has none.
#[tactic(auto, unfolding(cl_base::specs::Sets::has, quorum_votes::specs::Sums::sum_to))]
pub fn queue()
    ensures not_promised_yet { queue_of joining.sharing 1 (joining.promising joining.read_before) ≡ [] }
    ensures own_data { queue_of joining.sharing 1 joining.all_promised ≡ 1 ∷ [] }
    ensures own_data_over { queue_of joining.sharing 1 joining.seized_by_1 ≡ [] }
    ensures to_join { queue_of joining.sharing 2 joining.installed_by_2 ≡ 1 ∷ [] }
    ensures joining { queue_of joining.sharing 2 joining.registered ≡ 1 ∷ [] }
    ensures joined { queue_of joining.sharing 2 joining.joined ≡ [] }
    ensures a_member { queue_of joining.sharing 2 joining.a_member ≡ [] }
    ensures own_quorum { queue_of pair 1 split.begun_129 ≡ 1 ∷ [] }
    ensures preempting { queue_of pair 1 split.reserving_129 ≡ 1 ∷ [] }
    ensures own_quorum_over { queue_of pair 1 split.seizing_129 ≡ [] }
    ensures asked { queue_of pair 2 results.seize_sent ≡ 1 ∷ [] }
    ensures dropped { queue_of pair 2 results.promised_another ≡ [] }
    ensures once { queue_of pair 2 results.asked_again ≡ [] }
{}

/// Round: all packets between its nodes, then all device commands, then the ticks, and nothing between.
#[tactic(auto, unfolding(cl_base::specs::Sets::has))]
pub fn rounds()
    ensures round_done { Rounds pair messages.round_done }
    ensures round_without_delivery { OfNewest (KeepsRound pair) messages.round_without_delivery → ⊥ }
    ensures round_cut_short { OfNewest (KeepsRound pair) messages.round_cut_short → ⊥ }
    ensures line_in_a_round { OfNewest (KeepsRound pair) messages.line_in_a_round → ⊥ }
    ensures round_out_of_order { OfNewest (KeepsRound pair) lined.round_out_of_order → ⊥ }
    ensures round_goes_on { OfNewest (KeepsRound pair) lined.round_goes_on → ⊥ }
    ensures done_without_rounds { OfNewest (KeepsRound pair) lined.done_without_rounds → ⊥ }
{}

/// Answers: a line is skipped exactly where that is due, and else has its entries.
#[tactic(auto, unfolding(cl_base::specs::Sets::has))]
pub fn lines()
    ensures boot_while_up { LinesAnswered pair answers.boot_while_up }
    ensures skipped_but_down { OfNewestEvent (HasAnswer pair) answers.skipped_but_down → ⊥ }
    ensures not_skipped { OfNewestEvent (HasAnswer pair) answers.not_skipped → ⊥ }
    ensures no_entries { OfNewestEvent (HasAnswer pair) answers.no_entries → ⊥ }
    ensures crash_and_more { OfNewestEvent (HasAnswer pair) answers.crash_and_more → ⊥ }
    ensures no_packet { OfNewestEvent (HasAnswer pair) answers.no_packet → ⊥ }
    ensures dropped_by_a_receiver_that_is_up { OfNewestEvent (HasAnswer pair) answers.dropped_by_a_receiver_that_is_up → ⊥ }
    ensures accepted_unasked { OfNewestEvent (HasAnswer pair) answers.accepted_unasked → ⊥ }
    ensures refused_as_no_member { OfNewestEvent (HasAnswer pair) answers.refused_as_no_member → ⊥ }
    ensures refused_as_not_held { OfNewestEvent (HasAnswer pair) answers.refused_as_not_held → ⊥ }
    ensures fenced_and_up { OfNewestEvent (HasAnswer pair) answers.fenced_and_up → ⊥ }
    ensures skipped_down_but_up { OfNewestEvent (HasAnswer pair) lined.skipped_down_but_up → ⊥ }
    ensures ticked_while_down { OfNewestEvent (HasAnswer pair) lined.ticked_while_down → ⊥ }
    ensures skipped_with_a_packet { OfNewestEvent (HasAnswer pair) lined.skipped_with_a_packet → ⊥ }
    ensures skipped_with_work { OfNewestEvent (HasAnswer alone) lined.skipped_with_work → ⊥ }
    ensures worked_without_work { OfNewestEvent (HasAnswer pair) lined.worked_without_work → ⊥ }
    ensures two_device_lines { OfNewestEvent (HasAnswer alone) lined.two_device_lines → ⊥ }
    ensures another_command { OfNewestEvent (HasAnswer alone) lined.another_command → ⊥ }
    ensures lost_another { OfNewestEvent (HasAnswer pair) lined.lost_another → ⊥ }
    ensures copied_another { OfNewestEvent (HasAnswer pair) lined.copied_another → ⊥ }
    ensures clock_of_another { OfNewestEvent (HasAnswer pair) lined.clock_of_another → ⊥ }
    ensures fault_not_armed { OfNewestEvent (HasAnswer pair) lined.fault_not_armed → ⊥ }
    ensures nothing_asked { OfNewestEvent (HasAnswer pair) lined.nothing_asked → ⊥ }
    ensures dropped_at_the_down { OfNewestEvent (HasAnswer pair) lined.dropped_at_the_down }
    ensures delivered_to_the_down { OfNewestEvent (HasAnswer pair) lined.delivered_to_the_down → ⊥ }
    ensures tick_of_the_rounds_line { OfNewestEvent (HasAnswer pair) lined.tick_of_the_rounds_line → ⊥ }
{}

/// Answers: a write is refused exactly for the reason that is due, and else comes to what the device answers.
#[tactic(auto, unfolding(cl_base::specs::Sets::has))]
pub fn writes()
    ensures refused_for_a_path { OfNewestEvent (HasAnswer pair) lined.refused_for_a_path → ⊥ }
    ensures refused_as_fenced { OfNewestEvent (HasAnswer pair) lined.refused_as_fenced → ⊥ }
    ensures refused_for_a_fault { OfNewestEvent (HasAnswer pair) lined.refused_for_a_fault → ⊥ }
    ensures refused_for_an_armed_fault { OfNewestEvent (HasAnswer pair) lined.refused_for_an_armed_fault }
    ensures accepted_of_a_stranger { OfNewestEvent (HasAnswer pair) lined.accepted_of_a_stranger → ⊥ }
    ensures accepted_without_a_path { OfNewestEvent (HasAnswer bare) lined.accepted_without_a_path → ⊥ }
    ensures accepted_but_not_held { OfNewestEvent (HasAnswer pair) lined.accepted_but_not_held → ⊥ }
{}

/// Answers: an attempt begins in a tick of the least node that its coordinator sees, which has a reason.
#[tactic(auto, unfolding(cl_base::specs::Sets::has))]
pub fn attempts_begin()
    ensures attempt_rightly { OfNewest (HasCause pair) answers.attempt_rightly }
    ensures attempt_of_the_unheard { OfNewest (HasCause pair) answers.attempt_of_the_unheard → ⊥ }
    ensures attempt_outside_a_tick { OfNewest (HasCause pair) answers.attempt_outside_a_tick → ⊥ }
    ensures attempt_of_the_greater { OfNewest (HasCause pair) answers.attempt_of_the_greater → ⊥ }
    ensures attempt_without_reason { OfNewest (HasCause pair) answers.attempt_without_reason → ⊥ }
{}

/// Answers: an attempt ends for a reason that stands in the trace.
#[tactic(auto, unfolding(cl_base::specs::Sets::has, quorum_votes::specs::Sums::sum_to, cl_base::specs::Sets::set_with))]
pub fn attempts_end()
    ensures silent_after_eight { OfNewest (HasCause pair) answers.silent_after_eight }
    ensures superseded_by_a_collect { OfNewest (HasCause pair) answers.superseded_by_a_collect }
    ensures excluded_rightly { OfNewest (HasCause pair) answers.excluded_rightly }
    ensures split { OfNewest (HasCause pair) split.split }
    ensures silent_too_early { OfNewest (HasCause pair) answers.silent_too_early → ⊥ }
    ensures silent_after_the_tick { OfNewest (HasCause pair) answers.silent_after_the_tick → ⊥ }
    ensures silent_twice { OfNewest (HasCause pair) answers.silent_twice → ⊥ }
    ensures silent_after_a_crash { OfNewest (HasCause pair) answers.silent_after_a_crash → ⊥ }
    ensures started_at_the_end { OfNewest (HasCause pair) answers.started_at_the_end → ⊥ }
    ensures silent_and_answered { OfNewest (HasCause pair) answers.silent_and_answered → ⊥ }
    ensures superseded_by_nothing { OfNewest (HasCause pair) answers.superseded_by_nothing → ⊥ }
    ensures superseded_by_a_smaller { OfNewest (HasCause pair) answers.superseded_by_a_smaller → ⊥ }
    ensures excluded_without_reason { OfNewest (HasCause pair) answers.excluded_without_reason → ⊥ }
    ensures miscounted { OfNewest (HasCause pair) answers.miscounted → ⊥ }
    ensures counted_one_too_few { OfNewest (HasCause pair) answers.counted_one_too_few → ⊥ }
    ensures enough_votes { OfNewest (HasCause pair) answers.enough_votes → ⊥ }
    ensures greater_unread { OfNewest (HasCause pair) answers.greater_unread → ⊥ }
    ensures no_path_with_a_path { OfNewest (HasCause pair) answers.no_path_with_a_path → ⊥ }
    ensures not_held_without_cause { AllAccounted pair answers.not_held_without_cause → ⊥ }
{}

/// Answers: `ended e votes` counts under the committed updates of the newest record, or, where these may be enough, with its pending one;
/// whether the last is pending is told by acknowledgements, Commits, memberships and Installs.
#[tactic(auto, unfolding(cl_base::specs::Sets::has, cl_base::specs::Sets::set_with, quorum_votes::specs::Sums::sum_to, wire::specs::Reads::number_at, wire::specs::Reads::byte_at, wire::specs::Reads::truth_at, wire::specs::Reads::node_at, wire::specs::Reads::device_at, wire::specs::Reads::text_at, wire::specs::Reads::devices_at, wire::specs::Reads::items_at, wire::specs::Reads::list_at, wire::specs::Reads::at_most_one_at, wire::specs::Reads::method_at, wire::specs::Reads::outcome_at, wire::specs::Reads::kind_at, wire::specs::Reads::marks_at, wire::specs::Reads::failures_at, wire::specs::Reads::reading_at, wire::specs::Reads::resource_at, wire::specs::Reads::group_at, wire::specs::Reads::report_at, wire::specs::Reads::seized_result_at, wire::specs::Reads::heartbeat_at, wire::specs::Reads::collect_at, wire::specs::Reads::promise_at, wire::specs::Reads::nack_at, wire::specs::Reads::install_at, wire::specs::Reads::ready_at, wire::specs::Reads::start_at, wire::specs::Reads::prepare_at, wire::specs::Reads::prepared_at, wire::specs::Reads::request_at, wire::specs::Reads::answer_at, wire::specs::Reads::body_at, wire::specs::Reads::message_at, wire::specs::Reads::whole_of))]
pub fn pending_updates()
    ensures short_when_proposed { OfNewest (HasCause voting) (pending.short_1 pending.proposed) }
    ensures short_when_prepared { OfNewest (HasCause voting) (pending.short_2 pending.prepared) }
    ensures short_when_committed_too_late { OfNewest (HasCause voting) (pending.short_2 pending.committed_too_late) }
    ensures short_when_installed { OfNewest (HasCause voting) (pending.short_2 pending.pending_installed) }
    ensures voteless_when_acknowledged { OfNewest (HasCause voting) (pending.voteless_1 pending.acknowledged) }
    ensures voteless_when_proposed { OfNewest (HasCause voting) (pending.voteless_1 pending.proposed) → ⊥ }
    ensures short_when_acknowledged { OfNewest (HasCause voting) (pending.short_1 pending.acknowledged) → ⊥ }
    ensures short_when_committed { OfNewest (HasCause voting) (pending.short_2 pending.committed) → ⊥ }
    ensures short_when_started { OfNewest (HasCause voting) (pending.short_2 pending.pending_started) → ⊥ }
{}

/// Answers: each result of a device in `ended e votes` has what shows it.
#[tactic(auto, unfolding(cl_base::specs::Sets::has, quorum_votes::specs::Sums::sum_to, cl_base::specs::Sets::set_with))]
pub fn results()
    ensures expelled_by_a_swap { OfNewest (HasCause pair) results.expelled_by_a_swap }
    ensures expelled_after_reserve { OfNewest (HasCause pair) results.expelled_after_reserve }
    ensures contended_rightly { OfNewest (HasCause pair) results.contended_rightly }
    ensures fault_rightly { OfNewest (HasCause pair) results.fault_rightly }
    ensures greater_rightly { OfNewest (HasCause pair) results.greater_rightly }
    ensures not_held_for_a_fault { AllAccounted pair results.not_held_for_a_fault }
    ensures expelled_unshown { OfNewest (HasCause pair) results.expelled_unshown → ⊥ }
    ensures expelled_with_its_key { OfNewest (HasCause pair) results.expelled_with_its_key → ⊥ }
    ensures contended_too_early { OfNewest (HasCause pair) results.contended_too_early → ⊥ }
    ensures contended_by_another { OfNewest (HasCause pair) results.contended_by_another → ⊥ }
    ensures fault_unshown { OfNewest (HasCause pair) results.fault_unshown → ⊥ }
    ensures greater_of_a_smaller { OfNewest (HasCause pair) results.greater_of_a_smaller → ⊥ }
    ensures not_registered_but_valid { OfNewest (HasCause pair) results.not_registered_but_valid → ⊥ }
    ensures silent_without_a_task { OfNewest (HasCause pair) results.silent_without_a_task → ⊥ }
    ensures superseded_by_itself { OfNewest (HasCause pair) results.superseded_by_itself → ⊥ }
{}

/// Answers: a coordinator ends its attempt over its own silence where its task was there at each of its last eight ticks, all Promises had
/// come before these, and it asked nothing new since.
#[tactic(auto, unfolding(cl_base::specs::Sets::has))]
pub fn own_silence()
    ensures own_silence { OfNewest (HasCause seizing) silence.own_silence }
    ensures later_silence { OfNewest (HasCause seizing) silence.later_silence }
    ensures silence_after_asking { OfNewest (HasCause seizing) silence.silence_after_asking }
    ensures own_silence_too_early { OfNewest (HasCause seizing) silence.own_silence_too_early → ⊥ }
    ensures later_silence_too_early { OfNewest (HasCause seizing) silence.later_silence_too_early → ⊥ }
    ensures silence_soon_after_asking { OfNewest (HasCause seizing) silence.silence_soon_after_asking → ⊥ }
{}

/// Answers: the least member whose answer is missing is named, eight ticks after the coordinator last asked something new.
#[tactic(auto, unfolding(cl_base::specs::Sets::has))]
pub fn silence_of_others()
    ensures named_the_least { OfNewest (HasCause collecting) silence.named_the_least }
    ensures silence_of_2 { OfNewest (HasCause collecting) silence.silence_of_2 }
    ensures named_the_greater { OfNewest (HasCause collecting) silence.named_the_greater → ⊥ }
    ensures named_another { OfNewest (HasCause seizing) silence.named_another → ⊥ }
    ensures silence_of_2_too_early { OfNewest (HasCause collecting) silence.silence_of_2_too_early → ⊥ }
{}

/// Answers: an attempt ends at the eighth tick of a phase, where the coordinator's own task is left.
#[tactic(auto, unfolding(cl_base::specs::Sets::has))]
pub fn own_tasks_end_in_time()
    ensures own_task_in_time { OfNewestEvent (EndsInTime seizing) silence.own_task_in_time }
    ensures own_silence { OfNewestEvent (EndsInTime seizing) silence.own_silence }
    ensures later_task_in_time { OfNewestEvent (EndsInTime seizing) silence.later_task_in_time }
    ensures alone_in_time { OfNewestEvent (EndsInTime alone) silence.alone_in_time }
    ensures own_task_too_long { OfNewestEvent (EndsInTime seizing) silence.own_task_too_long → ⊥ }
    ensures later_task_too_long { OfNewestEvent (EndsInTime seizing) silence.later_task_too_long → ⊥ }
    ensures alone_too_long { OfNewestEvent (EndsInTime alone) silence.alone_too_long → ⊥ }
{}

/// Answers: an attempt ends at the eighth tick after its coordinator last asked something new, where an answer is missing.
#[tactic(auto, unfolding(cl_base::specs::Sets::has, wire::specs::Reads::number_at, wire::specs::Reads::byte_at, wire::specs::Reads::node_at, wire::specs::Reads::device_at, wire::specs::Reads::items_at, wire::specs::Reads::list_at, wire::specs::Reads::kind_at, wire::specs::Reads::seized_result_at, wire::specs::Reads::seized_at, wire::specs::Reads::body_at, wire::specs::Reads::message_at, wire::specs::Reads::whole_of))]
pub fn attempts_end_in_time()
    ensures still_waiting { OfNewestEvent (EndsInTime distant) answers.still_waiting }
    ensures silent_after_eight { OfNewestEvent (EndsInTime distant) answers.silent_after_eight }
    ensures ended_before { OfNewestEvent (EndsInTime distant) answers.ended_before }
    ensures installing_in_time { OfNewestEvent (EndsInTime distant) answers.installing_in_time }
    ensures down_since { OfNewestEvent (EndsInTime distant) answers.down_since }
    ensures stopped_instead { OfNewestEvent (EndsInTime distant) answers.stopped_instead }
    ensures seized_in_time { OfNewestEvent (EndsInTime distant) answers.seized_in_time }
    ensures silent_and_going_on { OfNewestEvent (EndsInTime distant) answers.silent_and_going_on → ⊥ }
    ensures seizing_too_long { OfNewestEvent (EndsInTime distant) answers.seizing_too_long → ⊥ }
    ensures asked_once_more { OfNewestEvent (EndsInTime distant) answers.asked_once_more → ⊥ }
    ensures installing_too_long { OfNewestEvent (EndsInTime distant) answers.installing_too_long → ⊥ }
{}

/// Answers: a node goes down for a reason that stands in the trace, and stops exactly where an armed stop falls.
#[tactic(auto, unfolding(cl_base::specs::Sets::has, cl_base::specs::Sets::set_with))]
pub fn downs()
    ensures stopped_in_a_save { OfNewest (GoesDown pair) answers.stopped_in_a_save }
    ensures stopped_in_the_mounting { OfNewest (GoesDown pair) answers.stopped_in_the_mounting }
    ensures stopped_unarmed { OfNewest (GoesDown pair) answers.stopped_unarmed → ⊥ }
    ensures stopped_too_early { OfNewest (GoesDown pair) answers.stopped_too_early → ⊥ }
    ensures saved_past_the_stop { OfNewest (GoesDown pair) answers.saved_past_the_stop → ⊥ }
    ensures mounted_past_the_stop { OfNewest (GoesDown pair) answers.mounted_past_the_stop → ⊥ }
    ensures stopped_at_a_heartbeat { OfNewest (GoesDown pair) answers.stopped_at_a_heartbeat → ⊥ }
    ensures stopped_at_a_smaller_collect { OfNewest (GoesDown pair) answers.stopped_at_a_smaller_collect → ⊥ }
    ensures stopped_as_a_member { OfNewest (GoesDown pair) answers.stopped_as_a_member → ⊥ }
    ensures panic_unfenced { OfNewest (GoesDown pair) answers.panic_unfenced → ⊥ }
    ensures panic_unexcluded { OfNewest (GoesDown pair) answers.panic_unexcluded → ⊥ }
    ensures crash_without_a_line { OfNewest (GoesDown pair) answers.crash_without_a_line → ⊥ }
    ensures panic_of_the_disk { OfNewest (GoesDown pair) results.panic_of_the_disk → ⊥ }
{}

/// Answers: what a node answers by itself, and that it answers once.
pub fn commands()
    ensures told_no_member_rightly { OfNewestEvent (CommandIsTaken pair) answers.told_no_member_rightly }
    ensures told_no_member { OfNewestEvent (CommandIsTaken pair) answers.told_no_member → ⊥ }
    ensures taken_by_no_member { OfNewestEvent (CommandIsTaken pair) answers.taken_by_no_member → ⊥ }
    ensures numbered_twice { OfNewestEvent (CommandIsTaken pair) answers.numbered_twice → ⊥ }
    ensures full_with_room { OfNewestEvent (CommandIsTaken pair) answers.full_with_room → ⊥ }
    ensures answered_twice { OfNewest IsAnswer amnesia.answered_twice → ⊥ }
    ensures unknown_to_a_member { OfNewest IsAnswer amnesia.unknown_to_a_member → ⊥ }
    ensures ask_at_another { OfNewestEvent (CommandIsTaken asking) results.ask_at_another }
    ensures ask_for_no_query { OfNewestEvent (CommandIsTaken pair) results.ask_at_another → ⊥ }
    ensures ask_at_the_president { OfNewestEvent (CommandIsTaken asking) results.ask_at_the_president → ⊥ }
    ensures taken_at_another { OfNewestEvent (CommandIsTaken asking) results.taken_at_another → ⊥ }
    ensures query_unanswered { OfNewestEvent (CommandIsTaken asking) results.query_unanswered → ⊥ }
    ensures called_unknown { OfNewestEvent (CommandIsTaken pair) results.called_unknown → ⊥ }
    ensures bad_value { OfNewestEvent (CommandIsTaken wordless) results.bad_value }
    ensures unknown_for_bad_value { OfNewestEvent (CommandIsTaken wordless) results.called_unknown → ⊥ }
    ensures bad_words_taken { OfNewestEvent (CommandIsTaken wordless) results.query_unanswered → ⊥ }
    ensures full_rightly { OfNewestEvent (CommandIsTaken pair) results.full_rightly }
    ensures taken_when_full { OfNewestEvent (CommandIsTaken pair) results.taken_when_full → ⊥ }
    ensures own_answer_later { OfNewest IsAnswer results.own_answer_later → ⊥ }
    ensures answered_unasked { OfNewest IsAnswer results.answered_unasked → ⊥ }
{}

/// Answers: what is owed is sent in the event that calls for it, and the doings of an event are of one node.
#[tactic(auto, unfolding(cl_base::specs::Sets::has))]
pub fn messages()
    ensures prepare_answered { OfNewestEvent (Owes pair) answers.prepare_answered }
    ensures install_answered { OfNewestEvent (Owes pair) answers.install_answered }
    ensures install_stopped { OfNewestEvent (Owes pair) answers.install_stopped }
    ensures prepare_unanswered { OfNewestEvent (Owes pair) answers.prepare_unanswered → ⊥ }
    ensures collect_unanswered { OfNewestEvent (Owes pair) answers.collect_unanswered → ⊥ }
    ensures install_unanswered { OfNewestEvent (Owes pair) answers.install_unanswered → ⊥ }
    ensures proposed_to_nobody { OfNewestEvent (Owes pair) answers.proposed_to_nobody → ⊥ }
    ensures installing { OfNewestEvent (Owes bare) carried.installing }
    ensures installing_nothing { OfNewestEvent (Owes bare) carried.installing_nothing → ⊥ }
    ensures installing_and_down { OfNewestEvent (Owes bare) carried.installing_and_down → ⊥ }
    ensures stopped_alone { OfNewestEvent (Owes alone) stopped_alone }
    ensures installed_alone { OfNewestEvent (Owes alone) installed_alone → ⊥ }
    ensures request_unsent { OfNewestEvent (Owes pair) answers.request_unsent → ⊥ }
    ensures doings_of_two { OfNewestEvent (Owes pair) answers.doings_of_two → ⊥ }
    ensures prepare_not_repeated { OfNewestEvent (Owes pair) answers.prepare_not_repeated → ⊥ }
    ensures prepare_repeated { OfNewestEvent (Owes pair) answers.prepare_repeated }
    ensures request_not_repeated { OfNewestEvent (Owes pair) answers.request_not_repeated → ⊥ }
    ensures request_repeated { OfNewestEvent (Owes pair) answers.request_repeated }
    ensures request_answered { OfNewestEvent (Owes pair) answers.request_answered }
    ensures request_waiting { OfNewestEvent (Owes pair) answers.request_waiting }
    ensures seize_queued { OfNewestEvent (Owes pair) results.seize_sent }
    ensures seize_answered { OfNewestEvent (Owes pair) results.answered_again }
    ensures seize_unanswered { OfNewestEvent (Owes pair) results.asked_again → ⊥ }
    ensures task_reported { OfNewestEvent (Owes pair) results.task_reported }
    ensures task_unreported { OfNewestEvent (Owes pair) results.task_unreported → ⊥ }
    ensures join_reported { OfNewestEvent (Owes pair) results.join_reported }
    ensures join_unreported { OfNewestEvent (Owes pair) results.join_unreported → ⊥ }
    ensures order_answered { OfNewestEvent (Owes pair) results.order_answered }
    ensures order_unanswered { OfNewestEvent (Owes pair) results.order_unanswered → ⊥ }
{}

/// Answers: an attempt ends for what was promised to it or for a Nack of its own number, and a node panics for a notice that was sent when
/// it was excluded.
#[tactic(auto, unfolding(cl_base::specs::Sets::has, cl_base::specs::Sets::set_with, quorum_votes::specs::Sums::sum_to, wire::specs::Reads::number_at, wire::specs::Reads::byte_at, wire::specs::Reads::truth_at, wire::specs::Reads::node_at, wire::specs::Reads::device_at, wire::specs::Reads::text_at, wire::specs::Reads::devices_at, wire::specs::Reads::items_at, wire::specs::Reads::list_at, wire::specs::Reads::at_most_one_at, wire::specs::Reads::kind_at, wire::specs::Reads::heartbeat_at, wire::specs::Reads::promise_at, wire::specs::Reads::nack_at, wire::specs::Reads::excluded_at, wire::specs::Reads::body_at, wire::specs::Reads::message_at, wire::specs::Reads::whole_of))]
pub fn causes_told()
    ensures short_without_update { OfNewest (HasCause moving) causes.short_without_update }
    ensures short_with_update { OfNewest (HasCause moving) causes.short_with_update → ⊥ }
    ensures superseded_by_a_nack { OfNewest (HasCause pair) causes.superseded_by_a_nack }
    ensures nacked_for_another { OfNewest (HasCause pair) causes.nacked_for_another → ⊥ }
    ensures nacked_by_another { OfNewest (HasCause pair) causes.nacked_by_another → ⊥ }
    ensures nacked_by_nothing { OfNewest (HasCause pair) causes.nacked_by_nothing → ⊥ }
    ensures superseded_by_its_own { OfNewest (HasCause pair) causes.superseded_by_its_own }
    ensures nacked_by_its_own { OfNewest (HasCause pair) causes.nacked_by_its_own → ⊥ }
    ensures excluded_by_notice { OfNewest (GoesDown pair) causes.excluded_by_notice }
    ensures noticed_later { OfNewest (GoesDown pair) causes.noticed_later → ⊥ }
    ensures noticed_another { OfNewest (GoesDown pair) causes.noticed_another → ⊥ }
    ensures noticed_old { OfNewest (GoesDown pair) causes.noticed_old → ⊥ }
    ensures attempt_of_the_broken { OfNewest (HasCause pair) causes.attempt_of_the_broken }
    ensures attempt_of_the_whole { OfNewest (HasCause pair) causes.attempt_of_the_whole → ⊥ }
    ensures heard_three_ticks_ago { OfNewest (HasCause pair) (causes.heard_before 3) }
    ensures heard_four_ticks_ago { OfNewest (HasCause pair) (causes.heard_before 4) → ⊥ }
{}

/// Answers: writes of a node that did not join, one that was done though its answer was lost, and why a start does not hold a device.
#[tactic(auto, unfolding(cl_base::specs::Sets::has, cl_base::specs::Sets::set_with, quorum_votes::specs::Sums::sum_to))]
pub fn causes_at_devices()
    ensures refused_after_a_failed_ignore { OfNewestEvent (HasAnswer pair) (causes.not_held causes.ignored_in_vain) }
    ensures written_after_a_failed_ignore { OfNewestEvent (HasAnswer pair) (causes.written causes.ignored_in_vain) → ⊥ }
    ensures refused_after_a_late_word { OfNewestEvent (HasAnswer pair) (causes.not_held causes.read_late) }
    ensures written_after_a_late_word { OfNewestEvent (HasAnswer pair) (causes.written causes.read_late) → ⊥ }
    ensures lost_while_left_out { OfNewest (IsSafe two_nodes) causes.lost_while_left_out → ⊥ }
    ensures undone_while_left_out { OfNewest (IsSafe two_nodes) causes.undone_while_left_out }
    ensures not_held_for_a_greater { AllAccounted pair (causes.not_held_for_a_word 129) }
    ensures not_held_for_a_smaller { AllAccounted pair (causes.not_held_for_a_word 1) → ⊥ }
    ensures not_held_after_64 { AllAccounted pair (causes.not_held_after 64) }
    ensures not_held_after_63 { AllAccounted pair (causes.not_held_after 63) → ⊥ }
{}

/// The second version: a node that the header does not configure holds nothing valid at first, is seen by none that is configured, begins no
/// attempt alone, and is foreign to an attempt; whom an attempt has is settled as the tick begins; a server takes no write; a client's request wants the president.
#[tactic(auto, unfolding(cl_base::specs::Sets::has, wire::specs::Reads::number_at, wire::specs::Reads::byte_at, wire::specs::Reads::truth_at, wire::specs::Reads::node_at, wire::specs::Reads::text_at, wire::specs::Reads::devices_at, wire::specs::Reads::items_at, wire::specs::Reads::list_at, wire::specs::Reads::at_most_one_at, wire::specs::Reads::kind_at, wire::specs::Reads::promise_at, wire::specs::Reads::body_at, wire::specs::Reads::message_at, wire::specs::Reads::whole_of))]
pub fn second_version()
    ensures configured_at_first { validity second.one_of_two 1 1 [] ≡ Valid }
    ensures unconfigured_at_first { validity second.one_of_two 2 1 [] ≡ Lapsed }
    ensures attempt_alone { OfNewest (HasCause second.growing) (second.attempt_of 1) }
    ensures attempt_with_another { OfNewest (HasCause second.growing) (second.attempt_of 3) → ⊥ }
    ensures attempt_of_the_unconfigured { OfNewest (HasCause second.growing) second.attempt_alone → ⊥ }
    ensures attempt_as_the_tick_began { OfNewest (HasCause second.leaving) (second.attempt_behind_an_update 3) }
    ensures attempt_as_it_is_configured { OfNewest (HasCause second.leaving) (second.attempt_behind_an_update 1) → ⊥ }
    ensures beat_to_the_heard { OfNewest (HasCause second.growing) second.beat_to_the_heard }
    ensures beat_to_another { OfNewest (HasCause second.growing) second.beat_to_another → ⊥ }
    ensures foreign { OfNewest (HasCause second.growing) second.foreign }
    ensures foreign_but_configured { OfNewest (HasCause bare) second.foreign → ⊥ }
    ensures no_path_to_a_server { OfNewestEvent (HasAnswer second.served_by) second.no_path_to_a_server }
    ensures written_to_a_server { OfNewestEvent (HasAnswer second.served_by) (causes.written split.together) → ⊥ }
    ensures skipped_elsewhere { OfNewestEvent (HasAnswer pair) second.skipped_elsewhere }
    ensures served_elsewhere { OfNewestEvent (HasAnswer pair) second.served_elsewhere → ⊥ }
    ensures served_here { OfNewestEvent (HasAnswer pair) second.served_here }
    ensures served_another { OfNewestEvent (HasAnswer pair) second.served_another → ⊥ }
{}

/// A trace that is whole owes nothing at its end: no drop, no `base` line, no stop, and no part of a round.
#[tactic(auto, unfolding(cl_base::specs::Sets::has))]
pub fn whole()
    ensures round_done { IsWhole pair messages.round_done }
    ensures cut_before_a_drop { IsWhole pair lined.cut_before_a_drop → ⊥ }
    ensures cut_before_a_base { IsWhole pair lined.cut_before_a_base → ⊥ }
    ensures cut_before_a_stop { IsWhole pair lined.cut_before_a_stop → ⊥ }
    ensures cut_in_a_round { IsWhole pair messages.round_begun → ⊥ }
{}
