//! When Heartbeats are sent and to whom, when an attempt begins and with whom, and how it ends, in each run of the simulated world.
//!
//! What a node has heard of the others is told by the lines of packets that were delivered to it and of its ticks (`specs/Heard`). So its Heartbeats
//! go to those alone to which they are due, and the members of an attempt are nodes of which it has heard.
//!
//! `endings`: attempts end while they are under way, and by what came to their coordinator. What an attempt counts as it ends stands in `run_outcomes`.
//!
//! Each function here is a law. It has no body, and its contract is proved of every header, every list of lines, everything that happens and
//! all agents.
#![tactic(auto)]

ghost use Rattle.run_attempts.specs.Laws.{AttemptsBeginInEachRun, BeatsAreDueInEachRun, BeatsInTicksOfEachRun, InstallsBringMembersInEachRun};
ghost use Rattle.run_attempts.specs.endings.Laws.{AttemptsAreUnderWayInEachRun, EndsNameMembersInEachRun, NodesHaveTheirAttempts, PromisedInEachRun, SilentAfterEightTicks, SilentInTicksOfEachRun, SupersededInEachRun};

/// A Heartbeat is sent in a tick of its sender, and to another node.
pub fn beats_in_ticks_of_each_run()
    ensures { BeatsInTicksOfEachRun }
{}

/// It goes only to a node to which it is due: to one that is configured in the committed updates of its sender, or, where the sender is not configured
/// there itself, to one that it heard since it went up.
pub fn beats_are_due_in_each_run()
    ensures { BeatsAreDueInEachRun }
{}

/// An attempt begins in a tick of its coordinator, which is the least of its members. Each member is the coordinator itself or was heard at most three
/// ticks ago, and each node whose Heartbeat came so lately is a member; a coordinator that is configured has configured members alone. What is
/// configured is read where the tick begins. It has a reason: as the tick began the coordinator was no member, or a member of an attempt with other
/// members, or one of these had shown another session in its last Heartbeat, or a greater promise.
pub fn attempts_begin_in_each_run()
    ensures { AttemptsBeginInEachRun }
{}

/// The members that an Install brings are those of the line of its attempt, which stands before it.
pub fn installs_bring_members_in_each_run()
    ensures { InstallsBringMembersInEachRun }
{}

/// Each line that ends an attempt, and each that starts its membership, is of an attempt that is under way: it is the last of its coordinator, which
/// has not gone down since it began, and it neither ended nor started before.
pub fn attempts_are_under_way_in_each_run()
    ensures { AttemptsAreUnderWayInEachRun }
{}

/// A node has the attempt that is under way by the lines, and it has one exactly where one is.
pub fn nodes_have_their_attempts_in_each_run()
    ensures { NodesHaveTheirAttempts }
{}

/// An attempt is superseded by a greater number, of which a Collect or a Nack came to its coordinator since it began, and whose attempt has its line, or
/// whose coordinator stopped in a save; or by its own number, where a node that refused it went up since the attempt began.
pub fn superseded_in_each_run()
    ensures { SupersededInEachRun }
{}

/// It ends for want of an answer in a tick of its coordinator alone.
pub fn silent_in_ticks_of_each_run()
    ensures { SilentInTicksOfEachRun }
{}

/// .. and not before the eighth tick of its coordinator since it began.
pub fn silent_after_eight_ticks_in_each_run()
    ensures { SilentAfterEightTicks }
{}

/// For want of votes, and for a member that is not configured, it ends once the Promise of each other member has come to its coordinator since it began;
/// and the votes are fewer than it needs.
pub fn promised_in_each_run()
    ensures { PromisedInEachRun }
{}

/// The node that is named at its end, as silent, foreign or excluded, is one of its members.
pub fn ends_name_members_in_each_run()
    ensures { EndsNameMembersInEachRun }
{}
