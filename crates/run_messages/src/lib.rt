//! What each run of the simulated world tells by its messages: how they are spelled, what a Heartbeat says, and which record they show.
//!
//! On the way stands a law that others may use: a node is a member as its lines say (`memberships_of_each_run`).
//!
//! `records`: the record of a node is what the trace tells of it.
//!
//! Each function here is a law. It has no body, and its contract is proved of every header, every list of lines, everything that happens and
//! all agents.
#![tactic(auto)]

ghost use Rattle.run_messages.specs.Laws.{HeartbeatsOfEachRun, MembershipsOfEachRun, SpelledOfEachRun};
ghost use Rattle.run_messages.specs.records.RecordRuns.{InstalledBaseOfEachRun, NewestBaseOfEachRun, NewestOfEachRun, RecordsOfEachRun};

/// The bytes of each `sent` line spell a message that fits, of the sender of the line, with the kind, device, place or number that the line names.
pub fn spelled_of_each_run()
    ensures { SpelledOfEachRun }
{}

/// A node is a member of what its last `member` line says, unless it went down or up, began an attempt or promised in the event of a Collect since;
/// else it is none.
pub fn memberships_of_each_run()
    ensures { MembershipsOfEachRun }
{}

/// So a Heartbeat says whether its sender is a member.
pub fn heartbeats_of_each_run()
    ensures { HeartbeatsOfEachRun }
{}

/// The base of a start has the texts that its coordinator has installed.
pub fn installed_base_of_each_run()
    ensures { InstalledBaseOfEachRun }
{}

/// A Promise shows the installed epoch and the record of its sender; an Install the record of the coordinator, which has installed its last attempt.
pub fn records_of_each_run()
    ensures { RecordsOfEachRun }
{}

/// What a coordinator installs is the newest of the records that it has in hand: each that no other exceeds has the same texts, and leaves the same pending.
pub fn newest_of_each_run()
    ensures { NewestOfEachRun }
{}

/// So has the base of its start the texts of the newest of them.
pub fn newest_base_of_each_run()
    ensures { NewestBaseOfEachRun }
{}
