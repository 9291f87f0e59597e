//! By what attempts end and nodes go down, in each run of the simulated world.
//!
//! - `counts`: what an attempt counts when it ends, for a member that is not configured, and for want of votes. The records that a coordinator has in
//!   hand are its own at the attempt and those that were promised to it since; it counts the votes of the newest.
//! - `results`: which results of seizings an attempt names, where it ends for want of votes. Who is asked to seize a device has a path to it
//!   (`specs/results/Paths`); how a seizing ended is told by the task, by its Seized and by the attempt, as the device lines show it since the attempt
//!   began (`specs/results/Shown`); and what a record does not hold valid it did not hold so where its node promised, or began, the attempt of its session
//!   (`specs/results/Tried`): but for a device that is seized without its votes, which is lost before the seizing, when all Promises are collected.
//! - `accounts`: for which devices a start accounts. An attempt that installs has seized each device to which a member has a path, and each seizing has ended;
//!   so each device is held, or its seizing ended as the device lines show it. That its node is not registered ends a seizing for votes alone
//!   (`specs/accounts/Unregistered`).
//! - `exclusions`: whom attempts exclude. What a node has installed is no older than its last `installed` line says, and its Promise tells it with its
//!   members.
//! - `panics`: which nodes panic since an attempt excluded them. An attempt that excludes its own coordinator makes it panic; another node is told by an
//!   Excluded, at which it panics only while it is in the session of that attempt.
//! - `saves`, `stops`: where nodes stop, only in a save that the rules let them make there.
//! - `phases`: how far the attempt of a coordinator is, as the lines tell it.
//! - `tasks`: the tasks of coordinators at shared devices, and with them the device queue of each node. Whom an attempt asks to seize quorum devices, and what
//!   these answer, is told by its lines, and which devices are valid to them by their Promises; the tasks that a coordinator has of its own are the seizings that
//!   its attempt asked it for.
//! - `lines`, `rounds_told`, `reports`: by these queues each line is answered, and the parts of rounds come in their order; so are requests to seize and Installs,
//!   in the event in which they come or once their tasks are over.
//! - `silence`: for whose answers an attempt waits, as the lines tell what it has sent and what has come, and for how many ticks; so when it ends for want of one.
//! - `histories`: all of it together, with what the crates below have of runs: each run is a history.
//! - `specs/Traces`: what the program's top call says of each text that it writes.
//!
//! Each function here is a law. It has no body, and its contract is proved of every header, every list of lines, everything that happens and
//! all agents.
#![tactic(auto)]

ghost use Rattle.run_outcomes.specs.counts.Laws.{CountedOfEachRun, ForeignOfEachRun, LackingOfEachRun, NeededOfEachRun};
ghost use Rattle.run_outcomes.specs.results.Laws.{ResultsOfEachRun};
ghost use Rattle.run_outcomes.specs.results.Paths.{PathsOfEachRun};
ghost use Rattle.run_outcomes.specs.accounts.Laws.{AllAccountedInEachRun};
ghost use Rattle.run_outcomes.specs.exclusions.Laws.{ExclusionsOfEachRun};
ghost use Rattle.run_outcomes.specs.panics.Laws.{ExclusionsAreToldInEachRun};
ghost use Rattle.run_outcomes.specs.saves.Laws.{LetterStopsOfEachRun};
ghost use Rattle.run_outcomes.specs.stops.AtDevices.{StopsAreCaused};
ghost use Rattle.run_outcomes.specs.stops.Laws.{TickStopsOfEachRun};
ghost use Rattle.run_outcomes.specs.lines.Laws.{LinesAreAnswered};
ghost use Rattle.run_outcomes.specs.rounds_told.Laws.{NoRoundIsLeft, RoundsAreTold};
ghost use Rattle.run_outcomes.specs.silence.Ends.{AttemptsEndInTime};
ghost use Rattle.run_outcomes.specs.silence.Laws.{AwaitedAreTold, CollectsAreMissing, LacksAreMissing, SilentsAreCaused};
ghost use Rattle.run_outcomes.specs.Traces.{TracesOfEachRun};
ghost use Rattle.run_outcomes.specs.histories.Laws.{HistoriesOfEachRun};
ghost use Rattle.run_outcomes.specs.phases.Laws.{CollectorsHaveNothingDue, NoneIsOver, PromisesAreTold, SeizingsAreTold, VotesAreTold};
ghost use Rattle.run_outcomes.specs.tasks.Laws.{AskedMaySeize, AsksAreTold, OwnTasksAreAsked, QueuesAreTold, SeizedsAreTold, ShownValid, ShowsAreTold};
ghost use Rattle.run_outcomes.specs.reports.Laws.{ReportsOfEachRun, TasksAreAnsweredInEachRun};

/// An attempt ends for a foreign member once all have promised, and names the least of its members that is configured neither in the newest
/// committed updates in hand nor with the pending one.
pub fn foreign_of_each_run()
    ensures { ForeignOfEachRun }
{}

/// Where it ends for want of votes, it needs so many as are needed by the newest record in hand, under its committed updates or with the pending
/// one; and under these each device that is lacking has votes.
pub fn needed_of_each_run()
    ensures { NeededOfEachRun }
{}

/// Where it ends for want of votes, what it has is told by the newest record in hand too: under its committed updates these are the votes of the
/// members and of each device with votes that is not lacking, to which a member has a path; or they are so with the pending update, where the
/// committed ones may be enough.
pub fn counted_of_each_run()
    ensures { CountedOfEachRun }
{}

/// The devices that it names as lacking are devices of the header, in order and each once; one to which no member has a path is named so, and no
/// other.
pub fn lacking_of_each_run()
    ensures { LackingOfEachRun }
{}

/// A node that seizes a device has a path to it, and so has each that its attempt asks to seize it.
pub fn paths_of_each_run()
    ensures { PathsOfEachRun }
{}

/// An attempt that ends for want of votes ends as the rules say it: all have promised, and it has fewer votes than are needed, as they are counted by the newest
/// record in hand. Each obstacle that it names is shown: no member has a path to the device, or device lines of a member since the attempt began show the greater
/// word, the expelled member, the contended device or the failed command. Where no registered member was found, this is shown of each attached one by itself:
/// keys that a member read there since then lack its own; or its own record did not hold the device valid where it promised the attempt, or began it.
pub fn results_of_each_run()
    ensures { ResultsOfEachRun }
{}

/// Where a membership starts, it accounts for each device of the header: the device is held, or no member has a path to it, or device lines of a member since the
/// attempt began show the greater word, the expelled member, the contended device or the failed command; or the device has votes by the base, with or without its
/// last update, and no attached member may seize it.
pub fn accounts_of_each_run()
    ensures { AllAccountedInEachRun }
{}

/// Where an attempt ends and excludes a node, an earlier attempt left that node out and had another member of this one. Its number is above the newest
/// epoch that the node had installed as it sent its Promise, and where the coordinator excludes itself, above the newest that it has installed by then.
pub fn exclusions_of_each_run()
    ensures { ExclusionsOfEachRun }
{}

/// A node panics for an exclusion only where its own attempt has excluded it in the same event, or where an Excluded was delivered to it that was sent as
/// its sender's attempt excluded it. The epoch that the panic names is above the newest that the node had installed by then, and its attempt left the node
/// out.
pub fn exclusions_are_told_in_each_run()
    ensures { ExclusionsAreToldInEachRun }
{}

/// A node stops only where the rules let it save or mount, in each event but a tick and a command at a device: in its boot; at a command and a probe
/// behind a proposal of its own; and at a message that is delivered to it where a save of that kind is due: a promise is asked of it, its attempt is
/// under way, it installs what it acts for, its membership starts, or an update is proposed, prepared or committed.
pub fn letter_stops_of_each_run()
    ensures { LetterStopsOfEachRun }
{}

/// In a tick a node stops only where the rules let it save: it has proposed an update or begun an attempt in this tick, or it wants one: it is the
/// first of the nodes that it sees, and it is no member, or of other members, or one of these was heard to be elsewhere; or the lines do not tell which
/// nodes are configured.
pub fn tick_stops_of_each_run()
    ensures { TickStopsOfEachRun }
{
    run_packets::attempts_begin_as_wanted();
}

/// A node stops where an armed stop falls, and in each event, also in a command at a device, only where the rules let it save: it makes a device not valid, has joined
/// one, or its own attempt installs or starts with no work left. Nodes of the header alone boot there, and a packet number is left.
pub fn stops_are_caused_in_each_run()
    ensures { StopsAreCaused }
{
    run_packets::attempts_begin_as_wanted();
}

/// The attempt that a node has is not over: where it ends, or starts its membership, the node has none any more.
pub fn none_is_over_in_each_run()
    ensures { NoneIsOver }
{}

/// While an attempt is under way, it has taken the Promise of another member exactly where one was delivered to its coordinator since it began, and it
/// still collects exactly where one is missing. No packet is foreign to its receiver there.
pub fn promises_are_told_in_each_run()
    ensures { PromisesAreTold }
{}

/// While an attempt collects Promises no command at a device is due at its coordinator.
pub fn collectors_have_nothing_due_in_each_run()
    ensures { CollectorsHaveNothingDue }
{}

/// The coordinator of an attempt acts for it until it has installed it; and the attempt seizes devices exactly where the lines bring seizings of its own: its
/// coordinator acts for it, it is under way, and each other member has promised.
pub fn seizings_are_told_in_each_run()
    ensures { SeizingsAreTold }
{}

/// While an attempt seizes devices it was given the votes of the newest record that its coordinator has in hand, of its committed updates and with the pending
/// one, as far as the trace tells that record; so the quorum devices are those that have votes by it.
pub fn votes_are_told_in_each_run()
    ensures { VotesAreTold }
{}

/// Of each quorum device the lines tell which other members an attempt asked to seize it, and which of them last: those that it has asked, and the one whose
/// answer it has, or waits for. So it is while a packet number is left.
pub fn asks_are_told_in_each_run()
    ensures { AsksAreTold }
{}

/// The coordinator of an attempt is the least of its members. While the attempt collects Promises it has no task; while it seizes devices it has one task for each
/// device that it was asked to seize itself, in the order of the attempt's. Where it was asked last, the attempt has the result of that task; where another
/// was asked since, its own key was not registered.
pub fn own_tasks_are_asked_in_each_run()
    ensures { OwnTasksAreAsked }
{}

/// Before an attempt installs, the answer that it has of another member which it asked last to seize a device is what the last Seized told which that
/// member sent of it and which came to the coordinator since the attempt began; it has none where none came. No packet is foreign to its receiver there.
pub fn seizeds_are_told_in_each_run()
    ensures { SeizedsAreTold }
{}

/// Before an attempt installs, it has a device as shown valid by a member whose Promise it took exactly where a Promise of its epoch that shows the device as
/// valid was delivered to its coordinator since it began. No packet is foreign to its receiver there.
pub fn shows_are_told_in_each_run()
    ensures { ShowsAreTold }
{}

/// A node to which a request to seize a quorum device is under way, and which is in the session of that attempt and has not installed it, holds the device
/// valid in its record. No packet is foreign to its receiver there.
pub fn asked_may_seize_in_each_run()
    ensures { AskedMaySeize }
{}

/// In a session of another's that a node has not installed, its last Promise shows the devices as valid that are valid by its record, but for those that it
/// is about to seize as devices without votes. Nodes of the header alone boot, and a packet number is left for the Promise.
pub fn last_promises_show_what_is_valid_in_each_run()
    ensures { ShownValid }
{}

/// The tasks that a node has queued at shared devices are those that its lines tell, on their devices and as far, in order; where a node that stopped in a save
/// coordinates an attempt they may leave this open until its tasks are dropped or it is a member, and a member has none. No packet is foreign to its receiver there, nodes
/// of the header alone boot, and a packet number is left.
pub fn queues_are_told_in_each_run()
    ensures { QueuesAreTold }
{}

/// Each line has the entries that `history` says, or is skipped for the cause that is due, and so has each part of a round. Of the run it is supposed that it is
/// of whole lines, that no packet is foreign to its receiver, and that fewer than 2^63 moments are told; of the lines that they boot nodes of the header alone, and
/// write to devices that are numbered from 1 on.
pub fn lines_are_answered_in_each_run()
    ensures { LinesAreAnswered }
{}

/// Each part of a round is the one that is due by what the lines tell, a line comes only outside of rounds, and `rounds done` where no part is left.
pub fn rounds_are_told_in_each_run()
    ensures { RoundsAreTold }
{}

/// At the end of a run of whole lines no round is left open.
pub fn no_round_is_left_in_each_run()
    ensures { NoRoundIsLeft }
{}

/// A request to seize a device is answered in the event in which it comes in the session, or the device is queued then, or the node goes down; an Install is
/// answered by Ready, or the node has work then, or goes down. Nothing is said of an event behind which no packet number is left.
pub fn tasks_are_answered_in_each_run()
    ensures { TasksAreAnsweredInEachRun }
{}

/// In the event of the last device command of a task its Seized is sent, where it was asked for and no Install has come; and where one has, a Ready, unless a task
/// is left; or the node goes down. Nothing is said of an event behind which no packet number is left.
pub fn reports_are_sent_in_each_run()
    ensures { ReportsOfEachRun }
{}

/// Where an answer of another member is missing by the lines, to a Collect, to a request to seize a device or to an Install of an attempt, the attempt waits
/// for it. So it is while a packet number is left.
pub fn lacks_are_missing_in_each_run()
    ensures { LacksAreMissing }
{}

/// While an attempt collects, it waits for the Promises of those other members alone whose answer is missing by the lines. So it is while a packet number is
/// left.
pub fn collects_are_missing_in_each_run()
    ensures { CollectsAreMissing }
{}

/// In each phase an attempt waits exactly for those other members of which an answer is missing by the lines. Nodes of the header alone boot there, and a packet number
/// is left.
pub fn awaited_are_told_in_each_run()
    ensures { AwaitedAreTold }
{}

/// An attempt ends for want of an answer at the eighth tick of a phase, or a later one, by its lines, and names the least member of which an answer is missing: the
/// coordinator itself where it has work at a device. Where the lines leave its queue open it may be itself, or the least of the others. Nodes of the header alone
/// boot there, and a packet number is left.
pub fn silents_are_caused_in_each_run()
    ensures { SilentsAreCaused }
{}

/// In a tick that is the eighth of a phase by its lines, or a later one, an attempt does end so, where an answer is missing and the queue of its coordinator is told; or
/// the coordinator goes down in it. It is supposed that fewer than 2^63 moments are told.
pub fn attempts_end_in_each_run()
    ensures { AttemptsEndInTime }
{}

/// Each run of ordinary lines that comes to its end is a history: what `history` asks of the lines of memberships, devices and updates holds of them, whole.
pub fn histories_of_each_run()
    ensures { HistoriesOfEachRun }
{
    run_packets::attempts_begin_as_wanted();
}

/// What plain lines come to is a trace of them: the moments of which it is the text are what can happen in one cluster, and a history.
pub fn traces_of_each_run()
    ensures { TracesOfEachRun }
{
    run_packets::attempts_begin_as_wanted();
    run_packets::none_is_foreign_in_each_run();
}
