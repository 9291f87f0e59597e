//! What packets bring, whom nodes see by them, and which are owed in each event, in each run of the simulated world.
//!
//! - `views`: an attempt begins exactly with the nodes that its coordinator sees. What a node has heard of the others is told by the lines of packets
//!   that were delivered to it and of its ticks, but for packets that are foreign to it.
//! - `native`, `admitted`: no packet that comes to a node is foreign to it: none names what is not there, or brings what cannot be
//!   (`node_model/specs/Members`). So the members of an attempt are a function of the lines.
//! - `fits`: no record is too large for its disk: in a run of fewer than 2^63 moments no local disk fails but by a stop.
//! - `prepares`: the Prepares of a proposal; and that all doings in one event are one node's.
//! - `repeats`: the Prepares that lack their Prepared go again.
//! - `replies`: Orders, Collects and Prepares are answered.
//! - `waiting`: the Requests of commands.
//! - `again`: the Requests that lack their Answer go again.
//! - `installs`: the Installs of a coordinator that installs, and the start of one that has no other member.
//!
//! Each function here is a law. It has no body, and its contract is proved of every header, every list of lines, everything that happens and
//! all agents.
#![tactic(auto)]

ghost use Rattle.run_packets.specs.views.Laws.{EachRunHasAnAccount, NoneBeginsAloneInEachRun, PlainViewsWhereNoneIsForeign, ViewsOfEachRun};
ghost use Rattle.run_packets.specs.native.Laws.{BootsAreOfTheHeader, MembersAreOfHeader, NoLogIsBad, PlainKindsAreNative, SeizesAreNative};
ghost use Rattle.run_packets.specs.admitted.Laws.{AnswersAreNative, AttemptsAreOfTheHeader, AttemptsBeginAsWanted, InstallsAreNative, NoneIsForeignInEachRun, PreparesAreNative, PromisesAreNative, ReadiesAreNative, RequestsAreNative, SeizedsAreNative, ViewsAreToldInEachRun};
ghost use Rattle.run_packets.specs.fits.Laws.{NoDiskFailsByLines, NoDiskFailsInEachRun};
ghost use Rattle.run_packets.specs.again.Laws.{RequestsAgainOfEachRun};
ghost use Rattle.run_packets.specs.installs.Laws.{EachInstallOfEachRun, InstallsOfEachRun};
ghost use Rattle.run_packets.specs.prepares.Laws.{OneNodeOfEachRun, PreparesOfEachRun};
ghost use Rattle.run_packets.specs.repeats.Laws.{PreparesAgainOfEachRun};
ghost use Rattle.run_packets.specs.replies.Laws.{CollectsAreAnsweredInEachRun, OrdersAreAnsweredInEachRun, PreparesAreAnsweredInEachRun};
ghost use Rattle.run_packets.specs.waiting.Laws.{CanonicalWordsAreShort, RequestsOfEachRun};

/// The members of an attempt are its coordinator and the nodes of which a packet that was not foreign came to it at most three ticks ago, since it went
/// up; a coordinator that is configured sees configured nodes alone. What is configured is read where the tick begins.
pub fn views_in_each_run()
    ensures { ViewsOfEachRun }
{}

/// Of each run there is an account of what was foreign.
pub fn each_run_has_an_account()
    ensures { EachRunHasAnAccount }
{}

/// Where no packet is foreign to its receiver every packet that is delivered counts.
pub fn plain_views_where_none_is_foreign()
    ensures { PlainViewsWhereNoneIsForeign }
{}

/// A node that is not configured as its tick begins begins no attempt alone.
pub fn none_begins_alone_in_each_run()
    ensures { NoneBeginsAloneInEachRun }
{}

/// No Heartbeat, Collect, Nack, Start, Prepared, Commit, Order, Done and Excluded that comes is foreign to its receiver.
pub fn plain_kinds_are_native()
    ensures { PlainKindsAreNative }
{}

/// Each member that a packet names, in whatever kind of message, is a node of the header.
pub fn members_are_of_the_header()
    ensures { MembersAreOfHeader }
{}

/// No list of updates that a Promise shows, or an Install brings, is bad.
pub fn no_log_is_bad()
    ensures { NoLogIsBad }
{}

/// No request to seize is foreign to its receiver: it is a member itself, all members are nodes of the header, and the device is one of it.
pub fn seizes_are_native()
    ensures { SeizesAreNative }
{}

/// Where each line names a node of the header, and what happens is what is due, each node that boots is one of the header.
pub fn boots_are_of_the_header()
    ensures { BootsAreOfTheHeader }
{}

/// No Seized is foreign to its receiver: its device is one of the header, and it has at most as many keys as there may be nodes.
pub fn seizeds_are_native()
    ensures { SeizedsAreNative }
{}

/// No Ready is foreign to its receiver: what its sender has joined are devices of the header.
pub fn readies_are_native()
    ensures { ReadiesAreNative }
{}

/// No Promise is foreign to its receiver: the devices that are valid to its sender are devices of the header.
pub fn promises_are_native()
    ensures { PromisesAreNative }
{}

/// No Install is foreign to its receiver: it is a member itself, and each reading is of a device of the header, by a member.
pub fn installs_are_native()
    ensures { InstallsAreNative }
{}

/// No Prepare is foreign to its receiver: its text is an update, and where it is the receiver's next one it may come behind those that the receiver has.
pub fn prepares_are_native()
    ensures { PreparesAreNative }
{}

/// No Request is foreign to its receiver: its text can be read as a request.
pub fn requests_are_native()
    ensures { RequestsAreNative }
{}

/// No Answer is foreign to its receiver: its text can be read as an answer.
pub fn answers_are_native()
    ensures { AnswersAreNative }
{
    order_laws::told_cycles_have_names();
}

/// No packet that comes in a run is foreign to its receiver.
pub fn none_is_foreign_in_each_run()
    ensures { NoneIsForeignInEachRun }
{
    order_laws::told_cycles_have_names();
}

/// Each member of an attempt is a node of the header.
pub fn attempts_are_of_the_header()
    ensures { AttemptsAreOfTheHeader }
{}

/// The members of each attempt are the nodes of the header that its coordinator sees, with every packet counted.
pub fn views_are_told_in_each_run()
    ensures { ViewsAreToldInEachRun }
{
    order_laws::told_cycles_have_names();
}

/// An attempt begins as `history` has it (`IsWanted`): in a tick of its coordinator, which is the least of its members; these are the nodes of the header
/// that it sees, and more than itself unless it is configured, by the record that it had as the tick began; and then it had a reason.
pub fn attempts_begin_as_wanted()
    ensures { AttemptsBeginAsWanted }
{
    order_laws::told_cycles_have_names();
}

/// In no run a node goes down because its disk has failed, where nodes of the header alone boot and fewer than 2^63 moments are told.
pub fn no_disk_fails_in_each_run()
    ensures { NoDiskFailsInEachRun }
{}

/// So it is where each line that boots a node boots one of the header, and what happens is what is due.
pub fn no_disk_fails_by_lines()
    ensures { NoDiskFailsByLines }
{}

/// All entries of an event are the doings of one node, or nobody's: a node tells of attempts and memberships that it coordinates, and of no others.
pub fn one_node_of_each_run()
    ensures { OneNodeOfEachRun }
{}

/// Each proposal has its Prepares in its event, one to each other member that the `start` line names, unless the president goes down there. Nothing is
/// said of an event behind which no packet number is left.
pub fn prepares_of_each_run()
    ensures { PreparesOfEachRun }
{}

/// At each fourth tick of a president that is a member still, each Prepare that lacks its Prepared is sent again, unless the president goes down there.
/// Nothing is said of an event behind which no packet number is left.
pub fn prepares_again_of_each_run()
    ensures { PreparesAgainOfEachRun }
{}

/// An Order of a fellow member is answered by Done in the event in which it is delivered, unless the node goes down there. Nothing is said of an
/// event behind which no packet number is left.
pub fn orders_are_answered_in_each_run()
    ensures { OrdersAreAnsweredInEachRun }
{}

/// A Collect is answered by a Promise or by a Nack in the event in which it is delivered, unless the node goes down there. Nothing is said of an
/// event behind which no packet number is left.
pub fn collects_are_answered_in_each_run()
    ensures { CollectsAreAnsweredInEachRun }
{}

/// A Prepare of a fellow member is answered by Prepared in the event in which it is delivered, unless the node goes down there. Nothing is said of an
/// event behind which no packet number is left.
pub fn prepares_are_answered_in_each_run()
    ensures { PreparesAreAnsweredInEachRun }
{}

/// A command of a member other than the president goes to it in the event in which it becomes the oldest that waits, unless a monitor asked since the node
/// went up, or the node goes down there. Nothing is said of an event behind which no packet number is left. This holds while the schedule has fewer than
/// 2^63 lines, which number the commands, and while each command has 4,096 bytes at most, as each line of a schedule has.
pub fn requests_of_each_run()
    ensures { RequestsOfEachRun }
{}

/// A member whose last Request went out three ticks ago sends it again at this tick, unless its Answer has come from the president since the node became a
/// member, or the node goes down there. Nothing is said of an event behind which no packet number is left. This holds while the schedule has fewer than
/// 2^63 lines, which number the commands.
pub fn requests_again_of_each_run()
    ensures { RequestsAgainOfEachRun }
{}

/// The canonical words of a command of 4,096 bytes at most have 65,536 bytes at most, so that a Request can carry them.
pub fn canonical_words_are_short()
    ensures { CanonicalWordsAreShort }
{}

/// A coordinator that installs sends its Install in that event, to each other member of its attempt. Nothing is said of an event behind which no packet
/// number is left.
pub fn installs_of_each_run()
    ensures { InstallsOfEachRun }
{}

/// A coordinator that installs goes on in that event: its Install goes to each other member of its attempt, and where there is none its membership starts,
/// or it stops in the save of that start. Nothing is said of an event behind which no packet number is left. This holds while fewer than 2^63 moments are
/// told, so that no local disk fails but by a stop.
pub fn each_install_of_each_run()
    ensures { EachInstallOfEachRun }
{}
