//! What each run of the simulated world keeps, and what its lines tell.
//!
//! A run is things that happen, one after another: `specs/Scenes` has the world with what was said and told of it, `specs/Happenings` what can
//! happen and when, `specs/Shapes` what each line brings, `specs/Rounds` which part of a round comes next, and `specs/Telling` says that each run of
//! the world is that. What holds at first and is kept by each thing that happens holds of each run: `kept_holds` of `proofs/Reached`, which is no law
//! function, since it speaks of every property. Over such runs stand the laws: what the lines tell of links and devices (`specs/WorldLines`, `NodeLines`), of members (`Members`), of
//! starts and updates (`Runs`, `Starts`), that each run is one of the abstract machine of the whole cluster (`Wholes`), the disk rule
//! (`DiskRules`), the messages behind the lines (`ContactRuns`), and the votes of a start (`VoteRuns`).
//!
//! Each function here is a law. It has no body, and its contract is proved of every header, every list of lines, everything that happens and
//! all agents.
#![tactic(auto)]

ghost use Rattle.run_history.specs.VoteRuns.{VotesOfEachRun};
ghost use Rattle.run_history.specs.ContactRuns.{InstalledOfEachRun, OnceOfEachRun, PreparedOfEachRun, ReadyOfEachRun, ToldOfEachRun};
ghost use Rattle.run_history.specs.DiskRules.{DiskRuleOfEachRun};
ghost use Rattle.run_history.specs.Members.{MembersOfEachRun};
ghost use Rattle.run_history.specs.NodeLines.{CommandsAreTold, DevicesAreKnown};
ghost use Rattle.run_history.specs.Runs.{EventsOfEachRun, NoBaseIsDue, PlacedInEachRun, RepositoryOfEachRun, RunsAreCut, StartLinesOfEachRun};
ghost use Rattle.run_history.specs.Starts.{StartsOfEachRun};
ghost use Rattle.run_history.specs.Telling.{WorldsAreTold};
ghost use Rattle.run_history.specs.Wholes.{RepositoriesAreKept, RunsAreWhole, RunsWriteSafely, WholeRunsAreInOrder, WholeRunsAreSafe};
ghost use Rattle.run_history.specs.WorldLines.{DevicesOfEachRun, DiskRuleByWrites, LinksOfEachRun};

/// From its header on each run of the simulated world through any lines is things that happen: each is due when it comes, and at the end nothing is
/// due; its world is that of the scene, exactly these lines were said, and the entries told are what is printed. The header has at most 32 nodes, at
/// most 16 devices and a cluster below 2^32; the lines name nodes from number 1 on, seconds below 2^64, for a boot a node of the header, and for a
/// fault a node and a device of it; nothing else is supposed.
pub fn worlds_are_told()
    ensures { WorldsAreTold }
{}

/// A node tells of a command at a device where the device's answer comes, first, once, and as it was due or written; else never. Of packets it tells
/// nothing.
pub fn commands_are_told()
    ensures { CommandsAreTold }
{}

/// Where a node's tasks and its attempt are at devices of the cluster alone, they are so after each step: a message that names another device changes
/// nothing.
pub fn devices_are_known()
    ensures { DevicesAreKnown }
{}

/// The links hold what the packet lines leave in flight: each line is about the next packet or about one in flight, and what is dropped for want of room
/// is told at once.
pub fn links_of_each_run()
    ensures { LinksOfEachRun }
{}

/// Each device is in the state that its lines leave, each line has the device's answer, and the faults that are armed are those that lines armed. Of the
/// header it is supposed that it has at most 16 devices, and no server among them.
pub fn devices_of_each_run()
    ensures { DevicesOfEachRun }
{}

/// A run obeys the disk rule where each write that a device takes is of a member of a membership that holds the device: no other command is a write.
pub fn disk_rule_by_writes()
    ensures { DiskRuleByWrites }
{}

/// A node is up where its lines say so. The last `member` line of a member names its session, and that membership has its `start` line; so has each that
/// a Start was ever sent of. Of the header it is supposed that it has at most 16 devices.
pub fn members_of_each_run()
    ensures { MembersOfEachRun }
{}

/// Each membership that has a `start` line has started in the machine, was counted with the devices that the line names as held, and is of the members that
/// it names. Of the header it is supposed that it has at most 16 devices.
pub fn starts_of_each_run()
    ensures { StartsOfEachRun }
{}

/// Each step of a node in a run can be cut into small steps, each of which is events of the machine of memberships.
pub fn runs_are_cut()
    ensures { RunsAreCut }
{}

/// However they are cut, these events, one after another, are a run of that machine.
pub fn events_of_each_run()
    ensures { EventsOfEachRun }
{}

/// The `base` lines of each start stand right behind it, as many as it says, in order.
pub fn start_lines_of_each_run()
    ensures { StartLinesOfEachRun }
{}

/// So none is to come at the end of a run.
pub fn no_base_is_due()
    ensures { NoBaseIsDue }
{}

/// Updates are of memberships that started. They take their places right after the base, one after another; each is acknowledged before the next
/// is proposed, and with the words with which it was proposed.
pub fn placed_in_each_run()
    ensures { PlacedInEachRun }
{}

/// Lineage, whenever a deed has come, places, and that each acknowledged update stands at its place in the base of every greater membership. It is
/// supposed that in the state that the events come to two attempts that held one device with votes meet (`DevicesMeet`); nothing else.
pub fn repository_of_each_run()
    ensures { RepositoryOfEachRun }
{}

/// Each run of the world, however the steps of its nodes are cut, is one of the machine of the whole cluster from the
/// header's first state on. The header has at most 16 devices and a cluster below 2^32; nothing else is supposed.
pub fn runs_are_whole()
    ensures { RunsAreWhole }
{}

/// In a state of the machine that a scene is of, attempts meet at devices, Lineage and Kept hold, and no attempt that
/// counted with a device held is above the session of a node that joined the device and may write there.
pub fn whole_runs_are_safe()
    ensures { WholeRunsAreSafe }
{}

/// The nine parts on which the disk rule, Lineage and Kept rest hold wherever a run is: promises rise, no number is tried twice, epoch words rise and have one
/// writer, a reservation stays with a registered holder, a node seizes and joins a device once in a session, who is left out has no claim on a device, who
/// holds it valid knows of all that held it, two attempts with a majority meet, and records of one epoch agree.
pub fn whole_runs_are_in_order()
    ensures { WholeRunsAreInOrder }
{}

/// A node whose write a device takes, answered or not, is a member of a membership that started and holds the device,
/// and no greater attempt that counted with the device held left the node out: none is greater at all.
pub fn runs_write_safely()
    ensures { RunsWriteSafely }
{}

/// Of each run the repository is kept: Lineage, whenever a deed has come, the places of updates, and each acknowledged
/// update at its place in the base of every greater membership.
pub fn repositories_are_kept()
    ensures { RepositoriesAreKept }
{}

/// No device takes a write of a node that a greater membership left out which started before and holds the device, nor
/// one of a node that is no member of a started membership that holds it. The header has at most 16 devices, no server
/// among them, and a cluster below 2^32; nothing else is supposed.
pub fn disk_rule_of_each_run()
    ensures { DiskRuleOfEachRun }
{}

/// No number has two `attempt` lines.
pub fn once_of_each_run()
    ensures { OnceOfEachRun }
{}

/// A node other than the coordinator installs in the event in which an Install of that attempt is delivered to it.
pub fn installed_of_each_run()
    ensures { InstalledOfEachRun }
{}

/// A start stands behind its `attempt` line with the same members, and behind an Install to each other member and its Ready, which was sent after
/// the Install was delivered.
pub fn ready_of_each_run()
    ensures { ReadyOfEachRun }
{}

/// An update that is acknowledged was proposed, and each other member of the start has answered the Prepare that came to it; each Prepare is sent
/// after its update was proposed.
pub fn prepared_of_each_run()
    ensures { PreparedOfEachRun }
{}

/// A node is a member once the membership has started, and a Start of it was delivered to each but the coordinator; each Start is sent after the
/// `start` line.
pub fn told_of_each_run()
    ensures { ToldOfEachRun }
{}

/// The members of a start and the devices that it holds have more than half of all votes, as the updates of its base give them.
pub fn votes_of_each_run()
    ensures { VotesOfEachRun }
{}
