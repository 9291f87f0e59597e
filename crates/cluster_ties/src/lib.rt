//! What nodes do at devices, in the abstract machine of the whole cluster.
//!
//! `specs/Ties` says when a node with its tasks, its marks and its attempt is the machine's at each device; the laws of `specs/Laws` say
//! that each thing that it does is steps of the machine, after which it is so again, and that each other node stays as it is. Those of
//! `specs/Told` say what messages tell of devices. The last law says what follows: attempts meet, Lineage, Kept, and the disk rule.
//!
//! Each function here is a law. It has no body, and its contract is proved of every node, every device and every state of the machine.
#![tactic(auto)]

ghost use Rattle.cluster_ties.specs.Laws.{AcknowledgesGo, BeginsGo, BootsGo, CallsGo, CallsGoOn, CommandsGo, CommitsGo, CountsGo, CrashesGo, DistrustsGo, FirstDevicesAreTied, FirstIsTied, InstallsGo, OthersStay, PreparesGo, PromisesGo, ProposalsAreLost, ProposesGo, QueuesGo, ReachedIsSafe, ReachedStays, RestsGo, SeizesGo, SitsGo, StartsGo, WritesAreSafe, WritesGo};
ghost use Rattle.cluster_ties.specs.Told.{OwnRequestsAreTold, PromisesAreTold, RequestsAreTold, ResultsAreTold, TakesAreTold, ToldOfStays};

/// At first each device is the machine's, as the schedule's header has it, and each node is, which is down.
pub fn first_is_tied()
    ensures devices { FirstDevicesAreTied }
    ensures whole { FirstIsTied }
{}

/// The command that is due at a node, answered or failed, done or not done, is steps of the whole cluster.
pub fn commands_go()
    ensures { CommandsGo }
{}

/// Before a plain seizing registers the node's key, its record says that the key is not validated: that is a step of the task.
pub fn distrusts_go()
    ensures { DistrustsGo }
{}

/// A node that promises, or goes down, is so in the machine: its tasks and what it had joined are past, at each device.
pub fn sessions_go()
    ensures promises { PromisesGo }
    ensures crashes { CrashesGo }
{}

/// A node that begins an attempt of its own has promised its number, at each device, and the machine of each has the attempt; where it is alone all have
/// promised.
pub fn begins_go()
    ensures { BeginsGo }
{}

/// A call on an attempt is steps of the whole: with every Promise in hand it goes on to seize, or it asks nodes. The machine of each
/// device has the attempt after it, with all that the steps of the call ask for.
pub fn calls_go()
    ensures asks { CallsGo }
    ensures node { CallsGoOn }
{}

/// A node that is asked to seize a device begins to, where it has no seizing of the device yet.
pub fn seizes_go()
    ensures accepts { SeizesGo }
    ensures queues { QueuesGo }
{}

/// A member that installs joins each device that was read: at once where it seized the device or its key was seen there and validated,
/// and by registering anew else.
pub fn installs_go()
    ensures { InstallsGo }
{}

/// A member's write to a device that it has joined is the machine's write, or changes nothing.
pub fn writes_go()
    ensures { WritesGo }
{}

/// An attempt that has its majority is counted at each device, held there or not, and its coordinator installs it.
pub fn counts_go()
    ensures { CountsGo }
{}

/// A node that boots has begun nothing, and what it does in memory, apart from devices, leaves it so.
pub fn rests_go()
    ensures boots { BootsGo }
    ensures rests { RestsGo }
{}

/// A membership starts, and a node sits in it.
pub fn starts_go()
    ensures starts { StartsGo }
    ensures sits { SitsGo }
{}

/// An update is proposed, the proposal lost or acknowledged, and it is prepared and committed by members: no device takes part in that, but
/// in the crash by which a proposal is lost.
pub fn updates_go()
    ensures proposes { ProposesGo }
    ensures lost { ProposalsAreLost }
    ensures acknowledges { AcknowledgesGo }
    ensures prepares { PreparesGo }
    ensures commits { CommitsGo }
{}

/// What one node does leaves each other node as it is, at each device, and the whole is reached again.
pub fn others_stay()
    ensures others { OthersStay }
    ensures reached { ReachedStays }
{}

/// What a message tells of devices stays so, whatever comes, and is what a call takes that takes the message.
pub fn told_of_stays()
    ensures stays { ToldOfStays }
    ensures takes { TakesAreTold }
{}

/// What an attempt asks of a node, its own or another, and what a node tells of its promises and its seizings, is so.
pub fn sends_are_told()
    ensures requests { RequestsAreTold }
    ensures own_requests { OwnRequestsAreTold }
    ensures promises { PromisesAreTold }
    ensures results { ResultsAreTold }
{}

/// In each state that is reached attempts meet at devices, and Lineage and Kept hold; and a write of a member that a device takes, as it is, obeys the
/// disk rule.
pub fn reached_states_are_safe()
    ensures reached { ReachedIsSafe }
    ensures writes { WritesAreSafe }
{}
