//! What ties a device, and the task of a node there, to the abstract machine of one device: when the two are one and the same
//! (`specs/Devices`, `specs/Tasks`), and that each command which a node sends keeps them so, in each way that the command can go.
//! There is no code here, and no node and no network: the device is that of `pgr_device`, the tasks are those of `seize`, the
//! machine is `device_machine`. The functions are laws; their statements stand in `specs/Laws`.
#![tactic(auto)]

ghost use Rattle.device_ties.specs.Laws.{FirstIsTied, FirstKeysAreTied, NodesAreTied, SeizeCommands, JoinCommands, ResultsAreTrue, DistrustIsSaved, WriteCommands, GoodWriteIsTaken, SeizingsBegin, SessionSteps, OthersStay, MovesOfTheWhole, RegisteredAgain, KeysAreOfRegistered, ReadingShowsAll};

/// A device with the keys of its attached nodes alone, no reservation, and word and data 0 is the machine's at first, and so is
/// each node.
pub fn first_is_tied()
    ensures device { FirstIsTied }
    ensures keys { FirstKeysAreTied }
    ensures nodes { NodesAreTied }
{}

/// The command that is due in a seizing is one or two events of its node, whatever becomes of it: answered, failed and not done,
/// done while the answer is lost, or without a path. The device is as those events leave the machine's, and what the node makes of
/// the answer is what the machine has of it. It is supposed that the record calls the key not validated where it is registered.
pub fn seize_commands()
    ensures { SeizeCommands }
{}

/// How a seizing ended is so in the machine: held, not registered, or ended in another way.
pub fn results_are_true()
    ensures { ResultsAreTrue }
{}

/// So is the command that is due in a joining. Where it ends joined, the device is joined, and the key validated.
pub fn join_commands()
    ensures { JoinCommands }
{}

/// To save that the key is not validated, before it is registered, is at most one event.
pub fn distrust_is_saved()
    ensures { DistrustIsSaved }
{}

/// A write of a node that joined the device is the machine's write, or changes nothing.
pub fn write_commands()
    ensures { WriteCommands }
{}

/// A write is answered good only where the device lets the node write.
pub fn good_write_is_taken()
    ensures { GoodWriteIsTaken }
{}

/// A node that is asked to seize the device, and has no task there, begins to.
pub fn seizings_begin()
    ensures { SeizingsBegin }
{}

/// Tasks and joined marks go with the session; an install leaves the device apart, joined, or to be joined.
pub fn session_steps()
    ensures { SessionSteps }
{}

/// What others do leaves a node as it is at the device.
pub fn others_stay()
    ensures { OthersStay }
{}

/// The steps of a task at one device are commands of the whole, which leave memberships and other devices as they are.
pub fn moves_of_the_whole()
    ensures { MovesOfTheWhole }
{}

/// An own key that is registered again changes nothing.
pub fn registered_again()
    ensures { RegisteredAgain }
{}

/// The keys that are read are those of the registered nodes.
pub fn keys_are_of_registered()
    ensures { KeysAreOfRegistered }
{}

/// Where a reading shows members' keys alone, members alone are registered.
pub fn reading_shows_all()
    ensures { ReadingShowsAll }
{}
