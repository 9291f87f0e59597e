//! Why nodes of the simulated world come up and go down, in each run: crashes, fences and stops.
//!
//! Each function here is a law. It has no body, and its contract is proved of every header, every list of lines, everything that happens and
//! all agents.
#![tactic(auto)]

ghost use Rattle.run_downs.specs.Laws.{BootsOfEachRun, CrashesOfEachRun, FencesOfEachRun, NoStopIsDue, SavesOfEachRun, SettledStopsOfEachRun, StopsComeInEachRun, StopsOfEachRun};

/// A node comes up in the event of its boot.
pub fn boots_of_each_run()
    ensures { BootsOfEachRun }
{}

/// A node crashes in the event of its crash, and in no other.
pub fn crashes_of_each_run()
    ensures { CrashesOfEachRun }
{}

/// A node panics for a fence where the device has refused a write of its own as fenced in the same event.
pub fn fences_of_each_run()
    ensures { FencesOfEachRun }
{}

/// A node stops where the stop that was armed falls in one of the four calls of its save or of its mounting, and saves where none does.
pub fn stops_of_each_run()
    ensures { StopsOfEachRun }
{}

/// A node saves, and stops, in an event of its own alone: its boot, its tick, its command at a device, a command or a probe that is given to it, or
/// the delivery of a packet to it.
pub fn saves_of_each_run()
    ensures { SavesOfEachRun }
{}

/// In a boot, and in the event of a Collect, a Start, a Prepare or a Commit, a node stops only where the rules let it save there: a Collect is of a
/// greater number than it has promised, at a Prepare and a Commit it is a member, at a Start it is none yet, and at a Start and a Commit an update may
/// be pending. At a command, a probe, a Request, an Answer, an Order and a Done it has told of a proposal of its own in the event; at a Prepared it has,
/// or it is a member and an update may be pending. In a crash, a write, a client's request, and at a Heartbeat, a request to seize or an Excluded it does
/// not stop at all.
pub fn settled_stops_of_each_run()
    ensures { SettledStopsOfEachRun }
{}

/// Where the stop falls in a mounting the node stops at once: that is the next line after `up`.
pub fn stops_come_in_each_run()
    ensures { StopsComeInEachRun }
{}

/// So no stop is to come at the end of a run.
pub fn no_stop_is_due()
    ensures { NoStopIsDue }
{}
