//! Each line of a schedule has its entries in each run of the simulated world, and is skipped exactly where that is due.
//!
//! - `rounds`: the parts of rounds come in their order, and none is left out.
//! - `few`: how many commands a node does one after another.
//! - `writes`: what a write of a node that is up comes to.
//!
//! Each function here is a law. It has no body, and its contract is proved of every header, every list of lines, everything that happens and
//! all agents.
#![tactic(auto)]

ghost use Rattle.run_lines.specs.Laws.{LinesOfEachRun};
ghost use Rattle.run_lines.specs.rounds.Laws.{NoneLeftByQueues, PartsAreRounds, PartsByQueues, PartsOfEachRun};
ghost use Rattle.run_lines.specs.few.Laws.{FewCommandsInEachRun, RowsOfEachRun};
ghost use Rattle.run_lines.specs.writes.Laws.{WritesOfEachRun};

/// Each line, and each part of a round, has the entries that `history` says, or is skipped for the cause that is due. Nothing is said of a copy
/// where no packet number is left, of a write of a member, of a command at a device where the node is up, and of a client's request to the node
/// that coordinates the membership of which it is a member.
pub fn lines_of_each_run()
    ensures { LinesOfEachRun }
{}

/// Each part of a round is the one that is due, a line comes only outside of rounds, and `rounds done` where no part is left. Whether a node has a
/// command to do is shown by the part that comes. Of the lines it is supposed that each asks for one round at least, as the grammar has it.
pub fn parts_of_each_run()
    ensures { PartsOfEachRun }
{}

/// Where the lines tell of each node that is up, and whose queue is not open, whether it has a command due, rounds are as `history` has them.
pub fn parts_by_queues()
    ensures { PartsByQueues }
{}

/// There, at the end of a run of whole lines, no round is left open.
pub fn none_left_by_queues()
    ensures { NoneLeftByQueues }
{}

/// Over `history`'s own way to tell which nodes have work the order of parts is its law of rounds.
pub fn parts_are_rounds()
    ensures { PartsAreRounds }
{}

/// One after another no node does more than 2,226 commands at devices: it seizes each of 16 devices once at most, by some 130 commands, and joins each once
/// at most. Of the header it is supposed that it has no more devices, and a cluster below 2^32.
pub fn rows_of_each_run()
    ensures { RowsOfEachRun }
{}

/// So in one round none does as many as the world lets it do at most, which are 4,096.
pub fn few_commands_in_each_run()
    ensures { FewCommandsInEachRun }
{}

/// Each write to a device, of a node that is up, has the entries that `history` says: the refusal that is due, or the device's command with its answer
/// and what that comes to. Of the header it is supposed that it has at most 16 devices, no server among them, and a cluster below 2^32; of the device
/// that it is numbered from 1 on, as the schedule's grammar has it.
pub fn writes_of_each_run()
    ensures { WritesOfEachRun }
{}
