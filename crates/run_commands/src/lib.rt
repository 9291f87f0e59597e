//! What becomes of commands, in each run of the simulated world: each answer is given once, to a command that waits.
//!
//! - `carried`: what the messages of updates carry: the words of a Prepare and of a Request, and what is answered by way of the president.
//! - `taken`: what becomes of commands and of clients' requests as they come to a node.
//! - `acknowledged`: what becomes of requests at their president: each update that is proposed was asked for, and `ok` to one stands behind its
//!   acknowledgement.
//!
//! Each function here is a law. It has no body, and its contract is proved of every header, every list of lines, everything that happens and
//! all agents.
#![tactic(auto)]

ghost use Rattle.run_commands.specs.Laws.{AnswersOnceInEachRun, CommandsAreNumberedInEachRun, OwnAnswersFitInEachRun};
ghost use Rattle.run_commands.specs.carried.Laws.{RepliesOfEachRun, UpdatesOfEachRun};
ghost use Rattle.run_commands.specs.taken.Laws.{ClientsAreAnsweredInEachRun, CommandsAreTakenInEachRun};
ghost use Rattle.run_commands.specs.acknowledged.Laws.{AnsweredOfEachRun, AskedOfEachRun};

/// At each `answered` line of a node the command waits: the node asked it since it went up, and has not answered it since. `unknown` is
/// answered only where the membership in which it was asked has ended, and what a node answers by itself stands in the event of the command.
/// This holds while the schedule has fewer than 2^63 lines: the number of a command saturates at 64 bits, and each number takes a line of its own.
pub fn answers_once_in_each_run()
    ensures { AnswersOnceInEachRun }
{}

/// What a node answers by itself is what its command is to be answered, as things were when it was asked: an error in its words, or that the node
/// is no member, or that another node, the president, is to be asked, or that too many requests wait.
pub fn own_answers_fit_in_each_run()
    ensures { OwnAnswersFitInEachRun }
{}

/// A command has the number after that of the last command of its node since it went up, or a greater one where a monitor asked in between.
pub fn commands_are_numbered_in_each_run()
    ensures { CommandsAreNumberedInEachRun }
{}

/// A Prepare carries the words of its `propose` line, and a Request the canonical words of its command. A member other than the president answers
/// `ok`, or a refusal over the configuration, as an Answer of its president says that was delivered to it. This holds while the schedule has
/// fewer than 2^63 lines: the number of a command saturates at 64 bits, and each number takes a line of its own.
pub fn updates_of_each_run()
    ensures { UpdatesOfEachRun }
{}

/// What is answered `ok` was asked by a member of a membership, of which the node is a member still. The node is its president, or an Answer of that
/// president in this membership has just come to it, with this number and `ok`. This holds while the schedule has fewer than 2^63 lines.
pub fn replies_of_each_run()
    ensures { RepliesOfEachRun }
{}

/// A command that comes to a node that is up has its `asked` line first, with the next number. The node answers it by itself exactly where that is due,
/// with no other entry: where its words are no command's, where the node is no member, where it is a query and another node is president, and
/// where 64 requests wait. Where monitors' requests may wait too it may be full. Else the node takes it, and answers nothing by itself in the event; the president
/// answers a query in its event. This holds while the schedule has fewer than 2^63 lines, which number the commands.
pub fn commands_are_taken_in_each_run()
    ensures { CommandsAreTakenInEachRun }
{}

/// A client's request is skipped where its node is down, or is not the president of a membership. Else it is served, or there is no such address.
pub fn clients_are_answered_in_each_run()
    ensures { ClientsAreAnsweredInEachRun }
{}

/// Each update that is proposed has a request of its own, with its words, that has come to the president of its membership: fewer updates with
/// these words were proposed in it before than requests with these words have come. This holds while the schedule has fewer than 2^63 lines: the
/// number of a command saturates at 64 bits, and requests of one number would be taken for one.
pub fn asked_of_each_run()
    ensures { AskedOfEachRun }
{}

/// What is answered `ok` was asked by a member of a membership. If it is an update, the president of that membership has granted it: its first
/// answer to the request, a line of its own or the Answer to the member, stands behind the `ack` line of what it had in hand, with the words of the
/// request. This holds under the same premise, where each answer is given to a command that waits: so it is in each run, by a law of
/// `run_commands`.
pub fn answered_of_each_run()
    ensures { AnsweredOfEachRun }
{}
