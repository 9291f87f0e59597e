//! What follows for every list of calls since the tasks were last cleared. Each law is a function
//! that does nothing: its clauses are the law.
ghost use Rattle.device_queue.specs.Laws.{EndedHasNoJoin, EndedHasNoTask, KeptJoinsStay, KeptResultsStay, NoneRegistersLater, OneJoining, OneSeizing, PlainRegistersAtFirst, QueueHasCommand, RequestsGetIt, TaskHasCommand};

/// Of each device at most one seizing is begun, and at most one joining.
pub fn one_seizing_and_one_joining()
    ensures seizing { OneSeizing }
    ensures joining { OneJoining }
{}

/// Once the result of a seizing or a joining is kept, it is always kept, and every request to seize
/// the device gets that of its seizing.
pub fn kept_results_stay()
    ensures seizing { KeptResultsStay }
    ensures joining { KeptJoinsStay }
    ensures requests { RequestsGetIt }
{}

/// A device whose joining has ended has no joining in the queue, and no task at all unless it was
/// asked to be seized after it was asked to be joined. Here tasks are handed in as they begin.
pub fn joined_has_no_task()
    ensures joining { EndedHasNoJoin }
    ensures task { EndedHasNoTask }
{}

/// A task has a command due exactly until it is over, and a command is due exactly where a task is
/// queued.
pub fn each_task_has_a_command()
    ensures task { TaskHasCommand }
    ensures queue { QueueHasCommand }
{}

/// The command at which a seizing begins plainly is the first of a plain seizing, and no other.
pub fn plain_seizings_register_first()
    ensures first { PlainRegistersAtFirst }
    ensures later { NoneRegistersLater }
{}
