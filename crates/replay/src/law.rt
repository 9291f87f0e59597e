//! What follows from the definitions that `run_words` cites. Each law is a function that does
//! nothing: its clauses are the law.
ghost use Rattle.std.specs.Prelude.{◌≡◌, ◌≤◌, ◌+◌, true, Bool, List, ℕ};
ghost use Rattle.agents.specs.Calls.{AgentState};
ghost use Rattle.pgr_device.specs.Device.{Device};
ghost use Rattle.pgr_device.specs.Runs.{run_answers};
ghost use Rattle.pgr_device.specs.declared.run.Step.{Step};
ghost use Rattle.schedule_gen.specs.Events.{events_from};
ghost use Rattle.schedule_gen.specs.Grammar.{four_nodes};
ghost use Rattle.world_model.specs.First.{first_world};
ghost use Rattle.replay.specs.declared.making.Making.{Making};
ghost use Rattle.replay.specs.Completeness.{GensAreComplete, RunsAreComplete, SchedulesEnd};
ghost use Rattle.replay.specs.Gens.{made};
ghost use Rattle.interpreter.specs.Outcomes.{Ended, outcome_of};
ghost use Rattle.replay.specs.Replays.{Completes, TellsReplay, entries, answers_among, texts_of};
ghost use Rattle.interpreter.specs.declared.task.Task.TheVariants.{Run};

/// A `run` that reads its schedule to the end writes what is answered to it. Of a reservation schedule
/// that is what the device, step by step, answers to its commands and losses of power, one line each;
/// of a cluster schedule, what the world of its header writes, event by event, whatever agents carry out
/// the methods.
pub fn completed_run_tells_its_schedule()
    ensures { (agents : List AgentState) (ended : Bool) (bytes : List ℕ) → Completes (outcome_of Run agents ended bytes).ending → TellsReplay bytes agents (outcome_of Run agents ended bytes).text }
{}

/// A schedule that is made is read to its end, and `run` writes of it what the world of its header
/// writes, event by event.
pub fn made_schedule_is_read_to_its_end()
    ensures { (m : Making) (agents : List AgentState) → m.count ≤ 90000
        → outcome_of Run agents true (made m) ≡ record { text = texts_of (first_world four_nodes 65536 agents) (events_from m.seed 5 (5 + m.count)); ending = Ended (10 + m.count) } }
{}

/// The answers among these lines are those that the device gives to the commands.
pub fn entries_have_the_answers()
    ensures { (d : Device) (steps : List Step) → answers_among (entries d steps) ≡ run_answers d steps }
{}

/// Nothing but want of memory stops a whole schedule. One that is in the grammar and within the limits
/// is read to its end; and where the source has bytes that are read to their end, and neither the source
/// nor the sink fails, `run` and `check` end with `Done`, and all of the outcome was written, or with
/// `NoMemory`. So does `gen`, where the sink does not fail.
///
/// That a sink takes something of each piece is part of it: one that takes nothing of a piece fails, and
/// counts a fault. No fault is told by a count that stays and does not stand at the end of its type,
/// where no rise could be seen.
pub fn completeness()
    ensures schedules { SchedulesEnd }
    ensures runs { RunsAreComplete }
    ensures made { GensAreComplete }
{}
