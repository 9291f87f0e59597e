ghost use Rattle.std.specs.Prelude.{◌≡◌, ◌≤◌, ◌↔◌, length, map, None, Some, OnOk};
ghost use Rattle.std.specs.Io.{ReadsAtMost};
ghost use Rattle.std.specs.Io.KnownBytes.{Keeps, ReadConsumes};
ghost use Rattle.agents.specs.Calls.{states_of};
ghost use Rattle.agents.specs.Stock.{kept_of, name_of};
ghost use Rattle.cl_io.specs.Causes.{HasCause};
ghost use Rattle.std.specs.String.{string_bytes};
ghost use Rattle.replay.specs.declared.making.Making.{Making};
ghost use Rattle.interpreter.specs.declared.task.Task.{Task};
ghost use Rattle.replay.specs.Gens.{IsGen, making_of};
ghost use Rattle.replay.specs.Runs.{IsRun};
ghost use Rattle.replay.specs.Closings.{Closed, status_of};
ghost use Rattle.interpreter.specs.Tasks.{task_of};

use crate::closing::push_closing;
use crate::generating::generate;
use crate::making::read_making;
use crate::status::Status;
use agents::StockAgent;
use cl_io::{Failed, Sink, Source, write_all};
use interpreter::{LONGEST_PIECE, Reader, Stop, Task, read_task};
use run_outcomes::traces_of_each_run;
use std::alloc::Global;
use world::Agents;

/// Does what the words ask for: replays the schedule that the source gives and writes the trace to
/// the sink, or checks it, or makes a schedule, replays it and writes a summary of its trace. What the
/// lines that end in a piece of the input are answered is written before more is read. These agents
/// carry out the methods of resource types.
pub fn run_words<S: Source, K: Sink>(
    alloc: Global,
    words: &[String],
    source: &mut S,
    sink: &mut K,
    agents: Vec<StockAgent>,
) -> Status
    // The words are no command: nothing is read, and nothing is written.
    ensures usage { result ≡ Status.Usage ↔ ((task_of (map string_bytes words.now) ≡ None) × (making_of (map string_bytes words.now) ≡ None)) }
    ensures idle { result ≡ Status.Usage → Keeps (S.left source.old) (S.left source.new) × Keeps (K.held sink.old) (K.held sink.new) }
    ensures idle_counts { result ≡ Status.Usage → (S.faults source.new ≡ S.faults source.old) × (K.faults sink.new ≡ K.faults sink.old) }

    // They are `run` or `check`: the status and the bytes written tell the outcome of the bytes taken.
    ensures run { (task : Task) → task_of (map string_bytes words.now) ≡ Some task
        → IsRun task (states_of name_of kept_of agents.items) (S.left source.old) (S.left source.new) (K.held sink.old) (K.held sink.new)
        (S.faults source.old) (S.faults source.new) (K.faults sink.old) (K.faults sink.new) result }

    // They are `gen` and two numbers: nothing is read, and the bytes written tell the summary of what the schedule that is made writes.
    ensures made { (making : Making) → making_of (map string_bytes words.now) ≡ Some making
        → IsGen making (states_of name_of kept_of agents.items) (S.left source.old) (S.left source.new) (K.held sink.old) (K.held sink.new)
        (S.faults source.old) (S.faults source.new) (K.faults sink.old) (K.faults sink.new) result }
{
    if let Some(task) = read_task(words) {
        return run(alloc, task, source, sink, Agents::new(agents));
    }
    match read_making(words) {
        None => Status::Usage,
        Some(making) => generate(alloc, making, sink, Agents::new(agents)),
    }
}

fn run<S: Source, K: Sink>(
    alloc: Global,
    task: Task,
    source: &mut S,
    sink: &mut K,
    agents: Agents,
) -> Status
    ensures run { IsRun task agents (S.left source.old) (S.left source.new) (K.held sink.old) (K.held sink.new)
        (S.faults source.old) (S.faults source.new) (K.faults sink.old) (K.faults sink.new) result }
{
    // What is written of a cluster schedule is a trace of it.
    traces_of_each_run();
    let Ok(reader) = Reader::new(alloc, agents) else {
        return Status::NoMemory;
    };
    let mut reader = reader;
    let mut buffer = [0; LONGEST_PIECE];
    'pieces: loop {
        let size = reader.piece_size();
        let count = match read_some(source, &mut buffer, size) {
            Ok(count) => count,
            Err(_) => return Status::ReadFault,
        };
        if count == 0 {
            let stop = reader.finish(alloc, task);
            return close(alloc, task, stop, reader.lines, &mut reader.text, sink);
        }
        if let Err(stop) = reader.take_piece(alloc, task, &buffer[..count]) {
            return close(alloc, task, stop, reader.lines, &mut reader.text, sink);
        }
        match write_all(sink, reader.text.as_slice()) {
            Ok(()) => reader.text.clear(),
            Err(_) => return Status::WriteFault,
        }
    }
}

/// The next piece of the input, of so many bytes at most, comes to the front of the buffer.
#[tactic(auto, using(crate::proofs::Fronts::consumes_front, crate::proofs::Fronts::reads_front))]
fn read_some<S: Source>(source: &mut S, buffer: &mut [u8], size: usize) -> Result<usize, Failed>
    requires room { size ≤ length buffer.old }
    requires some { 1 ≤ size }
    ensures length { length buffer.new ≡ length buffer.old }
    ensures bound { ReadsAtMost result buffer.new }
    ensures bytes { ReadConsumes (S.left source.old) (S.left source.new) result buffer.new }
    ensures cause { HasCause (S.faults source.old) (S.faults source.new) result }
    ensures same { OnOk result (S.faults source.new ≡ S.faults source.old) }
{
    source.read_piece(&mut buffer[..size])
}

/// Writes the text that is left, with the closing line, where the stop has one, and tells the status.
fn close<K: Sink>(
    alloc: Global,
    task: Task,
    stop: Stop,
    lines: u64,
    text: &mut Vec<u8>,
    sink: &mut K,
) -> Status
    ensures closed { Closed task stop lines text.old.items result (K.held sink.old) (K.held sink.new) (K.faults sink.old) (K.faults sink.new) }
{
    if let Stop::NoMemory = stop {
        return Status::NoMemory;
    }
    if push_closing(alloc, task, stop, lines, text).is_err() {
        return Status::NoMemory;
    }
    match write_all(sink, text.as_slice()) {
        Ok(()) => status_of(stop),
        Err(_) => Status::WriteFault,
    }
}

/// The status of a run that stops so.
fn status_of(stop: Stop) -> Status
    ensures { result ≡ status_of stop }
{
    match stop {
        Stop::Ended => Status::Done,
        Stop::Refused(_) => Status::Refused,
        Stop::TooLarge => Status::TooLarge,
        Stop::NoMemory => Status::NoMemory,
    }
}
