ghost use Rattle.std.specs.Prelude.{◌≡◌, ◌≤◌, ℕ, List, ◌++◌, ◌∷◌, [], Option, IfOk, OnOk};
ghost use Rattle.std.specs.String.{string_bytes};
ghost use Rattle.interpreter.specs.declared.task.Task.TheVariants.{Run};
ghost use Rattle.replay.specs.Gens.{IsGen, counted, counts_made, summary};
ghost use Rattle.interpreter.specs.Outcomes.{Outcome};
ghost use Rattle.interpreter.specs.Readers.{IsReader, Stops, TakesBytes};
ghost use Rattle.replay.specs.Tallies.{IsTally, counts_from};

use crate::counts::{Counts, Tally};
use crate::making::Making;
use crate::status::Status;
use cl_io::{Sink, write_all};
use interpreter::{Reader, Stop, Task};
use run_outcomes::traces_of_each_run;
use schedule_gen::Gen;
use std::alloc::{AllocError, Global};
use world::Agents;

/// How many lines open a schedule that is made.
const OPENING: u64 = 10;

/// Makes the schedule and replays it, and writes the summary of its trace.
pub fn generate<K: Sink>(alloc: Global, making: Making, sink: &mut K, agents: Agents) -> Status
    requires few { making.count ≤ 90000 }
    ensures made { (left : Option (List ℕ)) (reads : ℕ) → IsGen making agents left left (K.held sink.old) (K.held sink.new) reads reads (K.faults sink.old) (K.faults sink.new) result }
{
    // What is written of a cluster schedule is a trace of it.
    traces_of_each_run();
    let Ok(counts) = replay_made(alloc, making, agents) else {
        return Status::NoMemory;
    };
    let Ok(text) = summary(alloc, OPENING + making.count, counts) else {
        return Status::NoMemory;
    };
    match write_all(sink, text.as_bytes()) {
        Ok(()) => Status::Done,
        Err(_) => Status::WriteFault,
    }
}

/// Replays the schedule, line by line as it is made, and counts the lines of its trace.
fn replay_made(alloc: Global, making: Making, agents: Agents) -> Result<Counts, AllocError>
    ensures { IfOk result (λ counts. counts ≡ counts_made making agents) }
{
    let mut made = Gen::new(making.seed, making.count);
    let mut reader = Reader::new(alloc, agents)?;
    let mut tally = Tally::new(alloc);
    while let Some(line) = made.next_line(alloc)? {
        if let Err(stop) = take_made(alloc, &mut reader, line) {
            return count_rest(stop, tally, reader.text.as_slice());
        }
        tally.take(reader.text.as_slice())?;
        reader.text.clear();
    }
    let stop = reader.finish(alloc, Task::Run);
    count_rest(stop, tally, reader.text.as_slice())
}

/// Replays a line that was made.
fn take_made(alloc: Global, reader: &mut Reader, line: Vec<u8>) -> Result<(), Stop>
    requires whole { IsReader reader.old }
    ensures taken { TakesBytes Run reader.old (line.items ++ 10 ∷ []) result reader.new }
    ensures whole { OnOk result (IsReader reader.new) }
{
    let mut line = line;
    line.push(b'\n')?;
    reader.take_piece(alloc, Task::Run, line.as_slice())
}

/// The counts of the whole trace, whose replay stops so; this text of it was not counted yet.
fn count_rest(stop: Stop, tally: Tally, text: &[u8]) -> Result<Counts, AllocError>
    requires whole { IsTally tally }
    ensures { IfOk result (λ counts. (o : Outcome) (lines : ℕ) → Stops stop o lines text.now → counts ≡ counts_from tally o.text) }
{
    if let Stop::NoMemory = stop {
        return Err(AllocError);
    }
    let mut tally = tally;
    tally.take(text)?;
    Ok(tally.finish())
}

fn summary(alloc: Global, lines: u64, counts: Counts) -> Result<String, AllocError>
    ensures { IfOk result (λ text. string_bytes text ≡ summary lines counts) }
{
    let mut text = String::new(alloc);
    push_count(&mut text, "lines", lines)?;
    push_count(&mut text, "starts", counts.starts)?;
    push_count(&mut text, "acks", counts.acks)?;
    push_count(&mut text, "accepted", counts.accepted)?;
    push_count(&mut text, "refused", counts.refused)?;
    push_count(&mut text, "calls", counts.calls)?;
    Ok(text)
}

fn push_count(text: &mut String, word: &str, count: u64) -> Result<(), AllocError>
    ensures { OnOk result (string_bytes text.new ≡ string_bytes text.old ++ counted word.now count) }
{
    writeln!(text, "{word} {count}")?;
    Ok(())
}
