//! clreplay: replays schedules of a shared-disk failover cluster. `clreplay --help` tells the words.
#![tactic(auto)]

ghost use Rattle.std.specs.Prelude.{◌≡◌, ◌≢◌, ◌⊎◌, ◌↔◌, map, None};
ghost use Rattle.std.specs.String.{string_bytes};
ghost use Rattle.replay.specs.Gens.{making_of};
ghost use Rattle.interpreter.specs.Tasks.{task_of};
ghost use Rattle.replay.specs.Statuses.{code_of};
ghost use Rattle.clreplay.specs.Exits.{IsExit, IsGenExit};

mod help;

use agents::{EveryThird, Obedient, StockAgent};
use cl_base::Name;
use cl_io::{StdinSource, StdoutSink};
use help::{Answer, early_answer};
use interpreter::read_task;
use replay::{Status, read_making, run_words};
use std::alloc::Global;
use std::io::ErrorKind;
use std::process::ExitCode;
use std::{env, io};

#[cfg(test)]
mod tests;

fn main(rt: HostRuntime) -> ExitCode {
    let code = match words(&rt) {
        Ok(words) => answer(&rt, &words),
        Err(status) => status.code(),
    };
    ExitCode::from(code)
}

/// The words of the command line, without the program's name, or how the program ends without them.
fn words(rt: &HostRuntime) -> Result<Vec<String>, Status> {
    let given = match env::args(rt) {
        Ok(given) => given,
        Err(error) => return Err(unread(error.kind())),
    };
    let mut words: Vec<String> = Vec::new(rt.alloc());
    for word in given.skip(1) {
        if words.push(word).is_err() {
            return Err(Status::NoMemory);
        }
    }
    Ok(words)
}

/// How the program ends where its words cannot be read: where it is not memory that is wanting, one
/// of them is not UTF-8, and so no command.
fn unread(kind: ErrorKind) -> Status
    ensures memory { kind ≡ ErrorKind.OutOfMemory → result ≡ Status.NoMemory }
    ensures text { kind ≢ ErrorKind.OutOfMemory → result ≡ Status.Usage }
{
    match kind {
        ErrorKind::OutOfMemory => Status::NoMemory,
        _ => Status::Usage,
    }
}

/// Does what the words ask for, and tells the exit code.
fn answer(rt: &HostRuntime, words: &[String]) -> u8 {
    match early_answer(words) {
        Some(Answer::Help) => show(rt, help::HELP),
        Some(Answer::Version) => show(rt, help::VERSION),
        None => run(rt, words),
    }
}

/// Writes the text as a line, and tells the exit code.
fn show(rt: &HostRuntime, text: &str) -> u8
    ensures code { (result ≡ code_of Status.Done) ⊎ (result ≡ code_of Status.WriteFault) }
{
    match println!(rt; "{}", text) {
        Ok(()) => Status::Done.code(),
        Err(_) => Status::WriteFault.code(),
    }
}

/// Runs the words over standard input and output, and tells the exit code.
fn run(rt: &HostRuntime, words: &[String]) -> u8
    ensures usage { result ≡ code_of Status.Usage ↔ ((task_of (map string_bytes words.now) ≡ None) × (making_of (map string_bytes words.now) ≡ None)) }
    ensures code { IsExit result }
    ensures made { making_of (map string_bytes words.now) ≢ None → IsGenExit result }
{
    if read_task(words).is_none() && read_making(words).is_none() {
        return Status::Usage.code();
    }
    let Some(agents) = stock_agents(rt.alloc()) else {
        return Status::NoMemory.code();
    };
    let mut source = StdinSource::new(rt.reader());
    let mut sink = StdoutSink::new(io::writer(rt));
    run_words(rt.alloc(), words, &mut source, &mut sink, agents).code()
}

/// The agents that types of resources may name: `obedient` and `thirds`.
fn stock_agents(alloc: Global) -> Option<Vec<StockAgent>> {
    let obedient = Name::new(b"obedient".as_slice()).ok()?;
    let thirds = Name::new(b"thirds".as_slice()).ok()?;
    let mut agents = Vec::new(alloc);
    agents
        .push(StockAgent::Obedient(Obedient::new(obedient)))
        .ok()?;
    agents
        .push(StockAgent::EveryThird(EveryThird::new(thirds)))
        .ok()?;
    Some(agents)
}
