ghost use Rattle.std.specs.Prelude.{◌≡◌, ◌≢◌, ◌<◌, ◌≤◌, ◌+◌, ◌++◌, [], length, take, slice_index, All, OnOk, IfOk, MatchOption, true};
ghost use Rattle.std.specs.String.{string_bytes};
ghost use Rattle.schedule_text.specs.declared.header.HeaderState.TheVariants.{Opening};
ghost use Rattle.interpreter.specs.declared.session.State.TheVariants.{Heading};
ghost use Rattle.interpreter.specs.Outcomes.{at_end};
ghost use Rattle.interpreter.specs.Readers.{IsReader, TakesLine, TakesBytes, TakesLast, Stops, EndsWith, with_more, room};

use crate::session::{Body, State, answer, enter, take, take_agents};
use crate::stop::Stop;
use crate::task::Task;
use memchr::memchr;
use schedule_text::HeaderReader;
use std::alloc::{AllocError, Global};
use world::Agents;

/// The most bytes of a line.
pub const LONGEST_LINE: usize = 4096;

/// The most lines of a schedule.
pub const MOST_LINES: u64 = 200_000;

/// The most bytes of a piece of the input.
pub const LONGEST_PIECE: usize = 16_384;

/// Room for what the lines of a piece of the input are answered, mostly.
const TEXT: usize = 65_536;

/// Room for the words of an answer, mostly.
const WORDS: usize = 512;

/// How far the input was read.
pub struct Reader {
    /// What the lines before led to.
    pub state: State,
    /// How many lines were read, with the one at which reading stopped.
    pub lines: u64,
    /// The beginning of the next line, as far as it was read.
    pub held: Vec<u8>,
    /// What the lines are answered, as far as it was not written yet.
    pub text: Vec<u8>,
    /// Room for the words of one answer.
    pub words: String,
}

impl Drop for Reader {
    fn drop(self) {
        let Reader {
            state: _,
            lines: _,
            held: _,
            text: _,
            words: _,
        } = self;
    }
}

impl Reader {
    /// Before the first byte, with memory for a line and for the answers of many.
    pub fn new(alloc: Global, agents: Agents) -> Result<Reader, AllocError>
        ensures state { IfOk result (λ r. r.state ≡ Heading Opening agents) }
        ensures lines { IfOk result (λ r. r.lines ≡ 0) }
        ensures held { IfOk result (λ r. r.held.items ≡ []) }
        ensures text { IfOk result (λ r. r.text.items ≡ []) }
    {
        Ok(Reader {
            state: State::Heading {
                reader: HeaderReader::new(),
                agents,
            },
            lines: 0,
            held: Vec::with_capacity(alloc, LONGEST_LINE)?,
            text: Vec::with_capacity(alloc, TEXT)?,
            words: String::with_capacity(alloc, WORDS)?,
        })
    }

    /// How many bytes the next piece is to have at most. A line of a cluster schedule may write much, and
    /// what the lines of a piece write is kept until all are answered; the piece in which a header ends
    /// has such lines, too.
    pub fn piece_size(&self) -> usize
        ensures some { 1 ≤ result }
        ensures most { result ≤ 16384 }
    {
        match &self.state {
            State::Heading { .. } | State::Reading(Body::Clustering { .. }) => 32,
            _ => LONGEST_PIECE,
        }
    }

    /// Takes the next piece of the input: answers each line that ends in it, and keeps the
    /// beginning of the next.
    pub fn take_piece(&mut self, alloc: Global, task: Task, piece: &[u8]) -> Result<(), Stop>
        requires { IsReader self.old }
        ensures taken { TakesBytes task self.old piece.now result self.new }
        ensures whole { OnOk result (IsReader self.new) }
        ensures room { OnOk result (room self.new + length piece.now ≤ room self.old) }
    {
        let mut at = 0;
        while let Some(length) = line_length(&piece[at..]) {
            match self.take_line(alloc, task, &piece[at..at + length]) {
                Ok(()) => at += length + 1,
                Err(stop) => return Err(stop),
            }
        }
        self.hold(&piece[at..])
    }

    /// Takes the rest of a line, without its newline, and answers the line.
    pub fn take_line(&mut self, alloc: Global, task: Task, rest: &[u8]) -> Result<(), Stop>
        requires { IsReader self.old }
        ensures taken { TakesLine task self.old (self.old.held.items ++ rest.now) result self.new }
        ensures whole { OnOk result (IsReader self.new) }
        ensures room { OnOk result (room self.new + length rest.now + 1 ≤ room self.old) }
    {
        self.lines += 1;
        if self.lines > MOST_LINES || rest.len() > LONGEST_LINE - self.held.len() {
            return Err(Stop::TooLarge);
        }
        if self.held.is_empty() {
            return answer(
                alloc,
                task,
                &mut self.state,
                rest,
                &mut self.text,
                &mut self.words,
            );
        }
        self.held.extend_from_slice(rest)?;
        answer(
            alloc,
            task,
            &mut self.state,
            &self.held,
            &mut self.text,
            &mut self.words,
        )?;
        self.held.clear();
        Ok(())
    }

    /// Takes the end of the input: answers the last line, where no newline ended it.
    pub fn finish(&mut self, alloc: Global, task: Task) -> Stop
        requires { IsReader self.old }
        ensures { Stops result (with_more task true self.old []) self.new.lines self.new.text.items }
    {
        if let Err(stop) = self.last_line(alloc, task) {
            return stop;
        }
        match end(alloc, task, &mut self.state) {
            Ok(()) => Stop::Ended,
            Err(stop) => {
                self.lines += 1;
                stop
            }
        }
    }

    /// Answers the last line, where no newline ended it.
    fn last_line(&mut self, alloc: Global, task: Task) -> Result<(), Stop>
        requires { IsReader self.old }
        ensures { TakesLast task self.old result self.new }
    {
        if self.held.is_empty() {
            return Ok(());
        }
        self.take_line(alloc, task, &[])
    }

    /// Keeps the beginning of a line, as far as it was read.
    fn hold(&mut self, beginning: &[u8]) -> Result<(), Stop>
        requires reader { IsReader self.old }
        requires plain { All (λ b. b ≢ 10) beginning.now }
        ensures taken { (task : Task) → TakesBytes task self.old beginning.now result self.new }
        ensures whole { OnOk result (IsReader self.new) }
        ensures room { OnOk result (room self.new + length beginning.now ≤ room self.old) }
    {
        if beginning.is_empty() {
            return Ok(());
        }
        if self.lines >= MOST_LINES || beginning.len() > LONGEST_LINE - self.held.len() {
            self.lines += 1;
            return Err(Stop::TooLarge);
        }
        self.held.extend_from_slice(beginning)?;
        Ok(())
    }
}

/// What the end of the input comes to: a whole header that the task can go on from was read, or why not.
fn end(alloc: Global, task: Task, state: &mut State) -> Result<(), Stop>
    ensures { EndsWith result (at_end task state.old) }
{
    match state {
        State::Reading(_) => Ok(()),
        State::Heading { reader, agents } => {
            enter(alloc, task, take(reader), take_agents(alloc, agents))?;
            Ok(())
        }
    }
}

/// How many bytes stand before the first newline, if there is one.
fn line_length(bytes: &[u8]) -> Option<usize>
    ensures { MatchOption result (All (λ b. b ≢ 10) bytes.now) (λ n. (n < length bytes.now) × All (λ b. b ≢ 10) (take n bytes.now) × (slice_index bytes.now n ≡ 10)) }
{
    memchr(b'\n', bytes)
}
