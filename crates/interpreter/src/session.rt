ghost use Rattle.std.specs.Prelude.{◌≡◌, List, ℕ, IfOk};
ghost use Rattle.std.specs.String.{string_bytes};
ghost use Rattle.schedule_text.specs.Allowed.{IsAllowedEvent, IsHeader};
ghost use Rattle.schedule_text.specs.Headers.{head_of, header_step};
ghost use Rattle.schedule_text.specs.Lines.{pr_line_of, cluster_line_of, so_far_after_event};
ghost use Rattle.interpreter.specs.declared.session.Body.TheVariants.{CheckingPr, CheckingCluster, Replaying, Clustering};
ghost use Rattle.interpreter.specs.declared.session.State.TheVariants.{Reading};
ghost use Rattle.interpreter.specs.Sessions.{Answers, Enters, first_so_far, step, body_step, body_of, checked_pr, checked_cluster, clustered, event_done, replayed};
ghost use Rattle.world_model.specs.First.{first_world};

use crate::stop::Stop;
use crate::task::Task;
use cl_base::Header;
use pgr_device::Pgr;
use schedule_text::{
    ClusterLine, Event, Head, HeaderReader, PrLine, ReadError, SoFar, read_cluster_line,
    read_pr_line,
};
use status_report::{print_powered, print_reply};
use std::alloc::{AllocError, Global};
use std::mem;
use world::{Agents, World};

/// How far a schedule was read.
#[derive(Drop)]
pub enum State {
    /// The header is being read.
    Heading {
        /// What was read of it.
        reader: HeaderReader,
        /// Who will carry out the methods of resource types.
        agents: Agents,
    },
    /// The header was read.
    Reading(Body),
}

/// What is done with the lines after the header, and what they have led to.
#[derive(Drop)]
pub enum Body {
    /// Those of a reservation schedule are read alone.
    CheckingPr,
    /// Those of a cluster schedule are read alone.
    CheckingCluster {
        /// The header.
        header: Header,
        /// What the lines have set.
        so_far: SoFar,
    },
    /// Those of a reservation schedule are replayed; this is the device.
    Replaying(Pgr),
    /// Those of a cluster schedule are replayed.
    Clustering {
        /// The header.
        header: Header,
        /// What the lines have set.
        so_far: SoFar,
        /// The cluster.
        world: World,
    },
}

/// Answers a line, without its newline, and appends what is written of it to the text.
pub fn answer(
    alloc: Global,
    task: Task,
    state: &mut State,
    line: &[u8],
    text: &mut Vec<u8>,
    words: &mut String,
) -> Result<(), Stop>
    ensures { Answers result (step task state.old line.now) state.new text.old.items text.new.items }
{
    // The state of a header is large: the many short lines of a reservation schedule do not pay for room for it.
    if let State::Reading(Body::Replaying(device)) = state {
        return replay(device, line, text, words);
    }
    answer_in_any(alloc, task, state, line, text, words)
}

/// The same, in any state.
#[inline(never)]
fn answer_in_any(
    alloc: Global,
    task: Task,
    state: &mut State,
    line: &[u8],
    text: &mut Vec<u8>,
    words: &mut String,
) -> Result<(), Stop>
    ensures { Answers result (step task state.old line.now) state.new text.old.items text.new.items }
{
    match state {
        State::Heading { reader, agents } => {
            if reader.take(alloc, line)? {
                return Ok(());
            }
            let mut body = enter(alloc, task, take(reader), take_agents(alloc, agents))?;
            body.answer(alloc, line, text, words)?;
            *state = State::Reading(body);
            Ok(())
        }
        State::Reading(body) => body.answer(alloc, line, text, words),
    }
}

/// The reader of the header, in whose place a new one comes.
pub fn take(reader: &mut HeaderReader) -> HeaderReader
    ensures value { result ≡ reader.old }
{
    mem::replace(reader, HeaderReader::new())
}

/// The agents, in whose place none are left.
pub fn take_agents(alloc: Global, agents: &mut Agents) -> Agents
    ensures value { result ≡ agents.old }
{
    mem::replace(agents, Agents::new(Vec::new(alloc)))
}

/// What is done with the lines after this header, which ends here.
pub fn enter(alloc: Global, task: Task, reader: HeaderReader, agents: Agents) -> Result<Body, Stop>
    ensures { Enters result (body_of task agents (head_of reader)) }
{
    match (task, reader.finish()?) {
        (Task::Run, Head::Pr(senders)) => Ok(Body::Replaying(Pgr::new(senders))),
        (Task::Run, Head::Cluster(header)) => Ok(enter_cluster(alloc, header, agents)?),
        (Task::Check, Head::Pr(_)) => Ok(Body::CheckingPr),
        (Task::Check, Head::Cluster(header)) => Ok(Body::CheckingCluster {
            header,
            so_far: SoFar::new(),
        }),
    }
}

/// The lines of a cluster schedule are replayed from the world of its header.
fn enter_cluster(alloc: Global, header: Header, agents: Agents) -> Result<Body, AllocError>
    requires header { IsHeader header }
    ensures { IfOk result (λ body. body ≡ Clustering header first_so_far (first_world header 65536 agents)) }
{
    let world = World::new(alloc, &header, agents)?;
    Ok(Body::Clustering {
        header,
        so_far: SoFar::new(),
        world,
    })
}

impl Body {
    /// Answers a line after the header.
    fn answer(
        &mut self,
        alloc: Global,
        line: &[u8],
        text: &mut Vec<u8>,
        words: &mut String,
    ) -> Result<(), Stop>
        ensures { Answers result (body_step self.old line.now) (Reading self.new) text.old.items text.new.items }
    {
        match self {
            Body::CheckingPr => check_pr(line),
            Body::CheckingCluster { header, so_far } => check_cluster(alloc, header, so_far, line),
            Body::Replaying(device) => replay(device, line, text, words),
            Body::Clustering {
                header,
                so_far,
                world,
            } => replay_cluster(alloc, header, so_far, world, line, text),
        }
    }
}

/// Reads a line of a reservation schedule.
fn check_pr(line: &[u8]) -> Result<(), Stop>
    ensures { (text : List ℕ) → Answers result (checked_pr (pr_line_of line.now)) (Reading CheckingPr) text text }
{
    match read_pr_line(line)? {
        PrLine::End => Err(Stop::Ended),
        PrLine::Blank | PrLine::Power | PrLine::Command { .. } => Ok(()),
    }
}

/// Reads a line of a cluster schedule.
#[inline(never)]
fn check_cluster(
    alloc: Global,
    header: &Header,
    so_far: &mut SoFar,
    line: &[u8],
) -> Result<(), Stop>
    ensures { (text : List ℕ) → Answers result (checked_cluster header.now so_far.old (cluster_line_of header.now so_far.old line.now))
        (Reading (CheckingCluster header.now so_far.new)) text text }
{
    match read_cluster_line(alloc, header, *so_far, line)? {
        ClusterLine::End => Err(Stop::Ended),
        ClusterLine::Blank => Ok(()),
        ClusterLine::Event(event) => {
            *so_far = moved_on(header, *so_far, &event);
            Ok(())
        }
    }
}

/// What is set after an event of the schedule.
fn moved_on(header: &Header, so_far: SoFar, event: &Event) -> SoFar
    requires { IsAllowedEvent header.now so_far event.now }
    ensures { result ≡ so_far_after_event so_far event.now }
{
    so_far.after_event(event)
}

/// Reads a line of a reservation schedule, and replays it. It takes memory only where the text has no
/// room for the answer.
fn replay(device: &mut Pgr, line: &[u8], text: &mut Vec<u8>, words: &mut String) -> Result<(), Stop>
    ensures { Answers result (replayed device.old (pr_line_of line.now)) (Reading (Replaying device.new)) text.old.items text.new.items }
{
    match read_pr_line(line)? {
        PrLine::End => Err(Stop::Ended),
        PrLine::Blank => Ok(()),
        PrLine::Power => {
            device.power_loss();
            print_powered(text)?;
            Ok(())
        }
        PrLine::Command { sender, command } => {
            let reply = device.reply(sender, command);
            print_reply(text, words, device, reply)?;
            Ok(())
        }
    }
}

/// Reads a line of a cluster schedule, and replays it.
#[inline(never)]
fn replay_cluster(
    alloc: Global,
    header: &Header,
    so_far: &mut SoFar,
    world: &mut World,
    line: &[u8],
    text: &mut Vec<u8>,
) -> Result<(), Stop>
    ensures { Answers result (clustered header.now so_far.old world.old line.now) (Reading (Clustering header.now so_far.new world.new)) text.old.items text.new.items }
{
    match read_cluster_line(alloc, header, *so_far, line) {
        Ok(ClusterLine::End) => Err(Stop::Ended),
        Ok(ClusterLine::Blank) => Ok(()),
        Ok(ClusterLine::Event(event)) => {
            replay_event(alloc, header, so_far, world, &event, text)
        }
        Err(ReadError::NoMemory) => Err(Stop::NoMemory),
        Err(ReadError::Refused(kind)) => Err(Stop::Refused(kind)),
    }
}

fn replay_event(
    alloc: Global,
    header: &Header,
    so_far: &mut SoFar,
    world: &mut World,
    event: &Event,
    text: &mut Vec<u8>,
) -> Result<(), Stop>
    requires allowed { IsAllowedEvent header.now so_far.old event.now }
    ensures { Answers result (event_done header.now so_far.old world.old event.now) (Reading (Clustering header.now so_far.new world.new)) text.old.items text.new.items }
{
    *so_far = moved_on(header, *so_far, event);
    // Many rounds write much: it is not copied, where nothing stands before it.
    if text.is_empty() {
        world.step(alloc, event, text)?;
        return Ok(());
    }
    let mut entries = Vec::new(alloc);
    world.step(alloc, event, &mut entries)?;
    text.extend_from_slice(&entries)?;
    Ok(())
}
