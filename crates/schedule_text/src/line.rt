ghost use Rattle.std.specs.Prelude.{◌≡◌, ◌<◌, ◌^◌};
ghost use Rattle.schedule_text.specs.Lines.{so_far_after, so_far_after_event};

use crate::event::Event;
use cl_base::NodeId;
use pgr_device::PrCommand;

/// A line of a reservation schedule after its header.
#[derive(Clone, Copy)]
pub enum PrLine {
    /// An empty line, or a comment.
    Blank,
    /// The line that ends the schedule.
    End,
    /// The device loses power and comes back.
    Power,
    /// A node sends a command to the device.
    Command {
        /// The node.
        sender: NodeId,
        /// Its command.
        command: PrCommand,
    },
}

/// A line of a cluster schedule after its header.
#[derive(Drop)]
pub enum ClusterLine {
    /// An empty line, or a comment.
    Blank,
    /// The line that ends the schedule.
    End,
    /// What happens next.
    Event(Event),
}

/// A line of either kind of schedule after its header.
#[derive(Drop)]
pub enum Line {
    /// An empty line, or a comment.
    Blank,
    /// The line that ends the schedule.
    End,
    /// The device of a reservation schedule loses power and comes back.
    Power,
    /// A node sends a command to the device of a reservation schedule.
    Command {
        /// The node.
        sender: NodeId,
        /// Its command.
        command: PrCommand,
    },
    /// What happens next in a cluster schedule.
    Event(Event),
}

/// What the lines before a line have set.
#[derive(Clone, Copy)]
pub struct SoFar {
    /// The second at which the clock stands.
    pub clock: u64,
    /// How many rounds there were.
    pub rounds: u64,
}

impl SoFar {
    /// Before the first line: the clock stands at 0, and there were no rounds.
    pub fn new() -> SoFar
        ensures value { result ≡ record { clock = 0; rounds = 0 } }
    {
        SoFar {
            clock: 0,
            rounds: 0,
        }
    }

    /// What is set after this line, which was read after the lines before.
    pub fn after(self, line: &Line) -> SoFar
        requires { (so_far_after self line.now).rounds < 2 ^ 64 }
        ensures value { result ≡ so_far_after self line.now }
    {
        match line {
            Line::Event(event) => self.after_event(event),
            _ => self,
        }
    }

    /// What is set after this event, which was read after the lines before.
    pub fn after_event(self, event: &Event) -> SoFar
        requires { (so_far_after_event self event.now).rounds < 2 ^ 64 }
        ensures value { result ≡ so_far_after_event self event.now }
    {
        match event {
            Event::Clock(second) => SoFar {
                clock: *second,
                rounds: self.rounds,
            },
            Event::Rounds { count, .. } => SoFar {
                clock: self.clock,
                rounds: self.rounds + *count,
            },
            _ => self,
        }
    }
}
