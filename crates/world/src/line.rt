// A line of the schedule.
ghost use Rattle.std.specs.Prelude.{◌≡◌, ◌≤◌, ◌++◌, OnOk};
ghost use Rattle.status_report.specs.declared.entry.Entry.TheVariants as trace;
ghost use Rattle.status_report.specs.Lines.{printed};
ghost use Rattle.node_model.specs.declared.input.Input.TheVariants.{Commanded};
ghost use Rattle.node_model.specs.Inputs.{IsAnswered};
ghost use Rattle.world_model.specs.Devices.{on_disk};
ghost use Rattle.world_model.specs.Lines.{IsPlayable, booting, giving_up, left_by, line_on, monitors, on_packets, probing, with_stop};
ghost use Rattle.world_model.specs.Worlds.{node_at, play};

use crate::packets::skip;
use crate::telling::tell;
use crate::world::World;
use cl_base::{Bytes, Name, NodeId};
use local_disk::Choice;
use node::Input;
use node_model::Node;
use schedule_text::{Event, StopChoice};
use status_report::{Entry, ScheduleEntry, SkipCause};
use std::alloc::{AllocError, Global};
use world_model::Scripted;

impl World {
    /// What the line comes to: its entries are written, in order.
    pub fn step(
        &mut self,
        alloc: Global,
        event: &Event,
        out: &mut Vec<u8>,
    ) -> Result<(), AllocError>
        requires playable { IsPlayable event.now }
        ensures line { OnOk result (play self.new out.new.items ≡ line_on event.now (play self.old out.old.items)) }
    {
        match event {
            Event::Boot(n) => self.boot(alloc, *n, out),
            Event::Crash(n) => self.give_up(alloc, *n, &Input::Crash, out),
            Event::CrashAt {
                node,
                calls,
                choice,
            } => {
                self.arm_stop(*node, *calls, left_by(*choice));
                note(alloc, out, ScheduleEntry::Armed)
            }
            Event::Tick(n) => self.give_up(alloc, *n, &Input::Tick, out),
            Event::Disk(n) => self.disk(alloc, *n, out),
            Event::Fault { node, device, done } => {
                self.arm(*node, *device, *done);
                note(alloc, out, ScheduleEntry::Armed)
            }
            Event::Write {
                node,
                device,
                value,
            } => self.write(alloc, *node, *device, *value, out),
            Event::Command { node, words } => self.command_at(alloc, *node, words, out),
            Event::Outcome {
                node,
                resource,
                method,
                outcome,
            } => {
                self.script.push(Scripted {
                    node: *node,
                    resource: *resource,
                    method: *method,
                    outcome: *outcome,
                })?;
                note(alloc, out, ScheduleEntry::Queued)
            }
            Event::Probe {
                node,
                resource,
                good,
            } => self.probe(alloc, *node, resource, *good, out),
            Event::Client {
                node,
                address,
                client,
                port,
            } => self.ask(alloc, *node, address, *client, *port, out),
            Event::Clock(second) => {
                self.clock = *second;
                note(alloc, out, ScheduleEntry::Clock(*second))
            }
            Event::Rounds { count, nodes } => {
                self.rounds(alloc, *count, *nodes, out)?;
                note(alloc, out, ScheduleEntry::RoundsDone)
            }
            _ => self.move_packet(alloc, event, out),
        }
    }

    /// An administrator gives the node a command.
    fn command_at(
        &mut self,
        alloc: Global,
        n: NodeId,
        words: &Bytes,
        out: &mut Vec<u8>,
    ) -> Result<(), AllocError>
        ensures { OnOk result (play self.new out.new.items ≡ giving_up n (Commanded words.now) (play self.old out.old.items)) }
    {
        let words = Bytes::new(words.items().to_vec(alloc)?);
        self.give_up(alloc, n, &Input::Commanded(words), out)
    }

    /// The monitor of the resource at the node reports, where it has one.
    fn probe(
        &mut self,
        alloc: Global,
        n: NodeId,
        resource: &Name,
        good: bool,
        out: &mut Vec<u8>,
    ) -> Result<(), AllocError>
        ensures { OnOk result (play self.new out.new.items ≡ probing n resource.now good (play self.old out.old.items)) }
    {
        if !self.is_up(n) {
            return skip(alloc, out, SkipCause::Down);
        }
        if !self.monitors(n, resource) {
            return skip(alloc, out, SkipCause::NoMonitor);
        }
        let input = Input::Reported {
            resource: *resource,
            good,
        };
        self.give(alloc, n, &input, out)
    }

    /// Whether the resource has a monitor at the node.
    fn monitors(&self, n: NodeId, resource: &Name) -> bool
        ensures value { result ≡ monitors resource.now (node_at self.now n) }
    {
        match self.nodes.get(n.number() as usize - 1) {
            Some(Node::Up(up)) => up.worker.monitors(resource),
            Some(Node::Down) | None => false,
        }
    }

    /// What the line comes to, where it moves a packet.
    fn move_packet(
        &mut self,
        alloc: Global,
        event: &Event,
        out: &mut Vec<u8>,
    ) -> Result<(), AllocError>
        ensures { OnOk result (play self.new out.new.items ≡ on_packets event.now (play self.old out.old.items)) }
    {
        match event {
            Event::Deliver(number) => self.deliver(alloc, *number, out),
            Event::Lose(number) => self.lose(alloc, *number, out),
            Event::Repeat(number) => self.repeat(alloc, *number, out),
            Event::Next { from, to } => match self.links.oldest(*from, *to) {
                Some(number) => self.deliver(alloc, number, out),
                None => skip(alloc, out, SkipCause::NoPacket),
            },
            Event::Drop { from, to } => match self.links.oldest(*from, *to) {
                Some(number) => self.lose(alloc, number, out),
                None => skip(alloc, out, SkipCause::NoPacket),
            },
            Event::Again { from, to } => match self.links.oldest(*from, *to) {
                Some(number) => self.repeat(alloc, number, out),
                None => skip(alloc, out, SkipCause::NoPacket),
            },
            _ => Ok(()),
        }
    }

    /// A later call of the node's local disk will stop it.
    fn arm_stop(&mut self, n: NodeId, calls: u64, choice: Choice)
        requires some { 1 ≤ calls }
        ensures after { self.new ≡ with_stop self.old n calls choice }
    {
        let place = n.number() as usize - 1;
        if place < self.disks.len() {
            self.disks[place].stop_after(calls, choice);
        }
    }

    fn boot(&mut self, alloc: Global, n: NodeId, out: &mut Vec<u8>) -> Result<(), AllocError>
        ensures { OnOk result (play self.new out.new.items ≡ booting n (play self.old out.old.items)) }
    {
        if self.is_up(n) {
            return skip(alloc, out, SkipCause::Up);
        }
        self.give(alloc, n, &Input::Boot, out)
    }

    /// This happens to the node, if it is up.
    fn give_up(
        &mut self,
        alloc: Global,
        n: NodeId,
        input: &Input,
        out: &mut Vec<u8>,
    ) -> Result<(), AllocError>
        requires answer { IsAnswered input.now }
        ensures { OnOk result (play self.new out.new.items ≡ giving_up n input.now (play self.old out.old.items)) }
    {
        if !self.is_up(n) {
            return skip(alloc, out, SkipCause::Down);
        }
        self.give(alloc, n, input, out)
    }

    /// The node does its next queued command.
    fn disk(&mut self, alloc: Global, n: NodeId, out: &mut Vec<u8>) -> Result<(), AllocError>
        ensures { OnOk result (play self.new out.new.items ≡ on_disk n (play self.old out.old.items)) }
    {
        if !self.is_up(n) {
            return skip(alloc, out, SkipCause::Down);
        }
        if self.due(n).is_none() {
            return skip(alloc, out, SkipCause::NoWork);
        }
        self.do_command(alloc, n, out)
    }
}

fn note(alloc: Global, out: &mut Vec<u8>, entry: ScheduleEntry) -> Result<(), AllocError>
    ensures { OnOk result (out.new.items ≡ out.old.items ++ printed (trace.Schedule entry)) }
{
    tell(alloc, out, Entry::Schedule(entry))
}

fn left_by(choice: StopChoice) -> Choice
    ensures { result ≡ left_by choice }
{
    match choice {
        StopChoice::Old => Choice::Old,
        StopChoice::New => Choice::New,
        StopChoice::Zero => Choice::Zero,
    }
}
