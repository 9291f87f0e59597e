// Packets are delivered, lost and repeated.
ghost use Rattle.std.specs.Prelude.{◌≡◌, ◌++◌, OnOk};
ghost use Rattle.status_report.specs.declared.entry.Entry.TheVariants as trace;
ghost use Rattle.status_report.specs.declared.schedule_entry.ScheduleEntry.TheVariants.{Skipped};
ghost use Rattle.status_report.specs.Lines.{printed};
ghost use Rattle.world_model.specs.Packets.{arriving, delivering, losing, repeating_one};
ghost use Rattle.world_model.specs.Worlds.{is_up, play};

use crate::telling::tell;
use crate::world::World;
use cl_base::{DropCause, NodeId};
use interconnect::Delivery;
use node::Input;
use node_model::Node;
use status_report::{Entry, PacketEntry, ScheduleEntry, SkipCause, print_delivered};
use std::alloc::{AllocError, Global};
use wire::{Message, decode};

impl World {
    pub(crate) fn is_up(&self, n: NodeId) -> bool
        ensures { result ≡ is_up self.now n }
    {
        match self.nodes.get(n.number() as usize - 1) {
            Some(Node::Up(_)) => true,
            Some(Node::Down) | None => false,
        }
    }

    /// The packet of this number, if there is one, arrives.
    #[tactic(auto, using(crate::proofs::Removals::none_removed))]
    pub(crate) fn deliver(
        &mut self,
        alloc: Global,
        number: u64,
        out: &mut Vec<u8>,
    ) -> Result<(), AllocError>
        ensures { OnOk result (play self.new out.new.items ≡ delivering number (play self.old out.old.items)) }
    {
        let Ok(delivery) = self.links.deliver(number, &mut self.bytes) else {
            return skip(alloc, out, SkipCause::NoPacket);
        };
        let message = decode(alloc, &self.bytes[..delivery.length as usize])?;
        self.arrive(alloc, number, delivery, message, out)
    }

    /// The packet arrives, if the node is up: this is the message in it.
    fn arrive(
        &mut self,
        alloc: Global,
        number: u64,
        delivery: Delivery,
        message: Option<Message>,
        out: &mut Vec<u8>,
    ) -> Result<(), AllocError>
        ensures { OnOk result (play self.new out.new.items ≡ arriving number delivery.from delivery.to message (play self.old out.old.items)) }
    {
        let Delivery { from, to, .. } = delivery;
        if !self.is_up(to) {
            let cause = DropCause::Down;
            return tell(
                alloc,
                out,
                Entry::Packet(PacketEntry::Dropped { number, cause }),
            );
        }
        print_delivered(out, number, from, to)?;
        match message {
            Some(message) => self.give(alloc, to, &Input::Packet { from, message }, out),
            None => Ok(()),
        }
    }

    /// The packet of this number, if there is one, is lost.
    #[tactic(auto, using(crate::proofs::Removals::none_removed))]
    pub(crate) fn lose(
        &mut self,
        alloc: Global,
        number: u64,
        out: &mut Vec<u8>,
    ) -> Result<(), AllocError>
        ensures { OnOk result (play self.new out.new.items ≡ losing number (play self.old out.old.items)) }
    {
        match self.links.lose(number) {
            Ok(()) => {
                tell(alloc, out, Entry::Packet(PacketEntry::Lost(number)))?;
                Ok(())
            }
            Err(_) => skip(alloc, out, SkipCause::NoPacket),
        }
    }

    /// The packet of this number, if there is one, is sent once more.
    pub(crate) fn repeat(
        &mut self,
        alloc: Global,
        number: u64,
        out: &mut Vec<u8>,
    ) -> Result<(), AllocError>
        ensures { OnOk result (play self.new out.new.items ≡ repeating_one number (play self.old out.old.items)) }
    {
        let copy = self.links.next_number();
        if self.links.route(number).is_none() {
            return skip(alloc, out, SkipCause::NoPacket);
        }
        if copy >= 1 << 63 {
            return Ok(());
        }
        let Ok(sent) = self.links.repeat(number) else {
            return skip(alloc, out, SkipCause::NoPacket);
        };
        tell(
            alloc,
            out,
            Entry::Packet(PacketEntry::Repeated { number, copy }),
        )?;
        if let Some((number, cause)) = sent.dropped {
            tell(
                alloc,
                out,
                Entry::Packet(PacketEntry::Dropped { number, cause }),
            )?;
        }
        Ok(())
    }
}

/// The line could not act.
pub(crate) fn skip(alloc: Global, out: &mut Vec<u8>, cause: SkipCause) -> Result<(), AllocError>
    ensures { OnOk result (out.new.items ≡ out.old.items ++ printed (trace.Schedule (Skipped cause))) }
{
    tell(alloc, out, Entry::Schedule(ScheduleEntry::Skipped(cause)))
}
