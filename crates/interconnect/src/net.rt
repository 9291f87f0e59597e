ghost use Rattle.std.specs.Prelude.{◌≡◌, ℕ, ◌+◌, ◌^◌, ◌<◌, ◌≤◌, [], length, IfOk, IsOk, IsErr, IsOkAnd, MatchOption};
ghost use Rattle.interconnect.specs.Links.{Links, sending, repeating, removing, packet_of, oldest_on, count_on, first_from_of, route_of, NumbersRise, delivery_of, copied};
ghost use Rattle.std.specs.Option.{option_map};

use crate::flight::Flight;
use crate::packet::{Delivery, NoSuchPacket, Sent};
use cl_base::NodeId;
use std::alloc::{AllocError, Global};
use std::marker::Model;

/// The most bytes of a packet.
const MOST: usize = 131_072;

/// The links of all nodes. In contracts it is the list of the packets in flight, with the number of
/// the next packet and the number of cells.
///
/// A call takes a number of steps that one link bounds, with the cells of the packet at hand. How
/// many packets are in flight counts only where one is looked for by its number: by halving, twice,
/// a list of at most three places for two cells.
#[derive(Drop)]
pub struct Net {
    flight: Flight,
    buffer: Vec<u8>,
}

impl Model for Net {
    ghost use Rattle.std.specs.Prelude.{◌≡◌, length};
    ghost use Rattle.interconnect.specs.Links.{Links};

    ghost Value = { Links };

    ghost view = { λ n. n.flight };

    ghost use Rattle.interconnect.specs.Flights.{IsUncrowded};

    ghost invariant = { λ n. (length n.buffer.items ≡ 131072) × IsUncrowded n.flight.packets };
}

impl Net {
    /// Links without a packet, over a pool of so many cells of 256 bytes. It takes all memory that
    /// they ever need: beside the pool 24 bytes and three places of 16 for each cell, 65 keys for each
    /// of 1,024 links, and room for one packet. Its steps are as many as there are links. For 2^24
    /// cells or more there is no memory.
    pub fn new(alloc: Global, cells: u64) -> Result<Net, AllocError>
        ensures { IfOk result (λ net. net ≡ record { packets = []; next = 1; cells = cells }) }
    {
        let flight = Flight::new(alloc, cells)?;
        let buffer = vec![in alloc; 0u8; MOST]?;
        Ok(Net { flight, buffer })
    }

    /// Sends a packet of at most 131,072 bytes.
    ///
    /// It takes the next number. Where too few cells are free it is dropped, and was never in
    /// flight; else a link that now has more than 64 packets drops its oldest. Its steps: the cells
    /// of the packet, four places swept, and for a packet that is dropped what its loss takes.
    pub fn send(&mut self, from: NodeId, to: NodeId, bytes: &[u8]) -> Sent
        requires number { self.old.next < 2 ^ 63 }
        requires size { length bytes.now ≤ 131072 }
        ensures after { self.new ≡ (sending self.old from to bytes.now).after }
        ensures sent { result ≡ (sending self.old from to bytes.now).sent }
        ensures next { self.new.next ≡ self.old.next + 1 }
    {
        self.flight.send(from, to, bytes)
    }

    /// Delivers a packet: its bytes are copied to the front of `out`, and it is no longer in flight.
    /// `NoSuchPacket` where none of this number is in flight; then nothing changes. Its steps: the
    /// cells of the packet, the keys of its link, at most 64, and two searches by halving.
    pub fn deliver(&mut self, number: u64, out: &mut [u8]) -> Result<Delivery, NoSuchPacket>
        requires { 131072 ≤ length out.old }
        ensures answer { MatchOption (packet_of self.old.packets number) (IsErr result) (λ p. IsOkAnd result (λ d. d ≡ delivery_of p)) }
        ensures bytes { out.new ≡ copied (packet_of self.old.packets number) out.old }
        ensures after { self.new ≡ removing self.old number }
    {
        let delivery = self.flight.copy(number, out);
        let _ = self.flight.lose(number);
        delivery
    }

    /// Loses a packet. `NoSuchPacket` where none of this number is in flight; then nothing changes.
    /// Its steps: the cells of the packet, the keys of its link, at most 64, and a search by halving.
    pub fn lose(&mut self, number: u64) -> Result<(), NoSuchPacket>
        ensures answer { MatchOption (packet_of self.old.packets number) (IsErr result) (λ _. IsOk result) }
        ensures after { self.new ≡ removing self.old number }
    {
        self.flight.lose(number)
    }

    /// Sends a copy of a packet, as a packet of its own. `NoSuchPacket` where none of this number is
    /// in flight; then nothing changes. Its steps: those of a send, and a search by halving.
    pub fn repeat(&mut self, number: u64) -> Result<Sent, NoSuchPacket>
        requires { self.old.next < 2 ^ 63 }
        ensures answer { MatchOption (packet_of self.old.packets number) (IsErr result) (λ p. IsOkAnd result (λ s. s ≡ (sending self.old p.from p.to p.bytes).sent)) }
        ensures after { self.new ≡ repeating self.old number }
        ensures next { self.new.next ≤ self.old.next + 1 }
    {
        let found = self.flight.copy(number, &mut self.buffer)?;
        Ok(self.flight.send(found.from, found.to, &self.buffer[..found.length as usize]))
    }

    /// The number that the next packet gets. The numbers of the packets in flight rise, and are below
    /// it.
    pub fn next_number(&self) -> u64
        ensures number { result ≡ self.now.next }
        ensures rising { NumbersRise 1 self.now.packets self.now.next }
    {
        self.flight.next_number()
    }

    /// From whom to whom the packet of a number goes, if it is in flight, by a search by halving.
    pub fn route(&self, number: u64) -> Option<(NodeId, NodeId)>
        ensures { result ≡ option_map route_of (packet_of self.now.packets number) }
    {
        self.flight.route(number)
    }

    /// The number of the first packet in flight from a number on. Its steps: a search by halving,
    /// and the places between that packets have left and that are not swept yet.
    pub fn first_from(&self, number: u64) -> Option<u64>
        ensures { result ≡ first_from_of self.now.packets number }
    {
        self.flight.first_from(number)
    }

    /// The number of the oldest packet in flight on a link, in one step.
    pub fn oldest(&self, from: NodeId, to: NodeId) -> Option<u64>
        ensures { result ≡ oldest_on self.now.packets from to }
    {
        self.flight.oldest(from, to)
    }

    /// How many packets are in flight on a link, in one step.
    pub fn in_flight(&self, from: NodeId, to: NodeId) -> u64
        ensures { result ≡ count_on self.now.packets from to }
    {
        self.flight.in_flight(from, to)
    }
}
