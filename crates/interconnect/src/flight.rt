ghost use Rattle.std.specs.Prelude.{◌≡◌, ◌+◌, ◌^◌, ◌<◌, ◌≤◌, [], length, not, nat_lt, if◌then◌else◌, IfOk, IsOk, IsErr, IsOkAnd, MatchOption};
ghost use Rattle.std.specs.Option.{option_map};
ghost use Rattle.cl_base.specs.Limits.{most_packets};
ghost use Rattle.cell_pool.specs.Cells.{cells_for};
ghost use Rattle.interconnect.specs.Links.{sending, appending, removing, packet_of, oldest_on, count_on, first_from_of, route_of, NumbersRise, free_cells_of, delivery_of, copied};

use crate::by_link::ByLink;
use crate::by_number::ByNumber;
use crate::packet::{Delivery, NoSuchPacket, Sent};
use cell_pool::{Chain, Pool};
use cl_base::{DropCause, NodeId};
use slab::Slab;
use std::alloc::{AllocError, Global};
use std::marker::Model;

/// The most packets that a link holds.
const LINK: u64 = 64;

/// How many keys 32 bits tell apart.
const KEYS: usize = 1 << 32;

/// A packet in flight. Its bytes stand in the pool.
#[derive(Drop)]
struct Held {
    number: u64,
    from: NodeId,
    to: NodeId,
    chain: Chain,
}

/// The packets in flight in a slab, their bytes in a pool, and their keys by number and by link.
#[derive(Drop)]
pub(crate) struct Flight {
    pool: Pool,
    packets: Slab<Held>,
    numbers: ByNumber,
    links: ByLink,
}

impl Model for Flight {
    ghost use Rattle.std.specs.Prelude.{length};
    ghost use Rattle.interconnect.specs.Links.{Links};

    ghost Value = { Links };

    ghost use Rattle.interconnect.specs.Flights.{all_shown, IsWhole};
    ghost use Rattle.interconnect.specs.Stored.{all_stored};

    ghost view = { λ f. record { packets = all_shown f.pool (all_stored f.packets f.numbers.held); next = f.numbers.next; cells = length f.pool } };

    ghost invariant = { λ f. IsWhole f.pool f.packets f.numbers f.links };
}

impl Flight {
    /// No packet in flight, over a pool of so many cells.
    pub(crate) fn new(alloc: Global, cells: u64) -> Result<Flight, AllocError>
        ensures { IfOk result (λ f. f ≡ record { packets = []; next = 1; cells = cells }) }
    {
        let pool = Pool::with_cells(alloc, cells)?;
        let packets = Slab::with_capacity(alloc, cells as usize)?;
        if packets.capacity() > KEYS {
            return Err(AllocError);
        }
        let numbers = ByNumber::new(alloc, cells)?;
        let links = ByLink::new(alloc)?;
        Ok(Flight {
            pool,
            packets,
            numbers,
            links,
        })
    }

    /// The number of the next packet.
    pub(crate) fn next_number(&self) -> u64
        ensures number { result ≡ self.now.next }
        ensures rising { NumbersRise 1 self.now.packets self.now.next }
    {
        self.numbers.next()
    }

    /// From whom to whom the packet of a number goes.
    pub(crate) fn route(&self, number: u64) -> Option<(NodeId, NodeId)>
        ensures { result ≡ option_map route_of (packet_of self.now.packets number) }
    {
        let key = self.numbers.find(number)?;
        let held = &self.packets[key as usize];
        Some((held.from, held.to))
    }

    /// The number of the first packet from a number on.
    pub(crate) fn first_from(&self, number: u64) -> Option<u64>
        ensures { result ≡ first_from_of self.now.packets number }
    {
        self.numbers.first_from(number)
    }

    /// Gives a packet the next number, and puts it into flight where enough cells are free.
    fn append(&mut self, from: NodeId, to: NodeId, bytes: &[u8]) -> bool
        requires number { self.old.next < 2 ^ 63 }
        requires size { length bytes.now ≤ 131072 }
        requires room { count_on self.old.packets from to ≤ most_packets }
        ensures exactly { result ≡ not (nat_lt (free_cells_of self.old) (cells_for (length bytes.now))) }
        ensures after { self.new ≡ (if result then appending self.old from to bytes.now else record self.old { next = self.old.next + 1 }) }
    {
        let Some(chain) = self.pool.put(bytes) else {
            self.numbers.skip();
            return false;
        };
        let number = self.numbers.next();
        let key = self.packets.insert_reserved(Held {
            number,
            from,
            to,
            chain,
        }) as u32;
        self.numbers.push(key);
        self.links.push(from, to, key);
        true
    }

    /// Sends a packet of at most 131,072 bytes.
    pub(crate) fn send(&mut self, from: NodeId, to: NodeId, bytes: &[u8]) -> Sent
        requires number { self.old.next < 2 ^ 63 }
        requires size { length bytes.now ≤ 131072 }
        requires room { count_on self.old.packets from to ≤ most_packets }
        ensures after { self.new ≡ (sending self.old from to bytes.now).after }
        ensures sent { result ≡ (sending self.old from to bytes.now).sent }
    {
        let number = self.numbers.next();
        if !self.append(from, to, bytes) {
            return Sent {
                number: None,
                dropped: Some((number, DropCause::Pool)),
            };
        }
        if self.in_flight(from, to) <= LINK {
            return Sent {
                number: Some(number),
                dropped: None,
            };
        }
        let Some(oldest) = self.oldest(from, to) else {
            return Sent {
                number: Some(number),
                dropped: None,
            };
        };
        let _ = self.lose(oldest);
        Sent {
            number: Some(number),
            dropped: Some((oldest, DropCause::Link)),
        }
    }

    /// Copies the bytes of a packet to the front of `out`.
    pub(crate) fn copy(&self, number: u64, out: &mut [u8]) -> Result<Delivery, NoSuchPacket>
        requires { 131072 ≤ length out.old }
        ensures answer { MatchOption (packet_of self.now.packets number) (IsErr result) (λ p. IsOkAnd result (λ d. d ≡ delivery_of p)) }
        ensures bytes { out.new ≡ copied (packet_of self.now.packets number) out.old }
    {
        let Some(key) = self.numbers.find(number) else {
            return Err(NoSuchPacket);
        };
        let held = &self.packets[key as usize];
        let length = self.pool.read(&held.chain, out);
        Ok(Delivery {
            from: held.from,
            to: held.to,
            length,
        })
    }

    /// Takes a packet out of flight.
    pub(crate) fn lose(&mut self, number: u64) -> Result<(), NoSuchPacket>
        ensures answer { MatchOption (packet_of self.old.packets number) (IsErr result) (λ _. IsOk result) }
        ensures after { self.new ≡ removing self.old number }
    {
        let Some(key) = self.numbers.remove(number) else {
            return Err(NoSuchPacket);
        };
        let held = self.packets.remove(key as usize);
        self.links.remove(held.from, held.to, key);
        self.pool.give_back(held.chain);
        Ok(())
    }

    /// The number of the oldest packet on a link.
    pub(crate) fn oldest(&self, from: NodeId, to: NodeId) -> Option<u64>
        ensures { result ≡ oldest_on self.now.packets from to }
    {
        let key = self.links.oldest(from, to)?;
        Some(self.packets[key as usize].number)
    }

    /// How many packets are on a link.
    pub(crate) fn in_flight(&self, from: NodeId, to: NodeId) -> u64
        ensures { result ≡ count_on self.now.packets from to }
    {
        self.links.count(from, to)
    }
}
