// Rounds.
ghost use Rattle.std.specs.Prelude.{◌≡◌, ◌≤◌, ◌<◌, ℕ, None, OnOk};
ghost use Rattle.interconnect.specs.Links.{packet_of};
ghost use Rattle.world_model.specs.Rounds.{bringing, bringing_all, doing_all, doing_some, for_each, round_of, rounds, rounds_of, ticking_one};
ghost use Rattle.world_model.specs.Worlds.{play};

use crate::world::World;
use cl_base::{NodeId, NodeSet};
use node::Input;
use std::alloc::{AllocError, Global};

/// The most commands of a node in one round. A node has at most one seizing and one joining of each
/// device in its session, and a seizing has at most some 130 commands: so no node has so many.
const COMMANDS: u64 = 4_096;

impl World {
    /// So many rounds among these nodes.
    #[tactic(auto, unfolding(world_model::specs::Rounds::rounds))]
    pub(crate) fn rounds(
        &mut self,
        alloc: Global,
        count: u64,
        nodes: NodeSet,
        out: &mut Vec<u8>,
    ) -> Result<(), AllocError>
        ensures { OnOk result (play self.new out.new.items ≡ rounds nodes count (play self.old out.old.items)) }
    {
        let listed = nodes.nodes(alloc)?;
        self.do_rounds(alloc, count, nodes, &listed, out)
    }

    fn do_rounds(
        &mut self,
        alloc: Global,
        count: u64,
        nodes: NodeSet,
        listed: &[NodeId],
        out: &mut Vec<u8>,
    ) -> Result<(), AllocError>
        ensures { OnOk result (play self.new out.new.items ≡ rounds_of nodes listed.now count (play self.old out.old.items)) }
    {
        for _ in 0..count {
            self.round(alloc, nodes, listed, out)?;
        }
        Ok(())
    }

    /// Packets, then commands, then ticks.
    fn round(
        &mut self,
        alloc: Global,
        nodes: NodeSet,
        listed: &[NodeId],
        out: &mut Vec<u8>,
    ) -> Result<(), AllocError>
        ensures { OnOk result (play self.new out.new.items ≡ round_of nodes listed.now (play self.old out.old.items)) }
    {
        self.bring_all(alloc, nodes, out)?;
        self.do_all(alloc, listed, out)?;
        self.tick_all(alloc, listed, out)
    }

    /// Each packet that is in flight now between these nodes arrives, in the order of their numbers.
    #[tactic(auto, using(crate::proofs::Brings::one_brought))]
    fn bring_all(
        &mut self,
        alloc: Global,
        nodes: NodeSet,
        out: &mut Vec<u8>,
    ) -> Result<(), AllocError>
        ensures { OnOk result (play self.new out.new.items ≡ bringing_all nodes (play self.old out.old.items)) }
    {
        let end = self.links.next_number();
        let mut number = self.next_in_flight(0, end);
        while number < end {
            self.bring(alloc, nodes, number, out)?;
            number = self.next_in_flight(number + 1, end);
        }
        Ok(())
    }

    /// The first number from this on, and below the end, of a packet in flight; the end, if there is none.
    fn next_in_flight(&self, number: u64, end: u64) -> u64
        requires { number ≤ end }
        ensures low { number ≤ result }
        ensures high { result ≤ end }
        ensures between { (k : ℕ) → number ≤ k → k < result → packet_of self.now.links.packets k ≡ None }
    {
        let next = self.links.next_number();
        let found = self.links.first_from(number);
        found.unwrap_or(next).clamp(number, end)
    }

    /// The packet of this number, where it is between these nodes, arrives.
    fn bring(
        &mut self,
        alloc: Global,
        nodes: NodeSet,
        number: u64,
        out: &mut Vec<u8>,
    ) -> Result<(), AllocError>
        ensures { OnOk result (play self.new out.new.items ≡ bringing nodes number (play self.old out.old.items)) }
    {
        match self.links.route(number) {
            Some((from, to)) if nodes.has(from) && nodes.has(to) => {
                self.deliver(alloc, number, out)
            }
            _ => Ok(()),
        }
    }

    fn do_all(
        &mut self,
        alloc: Global,
        listed: &[NodeId],
        out: &mut Vec<u8>,
    ) -> Result<(), AllocError>
        ensures { OnOk result (play self.new out.new.items ≡ for_each doing_all listed.now (play self.old out.old.items)) }
    {
        for n in listed {
            self.do_commands(alloc, *n, out)?;
        }
        Ok(())
    }

    /// The node does its queued commands until none is left.
    #[tactic(auto, unfolding(world_model::specs::Rounds::doing_all))]
    fn do_commands(&mut self, alloc: Global, n: NodeId, out: &mut Vec<u8>) -> Result<(), AllocError>
        ensures { OnOk result (play self.new out.new.items ≡ doing_all n (play self.old out.old.items)) }
    {
        self.do_some(alloc, n, COMMANDS, out)
    }

    /// The node does so many of its queued commands, or all.
    fn do_some(
        &mut self,
        alloc: Global,
        n: NodeId,
        most: u64,
        out: &mut Vec<u8>,
    ) -> Result<(), AllocError>
        ensures { OnOk result (play self.new out.new.items ≡ doing_some n most (play self.old out.old.items)) }
    {
        for _ in 0..most {
            if self.due(n).is_none() {
                return Ok(());
            }
            self.do_command(alloc, n, out)?;
        }
        Ok(())
    }

    fn tick_all(
        &mut self,
        alloc: Global,
        listed: &[NodeId],
        out: &mut Vec<u8>,
    ) -> Result<(), AllocError>
        ensures { OnOk result (play self.new out.new.items ≡ for_each ticking_one listed.now (play self.old out.old.items)) }
    {
        for n in listed {
            self.tick_one(alloc, *n, out)?;
        }
        Ok(())
    }

    fn tick_one(&mut self, alloc: Global, n: NodeId, out: &mut Vec<u8>) -> Result<(), AllocError>
        ensures { OnOk result (play self.new out.new.items ≡ ticking_one n (play self.old out.old.items)) }
    {
        if self.is_up(n) {
            self.give(alloc, n, &Input::Tick, out)?;
        }
        Ok(())
    }
}
