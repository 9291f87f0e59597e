// Something happens to a node.
ghost use Rattle.std.specs.Prelude.{◌≡◌, [], OnOk};
ghost use Rattle.node_model.specs.Inputs.{IsAnswered};
ghost use Rattle.world_model.specs.Sends.{giving, giving_so, passing, passing_one, posting, stepping};
ghost use Rattle.world_model.specs.Worlds.{play};

use crate::naming::name_of;
use crate::telling::tell;
use crate::world::World;
use cl_base::{Bytes, NodeId, Outcome};
use node::{Input, step};
use node_model::{Cluster, Node, Output};
use record_disk::SimulatedDisk;
use status_report::{Entry, PacketEntry, print_onto, print_sent};
use std::alloc::{AllocError, Global};
use std::mem;
use wire::{Body, encode_body};

/// The most bytes of a packet.
const MOST: usize = 131_072;

impl World {
    /// This happens to the node, if there is one. What it tells is written, and what it sends is sent.
    pub(crate) fn give(
        &mut self,
        alloc: Global,
        me: NodeId,
        input: &Input,
        out: &mut Vec<u8>,
    ) -> Result<(), AllocError>
        requires answer { IsAnswered input.now }
        ensures { OnOk result (play self.new out.new.items ≡ giving me input.now (play self.old out.old.items)) }
    {
        let outcome = self.call(alloc, me, input)?;
        self.give_so(alloc, me, input, outcome, out)
    }

    /// The same, where the method that the node calls in this, if it calls one, ends so.
    fn give_so(
        &mut self,
        alloc: Global,
        me: NodeId,
        input: &Input,
        outcome: Outcome,
        out: &mut Vec<u8>,
    ) -> Result<(), AllocError>
        requires answer { IsAnswered input.now }
        ensures { OnOk result (play self.new out.new.items ≡ giving_so me input.now outcome (play self.old out.old.items)) }
    {
        let mut outputs = mem::replace(&mut self.outputs, Vec::new(alloc));
        step_in(
            alloc,
            &self.cluster,
            &mut self.nodes,
            &mut self.disks,
            me,
            self.clock,
            outcome,
            input,
            &mut outputs,
        )?;
        self.pass_all(alloc, me, &outputs, out)?;
        outputs.clear();
        self.outputs = outputs;
        Ok(())
    }

    fn pass_all(
        &mut self,
        alloc: Global,
        me: NodeId,
        outputs: &[Output],
        out: &mut Vec<u8>,
    ) -> Result<(), AllocError>
        ensures { OnOk result (play self.new out.new.items ≡ passing me outputs.now (play self.old out.old.items)) }
    {
        for output in outputs {
            self.pass_on(alloc, me, output, out)?;
        }
        Ok(())
    }

    fn pass_on(
        &mut self,
        alloc: Global,
        me: NodeId,
        output: &Output,
        out: &mut Vec<u8>,
    ) -> Result<(), AllocError>
        ensures { OnOk result (play self.new out.new.items ≡ passing_one me output.now (play self.old out.old.items)) }
    {
        match output {
            Output::Tells(entry) => print_onto(alloc, out, entry),
            Output::Sends { to, body } => self.send(alloc, me, *to, body, out),
        }
    }

    /// A message is sent. One that has no spelling, or too long a one, is not: no node gives such.
    #[tactic(auto, using(crate::proofs::Lengths::not_posted, crate::proofs::Lengths::too_long))]
    fn send(
        &mut self,
        alloc: Global,
        from: NodeId,
        to: NodeId,
        body: &Body,
        out: &mut Vec<u8>,
    ) -> Result<(), AllocError>
        ensures { OnOk result (play self.new out.new.items ≡ posting from to (record { sender = from; body = body.now }) (play self.old out.old.items)) }
    {
        if !body.is_short() {
            return Ok(());
        }
        let bytes = encode_body(alloc, from, body)?;
        let number = self.links.next_number();
        if bytes.len() > MOST || number >= 1 << 63 {
            return Ok(());
        }
        let sent = self.links.send(from, to, &bytes);
        let (name, bytes) = (name_of(body), Bytes::new(bytes));
        print_sent(out, number, from, to, name, &bytes)?;
        if let Some((number, cause)) = sent.dropped {
            tell(
                alloc,
                out,
                Entry::Packet(PacketEntry::Dropped { number, cause }),
            )?;
        }
        Ok(())
    }
}

/// The node takes a step with its disk, and gives these; none where there is no such node.
fn step_in(
    alloc: Global,
    cluster: &Cluster,
    nodes: &mut Vec<Node>,
    disks: &mut Vec<SimulatedDisk>,
    me: NodeId,
    now: u64,
    outcome: Outcome,
    input: &Input,
    given: &mut Vec<Output>,
) -> Result<(), AllocError>
    requires empty { given.old.items ≡ [] }
    requires answer { IsAnswered input.now }
    ensures { OnOk result (record { nodes = nodes.new.items; disks = disks.new.items; given = given.new.items } ≡ stepping cluster.now me now outcome input.now nodes.old.items disks.old.items) }
{
    let place = me.number() as usize - 1;
    if place >= nodes.len() || place >= disks.len() {
        return Ok(());
    }
    step(
        alloc,
        cluster,
        me,
        now,
        outcome,
        &mut disks[place],
        &mut nodes[place],
        input,
        given,
    )?;
    Ok(())
}
