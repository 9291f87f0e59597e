// Clients of shared addresses.
ghost use Rattle.std.specs.Prelude.{◌≡◌, IfOk, OnOk};
ghost use Rattle.world_model.specs.Lines.{asking, refusal_in};
ghost use Rattle.world_model.specs.Worlds.{node_at, play};

use crate::packets::skip;
use crate::world::World;
use cl_base::{Name, NodeId};
use node::{Input, client_refusal};
use status_report::SkipCause;
use std::alloc::{AllocError, Global};

impl World {
    /// A client's request comes to the node: a president takes it that has the address.
    pub(crate) fn ask(
        &mut self,
        alloc: Global,
        n: NodeId,
        address: &Name,
        client: u32,
        port: u16,
        out: &mut Vec<u8>,
    ) -> Result<(), AllocError>
        ensures { OnOk result (play self.new out.new.items ≡ asking n address.now client port (play self.old out.old.items)) }
    {
        if !self.is_up(n) {
            return skip(alloc, out, SkipCause::Down);
        }
        if let Some(why) = self.refusal(alloc, n, address)? {
            return skip(alloc, out, why);
        }
        let input = Input::Client {
            address: *address,
            client,
            port,
        };
        self.give(alloc, n, &input, out)
    }

    /// Why the node does not take the request, if it is up and does not.
    fn refusal(
        &mut self,
        alloc: Global,
        n: NodeId,
        address: &Name,
    ) -> Result<Option<SkipCause>, AllocError>
        ensures value { IfOk result (λ why. why ≡ refusal_in self.old address.now (node_at self.old n)) }
        ensures same { self.new ≡ self.old }
    {
        let place = n.number() as usize - 1;
        if place >= self.nodes.len() {
            return Ok(None);
        }
        client_refusal(alloc, &self.cluster, &mut self.nodes[place], address)
    }
}
