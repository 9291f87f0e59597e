// Nodes at devices.
ghost use Rattle.std.specs.Prelude.{◌≡◌, None, Some, IfOk, OnOk, IfSome};
ghost use Rattle.pgr_device.specs.Allowed.{IsAllowed};
ghost use Rattle.pgr_device.specs.Keys.{HasNoZeroKey};
ghost use Rattle.world_model.specs.Devices.{commanded, doing_command, due, due_of, executed, fault_at, fault_place, with_fault, writing};
ghost use Rattle.world_model.specs.Worlds.{play};

use crate::packets::skip;
use crate::telling::tell;
use crate::world::World;
use cl_base::{DevId, NodeId};
use node::{Input, may_write};
use node_model::{Node, UpNode};
use pgr_device::{Failed, Pgr, PrAnswer, PrCommand};
use status_report::{DeviceEntry, Entry, SkipCause};
use std::alloc::{AllocError, Global};

impl World {
    /// A command of the node to the device, under the fault that is armed for it.
    fn command(&mut self, n: NodeId, d: DevId, command: PrCommand) -> Result<PrAnswer, Failed>
        requires allowed { IsAllowed command }
        ensures after { self.new ≡ (commanded self.old n d command).world }
        ensures answer { result ≡ (commanded self.old n d command).answer }
        ensures keys { IfOk result HasNoZeroKey }
    {
        let index = d.number() as usize - 1;
        if index >= self.devices.len() {
            return Err(Failed);
        }
        let fault = self.take_fault(n, d);
        execute(&mut self.devices[index], n, command, fault)
    }

    /// The fault that is armed for the node's next command to the device; it is armed no longer.
    fn take_fault(&mut self, n: NodeId, d: DevId) -> Option<bool>
        ensures fault { result ≡ fault_at self.old n d }
        ensures after { self.new ≡ with_fault self.old n d None }
    {
        let place = self.fault_place(n, d);
        if place >= self.faults.len() as u128 {
            return None;
        }
        let fault = self.faults[place as usize];
        self.faults[place as usize] = None;
        fault
    }

    /// The node's next command to the device will fail, and be done or not.
    pub(crate) fn arm(&mut self, n: NodeId, d: DevId, done: bool)
        ensures after { self.new ≡ with_fault self.old n d (Some done) }
    {
        let place = self.fault_place(n, d);
        if place < self.faults.len() as u128 {
            self.faults[place as usize] = Some(done);
        }
    }

    /// The place of the node and the device among the faults.
    fn fault_place(&self, n: NodeId, d: DevId) -> u128
        ensures { result ≡ fault_place self.now n d }
    {
        (n.number() as u128 - 1) * self.devices.len() as u128 + (d.number() as u128 - 1)
    }

    /// The device and the command that is due at the node, if it is up and one is.
    pub(crate) fn due(&self, n: NodeId) -> Option<(DevId, PrCommand)>
        ensures value { result ≡ due self.now n }
        ensures allowed { IfSome result (λ due. IsAllowed due.1) }
    {
        match self.nodes.get(n.number() as usize - 1) {
            Some(Node::Up(up)) => due_of(up),
            Some(Node::Down) | None => None,
        }
    }

    /// The node does the command that is due, which is there.
    pub(crate) fn do_command(
        &mut self,
        alloc: Global,
        n: NodeId,
        out: &mut Vec<u8>,
    ) -> Result<(), AllocError>
        ensures { OnOk result (play self.new out.new.items ≡ doing_command n (play self.old out.old.items)) }
    {
        self.give(alloc, n, &Input::CommandDue, out)?;
        let Some((d, command)) = self.due(n) else {
            return Ok(());
        };
        let answer = self.command(n, d, command);
        self.give(alloc, n, &Input::Answered(answer), out)
    }

    /// The node, which is up, writes to the device.
    pub(crate) fn write(
        &mut self,
        alloc: Global,
        n: NodeId,
        d: DevId,
        value: u64,
        out: &mut Vec<u8>,
    ) -> Result<(), AllocError>
        ensures { OnOk result (play self.new out.new.items ≡ writing n d value (play self.old out.old.items)) }
    {
        let Some(Node::Up(up)) = self.nodes.get(n.number() as usize - 1) else {
            return skip(alloc, out, SkipCause::Down);
        };
        if let Err(cause) = may_write(&self.cluster, n, &up.seat, d) {
            tell(
                alloc,
                out,
                Entry::Device(DeviceEntry::Refused {
                    node: n,
                    device: d,
                    value,
                    cause,
                }),
            )?;
            return Ok(());
        }
        let answer = self.command(n, d, PrCommand::Write { value });
        let input = Input::Wrote {
            device: d,
            value,
            answer,
        };
        self.give(alloc, n, &input, out)
    }
}

/// The device and the command that is due at the node.
fn due_of(up: &UpNode) -> Option<(DevId, PrCommand)>
    ensures value { result ≡ due_of up.now }
    ensures allowed { IfSome result (λ due. IsAllowed due.1) }
{
    let device = up.tasks.due_device()?;
    let command = up.tasks.next_command()?;
    Some((device, command))
}

/// The command is done unless the fault says that it is not, and answered unless there is a fault.
fn execute(
    device: &mut Pgr,
    n: NodeId,
    command: PrCommand,
    fault: Option<bool>,
) -> Result<PrAnswer, Failed>
    requires allowed { IsAllowed command }
    ensures after { device.new ≡ (executed device.old n command fault).device }
    ensures answer { result ≡ (executed device.old n command fault).answer }
    ensures keys { IfOk result HasNoZeroKey }
{
    match fault {
        None => Ok(device.execute(n, command)),
        Some(true) => {
            let _ = device.execute(n, command);
            Err(Failed)
        }
        Some(false) => Err(Failed),
    }
}
