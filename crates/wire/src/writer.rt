ghost use Rattle.std.specs.Prelude.{◌≡◌, ◌++◌, ◌<◌, [], length, IfOk, OnOk};
ghost use Rattle.wire.specs.Spelling.{number, word, set, one, truth, text, IsShortText, IsWord, IsNode, IsDevice, IsNodes, IsDevices};

use byteorder::{BigEndian, ByteOrder};
use cl_base::{Bytes, DevId, DevSet, Epoch, NodeId, NodeSet};
use std::alloc::{AllocError, Global};
use std::marker::Model;

/// The bytes of a short message, as most are.
const SHORT: usize = 32;

/// Bytes that are written at the end. Contracts see the bytes.
#[derive(Drop)]
pub struct Writer {
    bytes: Vec<u8>,
}

impl Model for Writer {
    ghost use Rattle.std.specs.Prelude.{List, ℕ};

    ghost Value = { List ℕ };

    ghost view = { λ w. w.bytes.items };
}

impl Writer {
    /// No bytes, with room for those of a short message.
    pub fn new(alloc: Global) -> Result<Writer, AllocError>
        ensures { IfOk result (λ w. w ≡ []) }
    {
        Ok(Writer {
            bytes: Vec::with_capacity(alloc, SHORT)?,
        })
    }

    /// The bytes.
    pub fn into_bytes(self) -> Vec<u8>
        ensures { result.items ≡ self }
    {
        self.bytes
    }

    /// Writes a number of 8 bytes.
    #[tactic(auto, unfolding(crate::specs::Spelling::number))]
    pub fn number(&mut self, n: u64) -> Result<(), AllocError>
        ensures spelled { OnOk result (self.new ≡ self.old ++ number 8 n) }
        ensures range { IsWord n }
    {
        let mut bytes = [0; 8];
        BigEndian::write_u64(&mut bytes, n);
        self.bytes.extend_from_slice(&bytes)
    }

    /// Writes a number of 4 bytes.
    #[tactic(auto, unfolding(crate::specs::Spelling::number))]
    fn length(&mut self, n: u32) -> Result<(), AllocError>
        ensures { OnOk result (self.new ≡ self.old ++ number 4 n) }
    {
        let mut bytes = [0; 4];
        BigEndian::write_u32(&mut bytes, n);
        self.bytes.extend_from_slice(&bytes)
    }

    /// Writes a number of 2 bytes.
    #[tactic(auto, unfolding(crate::specs::Spelling::number))]
    pub fn count(&mut self, n: u16) -> Result<(), AllocError>
        ensures { OnOk result (self.new ≡ self.old ++ number 2 n) }
    {
        let mut bytes = [0; 2];
        BigEndian::write_u16(&mut bytes, n);
        self.bytes.extend_from_slice(&bytes)
    }

    /// Writes a byte.
    pub fn byte(&mut self, byte: u8) -> Result<(), AllocError>
        ensures { OnOk result (self.new ≡ self.old ++ one byte) }
    {
        self.bytes.push(byte)?;
        Ok(())
    }

    /// Writes a truth value.
    pub fn truth(&mut self, value: bool) -> Result<(), AllocError>
        ensures { OnOk result (self.new ≡ self.old ++ truth value) }
    {
        self.byte(if value { 1 } else { 0 })
    }

    /// Writes the number of a node.
    pub fn node(&mut self, node: NodeId) -> Result<(), AllocError>
        ensures spelled { OnOk result (self.new ≡ self.old ++ one node) }
        ensures range { IsNode node }
    {
        self.byte(node.number() as u8)
    }

    /// Writes the number of a device.
    pub fn device(&mut self, device: DevId) -> Result<(), AllocError>
        ensures spelled { OnOk result (self.new ≡ self.old ++ one device) }
        ensures range { IsDevice device }
    {
        self.byte(device.number() as u8)
    }

    /// Writes an epoch.
    pub fn epoch(&mut self, epoch: Epoch) -> Result<(), AllocError>
        ensures spelled { OnOk result (self.new ≡ self.old ++ word epoch) }
        ensures range { IsWord epoch }
    {
        self.number(epoch.number())
    }

    /// Writes a set of nodes.
    pub fn nodes(&mut self, nodes: NodeSet) -> Result<(), AllocError>
        ensures spelled { OnOk result (self.new ≡ self.old ++ set nodes) }
        ensures range { IsNodes nodes }
    {
        self.length(nodes.bits())
    }

    /// Writes a set of devices.
    pub fn devices(&mut self, devices: DevSet) -> Result<(), AllocError>
        ensures spelled { OnOk result (self.new ≡ self.old ++ set devices) }
        ensures range { IsDevices devices }
    {
        self.length(devices.bits() as u32)
    }

    /// Writes a text.
    #[tactic(auto, unfolding(crate::specs::Spelling::text))]
    pub fn text(&mut self, written: &Bytes) -> Result<(), AllocError>
        requires { IsShortText written.now }
        ensures { OnOk result (self.new ≡ self.old ++ text written.now) }
    {
        let bytes = written.items();
        self.length(bytes.len() as u32)?;
        self.bytes.extend_from_slice(bytes)
    }
}
