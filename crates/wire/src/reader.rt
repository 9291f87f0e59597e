ghost use Rattle.std.specs.Prelude.{◌≡◌, ◌==◌, length};
ghost use Rattle.wire.specs.Reads.{Gives, number_at, byte_at, truth_at, node_at, device_at, devices_at, text_at};

use crate::stop::Stop;
use byteorder::{BigEndian, ByteOrder};
use cl_base::{Bytes, DevId, DevSet, Epoch, NodeId, NodeSet};
use std::alloc::Global;
use std::marker::Model;

/// Bytes that are read from the front. Contracts see those that are left.
#[derive(Drop)]
pub struct Reader<'a> {
    rest: &'a [u8],
}

impl<'a> Model for Reader<'a> {
    ghost use Rattle.std.specs.Prelude.{List, ℕ};

    ghost Value = { List ℕ };

    ghost view = { λ r. r.rest.now };
}

impl<'a> Reader<'a> {
    /// These bytes.
    pub fn new(bytes: &'a [u8]) -> Reader<'a>
        ensures { result ≡ bytes.now }
    {
        Reader { rest: bytes }
    }

    /// Whether no byte is left.
    pub fn is_done(&self) -> bool
        ensures { result ≡ (length self.now == 0) }
    {
        self.rest.is_empty()
    }

    /// Reads a number of 8 bytes.
    #[tactic(auto, unfolding(crate::specs::Reads::number_at))]
    pub fn number(&mut self) -> Result<u64, Stop>
        ensures { Gives result (number_at 8 self.old) self.new }
    {
        if self.rest.len() < 8 {
            return Err(Stop::NoSpelling);
        }
        let number = BigEndian::read_u64(self.rest);
        self.rest = &self.rest[8..];
        Ok(number)
    }

    /// Reads a number of 4 bytes.
    #[tactic(auto, unfolding(crate::specs::Reads::number_at))]
    fn length(&mut self) -> Result<u32, Stop>
        ensures { Gives result (number_at 4 self.old) self.new }
    {
        if self.rest.len() < 4 {
            return Err(Stop::NoSpelling);
        }
        let number = BigEndian::read_u32(self.rest);
        self.rest = &self.rest[4..];
        Ok(number)
    }

    /// Reads a number of 2 bytes.
    #[tactic(auto, unfolding(crate::specs::Reads::number_at))]
    pub fn count(&mut self) -> Result<u16, Stop>
        ensures { Gives result (number_at 2 self.old) self.new }
    {
        if self.rest.len() < 2 {
            return Err(Stop::NoSpelling);
        }
        let number = BigEndian::read_u16(self.rest);
        self.rest = &self.rest[2..];
        Ok(number)
    }

    /// Reads a byte.
    #[tactic(auto, unfolding(crate::specs::Reads::byte_at))]
    pub fn byte(&mut self) -> Result<u8, Stop>
        ensures { Gives result (byte_at self.old) self.new }
    {
        match self.rest {
            [] => Err(Stop::NoSpelling),
            [byte, rest @ ..] => {
                self.rest = rest;
                Ok(*byte)
            }
        }
    }

    /// Reads a truth value.
    #[tactic(auto, unfolding(crate::specs::Reads::truth_at))]
    pub fn truth(&mut self) -> Result<bool, Stop>
        ensures { Gives result (truth_at self.old) self.new }
    {
        match self.byte()? {
            0 => Ok(false),
            1 => Ok(true),
            _ => Err(Stop::NoSpelling),
        }
    }

    /// Reads the number of a node.
    #[tactic(auto, unfolding(crate::specs::Reads::node_at))]
    pub fn node(&mut self) -> Result<NodeId, Stop>
        ensures { Gives result (node_at self.old) self.new }
    {
        let number = self.byte()?;
        match NodeId::new(number as u64) {
            Ok(node) => Ok(node),
            Err(_) => Err(Stop::NoSpelling),
        }
    }

    /// Reads the number of a device.
    #[tactic(auto, unfolding(crate::specs::Reads::device_at))]
    pub fn device(&mut self) -> Result<DevId, Stop>
        ensures { Gives result (device_at self.old) self.new }
    {
        let number = self.byte()?;
        match DevId::new(number as u64) {
            Ok(device) => Ok(device),
            Err(_) => Err(Stop::NoSpelling),
        }
    }

    /// Reads an epoch.
    pub fn epoch(&mut self) -> Result<Epoch, Stop>
        ensures { Gives result (number_at 8 self.old) self.new }
    {
        Ok(Epoch::from_number(self.number()?))
    }

    /// Reads a set of nodes.
    pub fn nodes(&mut self) -> Result<NodeSet, Stop>
        ensures { Gives result (number_at 4 self.old) self.new }
    {
        Ok(NodeSet::from_bits(self.length()?))
    }

    /// Reads a set of devices.
    #[tactic(auto, unfolding(crate::specs::Reads::devices_at))]
    pub fn devices(&mut self) -> Result<DevSet, Stop>
        ensures { Gives result (devices_at self.old) self.new }
    {
        let bits = self.length()?;
        if bits > u16::MAX as u32 {
            return Err(Stop::NoSpelling);
        }
        Ok(DevSet::from_bits(bits as u16))
    }

    /// Reads a text.
    #[tactic(auto, unfolding(crate::specs::Reads::text_at))]
    pub fn text(&mut self, alloc: Global) -> Result<Bytes, Stop>
        ensures { Gives result (text_at self.old) self.new }
    {
        let length = self.length()? as usize;
        if self.rest.len() < length {
            return Err(Stop::NoSpelling);
        }
        let text = Vec::from_slice(alloc, &self.rest[..length])?;
        self.rest = &self.rest[length..];
        Ok(Bytes::new(text))
    }
}
