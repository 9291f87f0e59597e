use cl_base::{Bytes, DevId, Items, NodeId};

/// Texts in order.
pub type Texts = Items<Bytes>;

/// Keys in order.
pub type Keys = Items<u64>;

/// What a node read on a device that it seized.
#[derive(Debug, Drop)]
pub struct Reading {
    /// The device.
    pub device: DevId,
    /// The node that seized it.
    pub seizer: NodeId,
    /// The keys that the seizer read last.
    pub keys: Keys,
}

/// Readings in order.
pub type Readings = Items<Reading>;
