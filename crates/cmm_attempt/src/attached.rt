use cl_base::{DevId, Items, NodeSet};

/// A shared device and the nodes that have a path to it.
#[derive(Clone, Copy)]
pub struct AttachedDevice {
    /// The device.
    pub device: DevId,
    /// The nodes that have a path to it.
    pub nodes: NodeSet,
}

/// Devices in order.
pub type AttachedDevices = Items<AttachedDevice>;
