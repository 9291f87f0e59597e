use cl_base::{Name, NodeId};

/// What the president does for a client of a shared address.
#[derive(Clone, Copy)]
pub enum AddressEntry {
    /// It chooses the node that serves a request.
    Served {
        /// The shared address.
        address: Name,
        /// The client.
        client: u32,
        /// The port that it asks for.
        port: u16,
        /// The node; none where the address has no target.
        node: Option<NodeId>,
    },
    /// It forgets which node served a client.
    Forgot {
        /// The shared address.
        address: Name,
        /// The client.
        client: u32,
        /// The port; 0 where the address keeps clients alone.
        port: u16,
    },
}
