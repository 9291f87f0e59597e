ghost use Rattle.std.specs.Prelude.{◌≡◌, ◌≤◌, ◌==◌, map, length};
ghost use Rattle.cl_base.specs.Limits.{most_nodes};
ghost use Rattle.pgr_device.specs.Device.{own_key, first_keys};
ghost use Rattle.pgr_device.specs.Registered.{registered_key, is_registered, has_key, rekeyed, without_node, without_key, keys_of};

use crate::key_list::KeyList;
use crate::kind::PrKind;
use arrayvec::ArrayVec;
use cl_base::{NodeId, NodeSet};

/// A key that a node has registered.
#[derive(Clone, Copy, Debug, PartialEq, Eq)]
pub struct Registration {
    pub node: NodeId,
    pub key: u64,
}

impl Default for Registration {
    fn default() -> Registration {
        Registration {
            node: NodeId::new(1).unwrap(),
            key: 0,
        }
    }
}

impl Registration {
    /// The registration after `node` took the key `key`.
    fn rekeyed(self, node: NodeId, key: u64) -> Registration
        ensures { result ≡ rekeyed node key self }
    {
        if self.node == node {
            return Registration { node, key };
        }
        self
    }
}

/// Who holds the reservation, and of which type it is.
#[derive(Clone, Copy, Debug, PartialEq, Eq)]
pub struct Reservation {
    pub holder: NodeId,
    pub kind: PrKind,
}

/// The registrations of a device, in order.
pub(crate) type Registrations = ArrayVec<Registration, 32>;

/// The node, registered by the key that it has in its cluster.
fn own_key(cluster: u32, node: NodeId) -> Registration
    ensures { result ≡ own_key cluster node }
{
    let key = cluster as u64 * (1 << 32) + node.number();
    Registration { node, key }
}

/// The nodes that are registered at first: those of the set that have a path.
#[tactic(auto, using(crate::proofs::FirstKeys::first_keys_none, crate::proofs::FirstKeys::first_keys_more))]
pub(crate) fn first_keys(paths: NodeSet, nodes: NodeSet, cluster: u32) -> Registrations
    ensures { result.items ≡ first_keys paths nodes cluster most_nodes }
{
    let mut registrations = ArrayVec::new();
    for place in 0..NodeId::MOST {
        if let Ok(node) = NodeId::new(place + 1)
            && nodes.has(node)
            && paths.has(node)
        {
            registrations.push(own_key(cluster, node));
        }
    }
    registrations
}

/// The key of a node, if it is registered.
pub(crate) fn registered_key(registrations: &[Registration], node: NodeId) -> Option<u64>
    ensures { result ≡ registered_key registrations.now node }
{
    registrations.iter().find(|r| r.node == node).map(|r| r.key)
}

/// Whether a node is registered.
pub(crate) fn is_registered(registrations: &[Registration], node: NodeId) -> bool
    ensures { result ≡ is_registered registrations.now node }
{
    registrations.iter().any(|r| r.node == node)
}

/// Whether a key is registered.
pub(crate) fn has_key(registrations: &[Registration], key: u64) -> bool
    ensures { result ≡ has_key registrations.now key }
{
    registrations.iter().any(|r| r.key == key)
}

/// The registered keys.
pub(crate) fn keys_of(registrations: &[Registration]) -> KeyList
    requires { length registrations.now ≤ 32 }
    ensures { result ≡ keys_of registrations.now }
{
    let mut keys = KeyList::empty();
    for registration in registrations {
        keys.push(registration.key);
    }
    keys
}

/// Changes the key of a node.
pub(crate) fn rekey(registrations: &mut [Registration], node: NodeId, key: u64)
    ensures { registrations.new ≡ map (rekeyed node key) registrations.old }
{
    for r in registrations.iter_mut() {
        *r = r.rekeyed(node, key);
    }
}

/// Removes the registration of a node.
pub(crate) fn remove_node(registrations: &mut Registrations, node: NodeId)
    ensures { registrations.new.items ≡ without_node node registrations.old.items }
{
    registrations.retain(|r| r.node != node);
}

/// Removes the registrations of a key.
pub(crate) fn remove_key(registrations: &mut Registrations, key: u64)
    ensures { registrations.new.items ≡ without_key key registrations.old.items }
{
    registrations.retain(|r| r.key != key);
}
