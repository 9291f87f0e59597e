//! The keys of a cluster's nodes.
ghost use Rattle.std.specs.Prelude.{◌≡◌};
ghost use Rattle.cl_base.specs.Sets.{has};
ghost use Rattle.cl_base.specs.Keys.{key_of};
ghost use Rattle.seize.specs.Keys.{is_key_of, has_key, first_stranger};

use cl_base::{NodeId, NodeSet};

/// So many numbers are set aside for the keys of one cluster.
const KEYS_OF_CLUSTER: u64 = 4_294_967_296;

/// The key of a node.
pub(crate) fn key_of(cluster: u32, node: NodeId) -> u64
    ensures { result ≡ key_of cluster node }
{
    cluster as u64 * KEYS_OF_CLUSTER + node.number()
}

/// Whether the key is that of one of these nodes.
fn is_key_of(cluster: u32, members: NodeSet, key: u64) -> bool
    ensures { result ≡ is_key_of cluster members key }
{
    has_number(
        members,
        key.saturating_sub(cluster as u64 * KEYS_OF_CLUSTER),
    )
}

/// Whether the set has a node of this number. Bit n - 1 of a set stands for node n.
fn has_number(members: NodeSet, number: u64) -> bool
    ensures { result ≡ has members number }
{
    let bits = members.bits();
    if number == 0 || number > NodeId::MOST {
        return false;
    }
    (bits >> (number - 1)) & 1 == 1
}

/// Whether the key is among these.
pub(crate) fn has_key(key: u64, keys: &[u64]) -> bool
    ensures { result ≡ has_key key keys.now }
{
    keys.iter().any(|k| *k == key)
}

/// The first key that is none of these nodes'.
pub(crate) fn first_stranger(cluster: u32, members: NodeSet, keys: &[u64]) -> Option<u64>
    ensures { result ≡ first_stranger cluster members keys.now }
{
    keys.iter()
        .copied()
        .find(|key| !is_key_of(cluster, members, *key))
}
