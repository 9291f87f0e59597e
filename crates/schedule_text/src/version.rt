ghost use Rattle.std.specs.Prelude.{◌≡◌, ◌≤◌};
ghost use Rattle.schedule_text.specs.Versions.{most_nodes_of};

use cl_base::{NodeId, Version};

/// The greatest number of a node under this version.
pub fn most_nodes(version: Version) -> u64
    ensures value { result ≡ most_nodes_of version }
    ensures most { result ≤ 32 }
{
    match version {
        Version::One => NodeId::MOST_AT_FIRST,
        Version::Two => NodeId::MOST,
    }
}
