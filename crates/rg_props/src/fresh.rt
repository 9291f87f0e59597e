// New groups and resources.
ghost use Rattle.std.specs.Prelude.{◌≡◌, IfOk};
ghost use Rattle.rg_props.specs.Properties.{new_group, new_resource};

use crate::group::{Group, Resource};
use cl_base::{FailoverMode, Items, Name, NodeId};
use std::alloc::{AllocError, Global};

impl Group {
    /// A new group of these nodes.
    pub(crate) fn new(alloc: Global, nodes: &[NodeId]) -> Result<Group, AllocError>
        ensures { IfOk result (λ group. group ≡ new_group nodes.now) }
    {
        Ok(Group {
            nodelist: Items::new(nodes.to_vec(alloc)?),
            maximum: 1,
            desired: 1,
            dependencies: Items::new(Vec::new(alloc)),
            affinities: Items::new(Vec::new(alloc)),
            pingpong: 3600,
            failback: false,
            factors: Items::new(Vec::new(alloc)),
            priority: 500,
            managed: false,
            wanted: false,
            suspended: false,
        })
    }
}

impl Resource {
    /// A new resource of this group and type.
    pub(crate) fn new(alloc: Global, group: Name, resource_type: Name) -> Resource
        ensures { result ≡ new_resource group resource_type }
    {
        Resource {
            group,
            resource_type,
            enabled: true,
            monitored: true,
            strong: Items::new(Vec::new(alloc)),
            weak: Items::new(Vec::new(alloc)),
            offline_restart: Items::new(Vec::new(alloc)),
            mode: FailoverMode::None,
            retry_count: 2,
            retry_interval: 300,
        }
    }
}
