// A second value of the same groups and resources.
ghost use Rattle.std.specs.Prelude.{◌≡◌, IfOk};

use crate::group::{Group, Resource};
use cl_base::{Items, Name, Names};
use indexmap::IndexMap;
use std::alloc::{AllocError, Global};

fn copy_names(alloc: Global, names: &Names) -> Result<Names, AllocError>
    ensures { IfOk result (λ copy. copy ≡ names.now) }
{
    Ok(Items::new(names.items().to_vec(alloc)?))
}

impl Group {
    fn copy(&self, alloc: Global) -> Result<Group, AllocError>
        ensures { IfOk result (λ copy. copy ≡ self.now) }
    {
        Ok(Group {
            nodelist: Items::new(self.nodelist.items().to_vec(alloc)?),
            maximum: self.maximum,
            desired: self.desired,
            dependencies: copy_names(alloc, &self.dependencies)?,
            affinities: Items::new(self.affinities.items().to_vec(alloc)?),
            pingpong: self.pingpong,
            failback: self.failback,
            factors: Items::new(self.factors.items().to_vec(alloc)?),
            priority: self.priority,
            managed: self.managed,
            wanted: self.wanted,
            suspended: self.suspended,
        })
    }
}

impl Resource {
    fn copy(&self, alloc: Global) -> Result<Resource, AllocError>
        ensures { IfOk result (λ copy. copy ≡ self.now) }
    {
        Ok(Resource {
            group: self.group,
            resource_type: self.resource_type,
            enabled: self.enabled,
            monitored: self.monitored,
            strong: copy_names(alloc, &self.strong)?,
            weak: copy_names(alloc, &self.weak)?,
            offline_restart: copy_names(alloc, &self.offline_restart)?,
            mode: self.mode,
            retry_count: self.retry_count,
            retry_interval: self.retry_interval,
        })
    }
}

/// The same groups, in the same order.
pub fn copy_groups(
    alloc: Global,
    groups: &IndexMap<Name, Group>,
) -> Result<IndexMap<Name, Group>, AllocError>
    ensures { IfOk result (λ copy. copy.entries ≡ groups.now.entries) }
{
    let mut copies = IndexMap::new(alloc);
    for (name, group) in groups.iter() {
        copies.insert(*name, group.copy(alloc)?)?;
    }
    Ok(copies)
}

/// The same resources, in the same order.
pub fn copy_resources(
    alloc: Global,
    resources: &IndexMap<Name, Resource>,
) -> Result<IndexMap<Name, Resource>, AllocError>
    ensures { IfOk result (λ copy. copy.entries ≡ resources.now.entries) }
{
    let mut copies = IndexMap::new(alloc);
    for (name, resource) in resources.iter() {
        copies.insert(*name, resource.copy(alloc)?)?;
    }
    Ok(copies)
}
