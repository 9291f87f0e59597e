// The names of the properties.
ghost use Rattle.std.specs.Prelude.{◌≡◌};
ghost use Rattle.rg_props.specs.Properties.{group_property_in, group_property_named, is_there, resource_property_in};

use cl_base::Version;

/// A property of a group.
#[derive(Clone, Copy, Debug, PartialEq, Eq)]
pub enum GroupProperty {
    Nodelist,
    MaximumPrimaries,
    DesiredPrimaries,
    Dependencies,
    Affinities,
    PingpongInterval,
    Failback,
    LoadFactors,
    Priority,
}

/// A property of a resource.
#[derive(Clone, Copy, Debug, PartialEq, Eq)]
pub enum ResourceProperty {
    Dependencies,
    WeakDependencies,
    OfflineRestartDependencies,
    FailoverMode,
    RetryCount,
    RetryInterval,
}

/// The property of groups that the word names under this version, if there is one.
pub fn group_property(version: Version, word: &[u8]) -> Option<GroupProperty>
    ensures { result ≡ group_property_in version word.now }
{
    let property = group_property_named(word)?;
    if is_there(version, property) {
        Some(property)
    } else {
        None
    }
}

/// Loads and priorities are there from the second version on.
fn is_there(version: Version, property: GroupProperty) -> bool
    ensures { result ≡ is_there version property }
{
    match version {
        Version::One => match property {
            GroupProperty::LoadFactors | GroupProperty::Priority => false,
            _ => true,
        },
        Version::Two => true,
    }
}

#[tactic(auto, unfolding(crate::specs::Properties::group_property_named))]
fn group_property_named(word: &[u8]) -> Option<GroupProperty>
    ensures { result ≡ group_property_named word.now }
{
    if word == b"Nodelist".as_slice() {
        Some(GroupProperty::Nodelist)
    } else if word == b"Maximum_primaries".as_slice() {
        Some(GroupProperty::MaximumPrimaries)
    } else if word == b"Desired_primaries".as_slice() {
        Some(GroupProperty::DesiredPrimaries)
    } else if word == b"RG_dependencies".as_slice() {
        Some(GroupProperty::Dependencies)
    } else if word == b"RG_affinities".as_slice() {
        Some(GroupProperty::Affinities)
    } else if word == b"Pingpong_interval".as_slice() {
        Some(GroupProperty::PingpongInterval)
    } else if word == b"Failback".as_slice() {
        Some(GroupProperty::Failback)
    } else if word == b"Load_factors".as_slice() {
        Some(GroupProperty::LoadFactors)
    } else if word == b"Priority".as_slice() {
        Some(GroupProperty::Priority)
    } else {
        None
    }
}

#[tactic(auto, unfolding(crate::specs::Properties::resource_property_in))]
/// The property of resources that the word names, if there is one.
pub fn resource_property(word: &[u8]) -> Option<ResourceProperty>
    ensures { result ≡ resource_property_in word.now }
{
    if word == b"Resource_dependencies".as_slice() {
        Some(ResourceProperty::Dependencies)
    } else if word == b"Resource_dependencies_weak".as_slice() {
        Some(ResourceProperty::WeakDependencies)
    } else if word == b"Resource_dependencies_offline_restart".as_slice() {
        Some(ResourceProperty::OfflineRestartDependencies)
    } else if word == b"Failover_mode".as_slice() {
        Some(ResourceProperty::FailoverMode)
    } else if word == b"Retry_count".as_slice() {
        Some(ResourceProperty::RetryCount)
    } else if word == b"Retry_interval".as_slice() {
        Some(ResourceProperty::RetryInterval)
    } else {
        None
    }
}
