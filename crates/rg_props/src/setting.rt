// What a property and its value are read as.
ghost use Rattle.std.specs.Prelude.{◌≡◌, ◌≤◌, ◌⊎◌, Ok, Err, IfOk, IfErr};
ghost use Rattle.std.specs.Option.{option_map};
ghost use Rattle.rg_props.specs.Settings.{group_setting_in, group_value, read_as, resource_setting_in, resource_value};
ghost use Rattle.rg_props.specs.Values.{most_of};
ghost use Rattle.rg_props.specs.declared.setting.SetError.{SetError};
ghost use Rattle.rg_props.specs.declared.setting.SetError.TheVariants.{NoMemory};

use crate::group::{Affinities, Factors, Nodes};
use crate::list::{affinities, factors, names, nodes};
use crate::number::number;
use crate::property::{GroupProperty, ResourceProperty, group_property, resource_property};
use crate::word::{choice, failover_mode};
use cl_base::{FailoverMode, Names, NodeId, Version};
use std::alloc::{AllocError, Global};
use thiserror::Error;

/// The greatest interval, in seconds.
const MOST_SECONDS: u64 = 1_000_000;

/// The greatest priority.
const MOST_PRIORITY: u64 = 1_000;

/// The greatest count of restarts.
const MOST_RESTARTS: u64 = 1_000;

/// A property of a group with its value.
#[derive(Drop)]
pub enum GroupSetting {
    /// Nodelist.
    Nodelist(Nodes),
    /// Maximum_primaries.
    Maximum(u64),
    /// Desired_primaries.
    Desired(u64),
    /// RG_dependencies.
    Dependencies(Names),
    /// RG_affinities.
    Affinities(Affinities),
    /// Pingpong_interval.
    Pingpong(u64),
    /// Failback.
    Failback(bool),
    /// Load_factors.
    Factors(Factors),
    /// Priority.
    Priority(u64),
}

/// A property of a resource with its value.
#[derive(Drop)]
pub enum ResourceSetting {
    /// Resource_dependencies.
    Strong(Names),
    /// Resource_dependencies_weak.
    Weak(Names),
    /// Resource_dependencies_offline_restart.
    OfflineRestart(Names),
    /// Failover_mode.
    Mode(FailoverMode),
    /// Retry_count.
    RetryCount(u64),
    /// Retry_interval.
    RetryInterval(u64),
}

/// Why a property is not set.
#[derive(Clone, Copy, Debug, PartialEq, Eq, Error)]
pub enum SetError {
    /// There is no such property.
    #[error("no such property")]
    BadProperty,
    /// The property has no such value.
    #[error("no such value of the property")]
    BadSetting,
    /// There was no memory.
    #[error("no memory")]
    NoMemory,
}

impl From<AllocError> for SetError {
    ghost from_gives = { λ _ e. e ≡ NoMemory };

    fn from(_: AllocError) -> SetError {
        SetError::NoMemory
    }
}

#[tactic(auto, unfolding(crate::specs::Settings::group_setting_in))]
/// What the word and the value say of a group. Whether the group may have it is for
/// `is_allowed_group`.
pub fn group_setting(
    alloc: Global,
    version: Version,
    property: &[u8],
    value: &[u8],
) -> Result<GroupSetting, SetError>
    ensures ok { IfOk result (λ setting. group_setting_in version property.now value.now ≡ Ok setting) }
    ensures err { IfErr result (λ e. (e ≡ NoMemory) ⊎ (group_setting_in version property.now value.now ≡ Err e)) }
{
    let Some(property) = group_property(version, property) else {
        return Err(SetError::BadProperty);
    };
    match group_value(alloc, version, property, value)? {
        Some(setting) => Ok(setting),
        None => Err(SetError::BadSetting),
    }
}

fn group_value(
    alloc: Global,
    version: Version,
    property: GroupProperty,
    value: &[u8],
) -> Result<Option<GroupSetting>, AllocError>
    ensures { IfOk result (λ found. group_value version property value.now ≡ read_as (λ s. s) found) }
{
    let most = most_nodes(version);
    Ok(match property {
        GroupProperty::Nodelist => nodes(alloc, most, value)?.map(|n| GroupSetting::Nodelist(n)),
        GroupProperty::MaximumPrimaries => number(value, 1, most).map(|n| GroupSetting::Maximum(n)),
        GroupProperty::DesiredPrimaries => number(value, 0, most).map(|n| GroupSetting::Desired(n)),
        GroupProperty::Dependencies => names(alloc, value)?.map(|n| GroupSetting::Dependencies(n)),
        GroupProperty::Affinities => affinities(alloc, value)?.map(|a| GroupSetting::Affinities(a)),
        GroupProperty::PingpongInterval => {
            number(value, 0, MOST_SECONDS).map(|n| GroupSetting::Pingpong(n))
        }
        GroupProperty::Failback => choice(value).map(|c| GroupSetting::Failback(c)),
        GroupProperty::LoadFactors => factors(alloc, value)?.map(|f| GroupSetting::Factors(f)),
        GroupProperty::Priority => number(value, 0, MOST_PRIORITY).map(|n| GroupSetting::Priority(
            n,
        )),
    })
}

/// The greatest number of a node, and the greatest of Maximum_primaries.
fn most_nodes(version: Version) -> u64
    ensures value { result ≡ most_of version }
    ensures most { result ≤ 32 }
{
    match version {
        Version::One => NodeId::MOST_AT_FIRST,
        Version::Two => NodeId::MOST,
    }
}

#[tactic(auto, unfolding(crate::specs::Settings::resource_setting_in))]
/// What the word and the value say of a resource. Whether the resource may have it is for
/// `is_allowed_resource`.
pub fn resource_setting(
    alloc: Global,
    property: &[u8],
    value: &[u8],
) -> Result<ResourceSetting, SetError>
    ensures ok { IfOk result (λ setting. resource_setting_in property.now value.now ≡ Ok setting) }
    ensures err { IfErr result (λ e. (e ≡ NoMemory) ⊎ (resource_setting_in property.now value.now ≡ Err e)) }
{
    let Some(property) = resource_property(property) else {
        return Err(SetError::BadProperty);
    };
    match resource_value(alloc, property, value)? {
        Some(setting) => Ok(setting),
        None => Err(SetError::BadSetting),
    }
}

fn resource_value(
    alloc: Global,
    property: ResourceProperty,
    value: &[u8],
) -> Result<Option<ResourceSetting>, AllocError>
    ensures { IfOk result (λ found. resource_value property value.now ≡ read_as (λ s. s) found) }
{
    Ok(match property {
        ResourceProperty::Dependencies => names(alloc, value)?.map(|n| ResourceSetting::Strong(n)),
        ResourceProperty::WeakDependencies => names(alloc, value)?.map(|n| ResourceSetting::Weak(
            n,
        )),
        ResourceProperty::OfflineRestartDependencies => {
            names(alloc, value)?.map(|n| ResourceSetting::OfflineRestart(n))
        }
        ResourceProperty::FailoverMode => failover_mode(value).map(|m| ResourceSetting::Mode(m)),
        ResourceProperty::RetryCount => {
            number(value, 0, MOST_RESTARTS).map(|n| ResourceSetting::RetryCount(n))
        }
        ResourceProperty::RetryInterval => {
            number(value, 0, MOST_SECONDS).map(|n| ResourceSetting::RetryInterval(n))
        }
    })
}
