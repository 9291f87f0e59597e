// What the words of a property and of its value set.
ghost use Rattle.std.specs.Prelude.{◌≡◌, IfOk, Ok};
ghost use Rattle.rg_props.specs.Settings.{group_setting_in, resource_setting_in};
ghost use Rattle.admin_commands.specs.Settings.{binds_group, is_dependency, orders_groups};

use crate::error::NoMemory;
use cl_base::Version;
use rg_props::{GroupSetting, ResourceSetting, SetError, group_setting, resource_setting};
use std::alloc::Global;

/// Whether it is a property that is not set while the group is up.
pub fn binds_group(
    alloc: Global,
    version: Version,
    property: &[u8],
    value: &[u8],
) -> Result<bool, NoMemory>
    ensures { IfOk result (λ so. so ≡ binds_group (group_setting_in version property.now value.now)) }
{
    match group_setting(alloc, version, property, value) {
        Ok(setting) => Ok(is_binding(&setting)),
        Err(SetError::BadProperty) | Err(SetError::BadSetting) => Ok(false),
        Err(SetError::NoMemory) => Err(NoMemory),
    }
}

fn is_binding(setting: &GroupSetting) -> bool
    ensures { result ≡ binds_group (Ok setting.now) }
{
    match setting {
        GroupSetting::Nodelist(_)
        | GroupSetting::Maximum(_)
        | GroupSetting::Dependencies(_)
        | GroupSetting::Affinities(_) => true,
        GroupSetting::Desired(_)
        | GroupSetting::Pingpong(_)
        | GroupSetting::Failback(_)
        | GroupSetting::Factors(_)
        | GroupSetting::Priority(_) => false,
    }
}

/// Whether it is a property that says which groups come after which.
pub fn orders_groups(
    alloc: Global,
    version: Version,
    property: &[u8],
    value: &[u8],
) -> Result<bool, NoMemory>
    ensures { IfOk result (λ so. so ≡ orders_groups (group_setting_in version property.now value.now)) }
{
    match group_setting(alloc, version, property, value) {
        Ok(setting) => Ok(is_ordering(&setting)),
        Err(SetError::BadProperty) | Err(SetError::BadSetting) => Ok(false),
        Err(SetError::NoMemory) => Err(NoMemory),
    }
}

fn is_ordering(setting: &GroupSetting) -> bool
    ensures { result ≡ orders_groups (Ok setting.now) }
{
    match setting {
        GroupSetting::Dependencies(_) | GroupSetting::Affinities(_) => true,
        GroupSetting::Nodelist(_)
        | GroupSetting::Maximum(_)
        | GroupSetting::Desired(_)
        | GroupSetting::Pingpong(_)
        | GroupSetting::Failback(_)
        | GroupSetting::Factors(_)
        | GroupSetting::Priority(_) => false,
    }
}

/// Whether it is one of the three lists of dependencies of a resource.
pub fn is_dependency(alloc: Global, property: &[u8], value: &[u8]) -> Result<bool, NoMemory>
    ensures { IfOk result (λ so. so ≡ is_dependency (resource_setting_in property.now value.now)) }
{
    match resource_setting(alloc, property, value) {
        Ok(setting) => Ok(is_list(&setting)),
        Err(SetError::BadProperty) | Err(SetError::BadSetting) => Ok(false),
        Err(SetError::NoMemory) => Err(NoMemory),
    }
}

fn is_list(setting: &ResourceSetting) -> bool
    ensures { result ≡ is_dependency (Ok setting.now) }
{
    match setting {
        ResourceSetting::Strong(_)
        | ResourceSetting::Weak(_)
        | ResourceSetting::OfflineRestart(_) => true,
        ResourceSetting::Mode(_)
        | ResourceSetting::RetryCount(_)
        | ResourceSetting::RetryInterval(_) => false,
    }
}
