// Why updates of types and resources are refused.
ghost use Rattle.std.specs.Prelude.{◌≡◌, not, false, None, Some, IfOk};
ghost use Rattle.std.specs.Option.{is_some};
ghost use Rattle.rt_types.specs.Types.{type_of};
ghost use Rattle.rg_props.specs.Settings.{is_allowed_resource};
ghost use Rattle.ccr_tables.specs.Refusals.{first_fit, is_complete, is_same_resource, refusal_of, unknown_in_resource_setting};
ghost use Rattle.ccr_tables.specs.declared.update.Update.TheVariants.{UnregisterType, CreateResource, DeleteResource, SetResource, ChangeResource};

use crate::config::Config;
use crate::error::NoMemory;
use crate::shorthand::unknown;
use crate::update::ResourceChange;
use cl_base::{Method, MethodSet, Name, Refusal, Thing};
use rg_props::{Resource, ResourceSetting, SetError, is_allowed_resource, resource_setting};

impl Config {
    pub(crate) fn register_type_refusal(&self, name: &Name, methods: MethodSet) -> Option<Refusal>
        ensures { result ≡ first_fit None (is_some (type_of self.now.types name.now)) None false false (not (is_complete methods)) }
    {
        if self.types.resource_type(name).is_some() {
            return Some(Refusal::Exists);
        }
        if !is_complete(methods) {
            return Some(Refusal::BadSetting);
        }
        None
    }

    pub(crate) fn unregister_type_refusal(&self, name: &Name) -> Option<Refusal>
        ensures { result ≡ refusal_of self.now (UnregisterType name.now) }
    {
        if self.types.resource_type(name).is_none() {
            return unknown(name);
        }
        match self.user_of_type(name) {
            Some(user) => Some(Refusal::InUse(user)),
            None => None,
        }
    }

    pub(crate) fn create_resource_refusal(
        &self,
        resource: &Name,
        group: &Name,
        resource_type: &Name,
    ) -> Option<Refusal>
        ensures { result ≡ refusal_of self.now (CreateResource resource.now group.now resource_type.now) }
    {
        let Some(held) = self.groups.group(group) else {
            return unknown(group);
        };
        let Some(of_type) = self.types.resource_type(resource_type) else {
            return unknown(resource_type);
        };
        if self.has_resource(resource) {
            return Some(Refusal::Exists);
        }
        if of_type.failover() && held.maximum > 1 {
            return Some(Refusal::BadSetting);
        }
        None
    }

    pub(crate) fn delete_resource_refusal(&self, resource: &Name) -> Option<Refusal>
        ensures { result ≡ refusal_of self.now (DeleteResource resource.now) }
    {
        if self.groups.resource(resource).is_none() {
            return unknown(resource);
        }
        match self.user_of_resource(resource) {
            Some(user) => Some(Refusal::InUse(user)),
            None => None,
        }
    }

    pub(crate) fn set_resource_refusal(
        &self,
        resource: &Name,
        property: &[u8],
        value: &[u8],
    ) -> Result<Option<Refusal>, NoMemory>
        ensures { IfOk result (λ refusal. refusal ≡ refusal_of self.now (SetResource resource.now property.now value.now)) }
    {
        if self.groups.resource(resource).is_none() {
            return Ok(unknown(resource));
        }
        match resource_setting(self.alloc(), property, value) {
            Ok(setting) => Ok(self.resource_setting_refusal(resource, &setting)),
            Err(SetError::BadProperty) => Ok(Some(Refusal::BadProperty)),
            Err(SetError::BadSetting) => Ok(Some(Refusal::BadSetting)),
            Err(SetError::NoMemory) => Err(NoMemory),
        }
    }

    fn resource_setting_refusal(&self, name: &Name, setting: &ResourceSetting) -> Option<Refusal>
        ensures { result ≡ first_fit (unknown_in_resource_setting self.now setting.now) false None false false (not (is_allowed_resource name.now setting.now)) }
    {
        if let Some(thing) = self.unknown_in_resource_setting(setting) {
            return Some(Refusal::Unknown(thing));
        }
        if !is_allowed_resource(name, setting) {
            return Some(Refusal::BadSetting);
        }
        None
    }

    fn unknown_in_resource_setting(&self, setting: &ResourceSetting) -> Option<Thing>
        ensures { result ≡ unknown_in_resource_setting self.now setting.now }
    {
        match setting {
            ResourceSetting::Strong(names)
            | ResourceSetting::Weak(names)
            | ResourceSetting::OfflineRestart(names) => self.missing_resource(names.items()),
            ResourceSetting::Mode(_)
            | ResourceSetting::RetryCount(_)
            | ResourceSetting::RetryInterval(_) => None,
        }
    }

    pub(crate) fn change_resource_refusal(
        &self,
        resource: &Name,
        change: ResourceChange,
    ) -> Option<Refusal>
        ensures { result ≡ refusal_of self.now (ChangeResource resource.now change) }
    {
        let Some(held) = self.groups.resource(resource) else {
            return unknown(resource);
        };
        if is_same_resource(held, change) {
            return Some(Refusal::SameValue);
        }
        None
    }
}

fn is_same_resource(resource: &Resource, change: ResourceChange) -> bool
    ensures { result ≡ is_same_resource (Some resource.now) change }
{
    match change {
        ResourceChange::Enable => resource.enabled,
        ResourceChange::Disable => !resource.enabled,
        ResourceChange::Monitor => resource.monitored,
        ResourceChange::Unmonitor => !resource.monitored,
    }
}

fn is_complete(methods: MethodSet) -> bool
    ensures { result ≡ is_complete methods }
{
    methods.has(Method::Start)
        && methods.has(Method::Stop)
        && methods.has(Method::MonitorStart) == methods.has(Method::MonitorStop)
}
