// Why updates of groups are refused.
ghost use Rattle.std.specs.Prelude.{◌≡◌, ◌||◌, not, false, None, Some, IfOk};
ghost use Rattle.ccr_tables.specs.Refusals.{first_fit, first_missing_affine, is_same_group, passes_failover, refusal_of, unknown_in_group_setting};
ghost use Rattle.ccr_tables.specs.declared.update.Update.TheVariants.{CreateGroup, DeleteGroup, SetGroup, ChangeGroup, SwitchGroup};
ghost use Rattle.rg_props.specs.Settings.{is_allowed_group};

use crate::config::Config;
use crate::error::NoMemory;
use crate::shorthand::unknown;
use crate::update::GroupChange;
use cl_base::{Name, NodeId, Refusal, Thing};
use rg_props::{Affine, Group, GroupSetting, SetError, group_setting, is_allowed_group};

impl Config {
    pub(crate) fn create_group_refusal(&self, group: &Name, nodes: &[NodeId]) -> Option<Refusal>
        ensures { result ≡ refusal_of self.now (CreateGroup group.now nodes.now) }
    {
        if let Some(thing) = self.unconfigured(nodes) {
            return Some(Refusal::Unknown(thing));
        }
        if self.has_group(group) {
            return Some(Refusal::Exists);
        }
        None
    }

    pub(crate) fn delete_group_refusal(&self, group: &Name) -> Option<Refusal>
        ensures { result ≡ refusal_of self.now (DeleteGroup group.now) }
    {
        if self.groups.group(group).is_none() {
            return unknown(group);
        }
        match self.user_of_group(group) {
            Some(user) => Some(Refusal::InUse(user)),
            None => None,
        }
    }

    pub(crate) fn set_group_refusal(
        &self,
        group: &Name,
        property: &[u8],
        value: &[u8],
    ) -> Result<Option<Refusal>, NoMemory>
        ensures { IfOk result (λ refusal. refusal ≡ refusal_of self.now (SetGroup group.now property.now value.now)) }
    {
        let Some(held) = self.groups.group(group) else {
            return Ok(unknown(group));
        };
        match group_setting(self.alloc(), self.groups.version(), property, value) {
            Ok(setting) => Ok(self.group_setting_refusal(group, held, &setting)),
            Err(SetError::BadProperty) => Ok(Some(Refusal::BadProperty)),
            Err(SetError::BadSetting) => Ok(Some(Refusal::BadSetting)),
            Err(SetError::NoMemory) => Err(NoMemory),
        }
    }

    fn group_setting_refusal(
        &self,
        name: &Name,
        group: &Group,
        setting: &GroupSetting,
    ) -> Option<Refusal>
        ensures { result ≡ first_fit (unknown_in_group_setting self.now setting.now) false None false false (not (is_allowed_group name.now setting.now group.now) || passes_failover self.now name.now setting.now) }
    {
        if let Some(thing) = self.unknown_in_group_setting(setting) {
            return Some(Refusal::Unknown(thing));
        }
        if !is_allowed_group(name, setting, group) || self.passes_failover(name, setting) {
            return Some(Refusal::BadSetting);
        }
        None
    }

    fn unknown_in_group_setting(&self, setting: &GroupSetting) -> Option<Thing>
        ensures { result ≡ unknown_in_group_setting self.now setting.now }
    {
        match setting {
            GroupSetting::Nodelist(nodes) => self.unconfigured(nodes.items()),
            GroupSetting::Dependencies(names) => self.missing_group(names.items()),
            GroupSetting::Affinities(affinities) => self.missing_affine(affinities.items()),
            GroupSetting::Maximum(_)
            | GroupSetting::Desired(_)
            | GroupSetting::Pingpong(_)
            | GroupSetting::Failback(_)
            | GroupSetting::Factors(_)
            | GroupSetting::Priority(_) => None,
        }
    }

    fn missing_affine(&self, affinities: &[Affine]) -> Option<Thing>
        ensures { result ≡ first_missing_affine self.now affinities.now }
    {
        affinities
            .iter()
            .find(|a| !self.has_group(&a.group))
            .map(|a| Thing::Named(a.group))
    }

    /// A group with a resource of a failover type stays on one node at most.
    fn passes_failover(&self, name: &Name, setting: &GroupSetting) -> bool
        ensures { result ≡ passes_failover self.now name.now setting.now }
    {
        match setting {
            GroupSetting::Maximum(maximum) => *maximum > 1 && self.has_failover(name),
            GroupSetting::Nodelist(_)
            | GroupSetting::Desired(_)
            | GroupSetting::Dependencies(_)
            | GroupSetting::Affinities(_)
            | GroupSetting::Pingpong(_)
            | GroupSetting::Failback(_)
            | GroupSetting::Factors(_)
            | GroupSetting::Priority(_) => false,
        }
    }

    pub(crate) fn change_group_refusal(&self, group: &Name, change: GroupChange) -> Option<Refusal>
        ensures { result ≡ refusal_of self.now (ChangeGroup group.now change) }
    {
        let Some(held) = self.groups.group(group) else {
            return unknown(group);
        };
        if is_same_group(held, change) {
            return Some(Refusal::SameValue);
        }
        None
    }

    pub(crate) fn switch_group_refusal(&self, group: &Name, nodes: &[NodeId]) -> Option<Refusal>
        ensures { result ≡ refusal_of self.now (SwitchGroup group.now nodes.now) }
    {
        if self.groups.group(group).is_none() {
            return unknown(group);
        }
        match self.unconfigured(nodes) {
            Some(thing) => Some(Refusal::Unknown(thing)),
            None => None,
        }
    }
}

fn is_same_group(group: &Group, change: GroupChange) -> bool
    ensures { result ≡ is_same_group (Some group.now) change }
{
    match change {
        GroupChange::Manage => group.managed,
        GroupChange::Unmanage => !group.managed,
        GroupChange::Online | GroupChange::Offline => false,
        GroupChange::Suspend => group.suspended,
        GroupChange::Resume => !group.suspended,
    }
}
