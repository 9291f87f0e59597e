// Whether a setting is allowed, and what it changes.
ghost use Rattle.std.specs.Prelude.{◌≡◌};
ghost use Rattle.rg_props.specs.Affinities.{declares, declares_close, first_affinity};
ghost use Rattle.rg_props.specs.Lookups.{flagged_group, flagged_resource};
ghost use Rattle.rg_props.specs.Settings.{are_allowed, changed_group, changed_resource, count_best, has_name, is_allowed_group, is_allowed_resource, names_itself};

use crate::affinity::{Affine, Affinity};
use crate::group::{Flag, Group, Resource};
use crate::setting::{GroupSetting, ResourceSetting};
use cl_base::Name;

/// Whether the group of this name may have the setting: it names itself nowhere, declares `+++` once
/// at most, and desires no more primaries than it may have.
pub fn is_allowed_group(name: &Name, setting: &GroupSetting, group: &Group) -> bool
    ensures value { result ≡ is_allowed_group name.now setting.now group.now }
{
    match setting {
        GroupSetting::Maximum(maximum) => group.desired <= *maximum,
        GroupSetting::Desired(desired) => *desired <= group.maximum,
        GroupSetting::Dependencies(names) => !has_name(name, names.items()),
        GroupSetting::Affinities(affinities) => are_allowed(name, affinities.items()),
        GroupSetting::Nodelist(_)
        | GroupSetting::Pingpong(_)
        | GroupSetting::Failback(_)
        | GroupSetting::Factors(_)
        | GroupSetting::Priority(_) => true,
    }
}

fn has_name(name: &Name, names: &[Name]) -> bool
    ensures { result ≡ has_name name.now names.now }
{
    names.iter().any(|n| n.bytes() == name.bytes())
}

fn are_allowed(name: &Name, affinities: &[Affine]) -> bool
    ensures { result ≡ are_allowed name.now affinities.now }
{
    !names_itself(name, affinities) && count_best(affinities) <= 1
}

fn names_itself(name: &Name, affinities: &[Affine]) -> bool
    ensures { result ≡ names_itself name.now affinities.now }
{
    affinities.iter().any(|a| a.group.bytes() == name.bytes())
}

fn count_best(affinities: &[Affine]) -> u64
    ensures { result ≡ count_best affinities.now }
{
    affinities.iter().filter(|a| a.affinity.is_best()).count() as u64
}

/// Whether the resource of this name may have the setting: it names itself nowhere.
pub fn is_allowed_resource(name: &Name, setting: &ResourceSetting) -> bool
    ensures value { result ≡ is_allowed_resource name.now setting.now }
{
    match setting {
        ResourceSetting::Strong(names)
        | ResourceSetting::Weak(names)
        | ResourceSetting::OfflineRestart(names) => !has_name(name, names.items()),
        ResourceSetting::Mode(_)
        | ResourceSetting::RetryCount(_)
        | ResourceSetting::RetryInterval(_) => true,
    }
}

impl Group {
    /// Takes the setting.
    pub(crate) fn change(&mut self, setting: GroupSetting)
        ensures { self.new ≡ changed_group setting self.old }
    {
        match setting {
            GroupSetting::Nodelist(nodes) => self.nodelist = nodes,
            GroupSetting::Maximum(maximum) => self.maximum = maximum,
            GroupSetting::Desired(desired) => self.desired = desired,
            GroupSetting::Dependencies(names) => self.dependencies = names,
            GroupSetting::Affinities(affinities) => self.affinities = affinities,
            GroupSetting::Pingpong(interval) => self.pingpong = interval,
            GroupSetting::Failback(failback) => self.failback = failback,
            GroupSetting::Factors(factors) => self.factors = factors,
            GroupSetting::Priority(priority) => self.priority = priority,
        }
    }

    /// Sets a flag of a group.
    pub(crate) fn flag(&mut self, flag: Flag, on: bool)
        ensures { self.new ≡ flagged_group flag on self.old }
    {
        match flag {
            Flag::Managed => self.managed = on,
            Flag::Wanted => self.wanted = on,
            Flag::Suspended => self.suspended = on,
            Flag::Enabled | Flag::Monitored => {}
        }
    }
}

impl Resource {
    /// Takes the setting.
    pub(crate) fn change(&mut self, setting: ResourceSetting)
        ensures { self.new ≡ changed_resource setting self.old }
    {
        match setting {
            ResourceSetting::Strong(names) => self.strong = names,
            ResourceSetting::Weak(names) => self.weak = names,
            ResourceSetting::OfflineRestart(names) => self.offline_restart = names,
            ResourceSetting::Mode(mode) => self.mode = mode,
            ResourceSetting::RetryCount(count) => self.retry_count = count,
            ResourceSetting::RetryInterval(interval) => self.retry_interval = interval,
        }
    }

    /// Sets a flag of a resource.
    pub(crate) fn flag(&mut self, flag: Flag, on: bool)
        ensures { self.new ≡ flagged_resource flag on self.old }
    {
        match flag {
            Flag::Enabled => self.enabled = on,
            Flag::Monitored => self.monitored = on,
            Flag::Managed | Flag::Wanted | Flag::Suspended => {}
        }
    }
}

impl Group {
    /// The affinity to this group that is declared first, if there is one.
    pub fn affinity(&self, to: &Name) -> Option<Affinity>
        ensures value { result ≡ first_affinity self.now.affinities to.now }
    {
        self.affinities
            .items()
            .iter()
            .find(|a| a.group.bytes() == to.bytes())
            .map(|a| a.affinity)
    }

    /// Whether this affinity to this group is declared, first or not.
    pub fn declares(&self, to: &Name, affinity: Affinity) -> bool
        ensures value { result ≡ declares self.now.affinities to.now affinity }
    {
        self.affinities.items().iter().any(|a| a.group.bytes() == to.bytes()
            && a.affinity.is(affinity))
    }

    /// Whether an affinity to this group is declared that puts both on the same node.
    pub fn declares_close(&self, to: &Name) -> bool
        ensures value { result ≡ declares_close self.now.affinities to.now }
    {
        self.affinities
            .items()
            .iter()
            .any(|a| a.group.bytes() == to.bytes() && a.affinity.is_close())
    }
}
