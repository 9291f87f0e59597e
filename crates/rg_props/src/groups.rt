ghost use Rattle.std.specs.Prelude.{◌≡◌, ◌⊎◌, [], None, Some, Ok, Err, IsSome, IfOk, IfErr, OnOk, OnErr, length, slice_get};
ghost use Rattle.std.specs.Option.{option_copied, option_map};
ghost use Rattle.rg_props.specs.Lookups.{affinity_between, FindsAt, flag_group, flag_resource, group_allows, group_changed, group_set, HasFlagged, named, place_of, resource_changed, resource_set, scope_between, scope_of, keeps_close, with_flag, with_new_group, with_new_resource, without_group, without_resource};
ghost use Rattle.rg_props.specs.Properties.{new_group, new_resource};

use crate::affinity::Affinity;
use crate::change::{is_allowed_group, is_allowed_resource};
use crate::copying::{copy_groups, copy_resources};
use crate::group::{Flag, Group, Resource, Scope};
use crate::setting::{GroupSetting, ResourceSetting, SetError, group_setting, resource_setting};
use cl_base::{Name, NodeId, Version};
use indexmap::IndexMap;
use std::alloc::{AllocError, Global};
use std::marker::Model;
use thiserror::Error;

/// There was no memory for one more group or resource.
#[derive(Clone, Copy, Debug, PartialEq, Eq, Error)]
#[error("no memory")]
pub struct NoMemory;

/// The groups and resources of a cluster. Contracts see a table of them, each kind in order of
/// creation. A group and a resource may have the same name.
#[derive(Drop)]
pub struct Groups {
    version: Version,
    groups: IndexMap<Name, Group>,
    resources: IndexMap<Name, Resource>,
}

impl Model for Groups {
    ghost use Rattle.rg_props.specs.Table.{GroupTable};

    ghost Value = { GroupTable };

    ghost view = { λ g. record { version = g.version; groups = g.groups.entries; resources = g.resources.entries } };
}

impl Groups {
    /// No groups and no resources yet, under this version.
    pub fn new(alloc: Global, version: Version) -> Groups
        ensures value { result ≡ record { version = version; groups = []; resources = [] } }
    {
        Groups {
            version,
            groups: IndexMap::new(alloc),
            resources: IndexMap::new(alloc),
        }
    }

    /// The same groups and resources once more.
    pub fn copy(&self, alloc: Global) -> Result<Groups, AllocError>
        ensures value { IfOk result (λ groups. groups ≡ self.now) }
    {
        Ok(Groups {
            version: self.version,
            groups: copy_groups(alloc, &self.groups)?,
            resources: copy_resources(alloc, &self.resources)?,
        })
    }

    /// The version of the schedule.
    pub fn version(&self) -> Version
        ensures value { result ≡ self.now.version }
    {
        self.version
    }

    /// The group of this name, if there is one.
    pub fn group(&self, name: &Name) -> Option<&Group>
        ensures value { option_copied result ≡ named self.now.groups name.now }
    {
        self.groups.get(name)
    }

    /// The resource of this name, if there is one.
    pub fn resource(&self, name: &Name) -> Option<&Resource>
        ensures value { option_copied result ≡ named self.now.resources name.now }
    {
        self.resources.get(name)
    }

    /// How many groups there are.
    pub fn group_count(&self) -> usize
        ensures value { result ≡ length self.now.groups }
    {
        self.groups.len()
    }

    /// How many resources there are.
    pub fn resource_count(&self) -> usize
        ensures value { result ≡ length self.now.resources }
    {
        self.resources.len()
    }

    /// The name and the group at this place in order of creation, counted from 0.
    pub fn group_at(&self, place: usize) -> Option<(&Name, &Group)>
        ensures value { option_map (λ p. (p.0.now, p.1.now)) result ≡ slice_get self.now.groups place }
    {
        self.groups.get_index(place)
    }

    /// The name and the resource at this place in order of creation, counted from 0.
    pub fn resource_at(&self, place: usize) -> Option<(&Name, &Resource)>
        ensures value { option_map (λ p. (p.0.now, p.1.now)) result ≡ slice_get self.now.resources place }
    {
        self.resources.get_index(place)
    }

    /// The place of the group of this name in order of creation, if there is one.
    pub fn group_place(&self, name: &Name) -> Option<usize>
        ensures value { result ≡ place_of self.now.groups name.now }
    {
        self.groups.get_index_of(name)
    }

    /// The place of the resource of this name in order of creation, if there is one.
    pub fn resource_place(&self, name: &Name) -> Option<usize>
        ensures value { result ≡ place_of self.now.resources name.now }
    {
        self.resources.get_index_of(name)
    }

    /// Adds a group of a new name, of these nodes, after the others. After `NoMemory` nothing is
    /// changed.
    pub fn create_group(&mut self, g: Name, nodes: &[NodeId]) -> Result<(), NoMemory>
        requires { named self.old.groups g ≡ None }
        ensures ok { OnOk result (self.new ≡ with_new_group self.old g nodes.now) }
        ensures found { OnOk result (FindsAt self.old.groups g (Some (new_group nodes.now)) self.new.groups) }
        ensures err { OnErr result (self.new ≡ self.old) }
    {
        let Ok(group) = Group::new(*self.groups.allocator(), nodes) else {
            return Err(NoMemory);
        };
        match self.groups.insert(g, group) {
            Ok(_) => Ok(()),
            Err(_) => Err(NoMemory),
        }
    }

    /// Adds a resource of a new name, of this group and type, after the others. After `NoMemory`
    /// nothing is changed.
    pub fn create_resource(&mut self, r: Name, g: Name, t: Name) -> Result<(), NoMemory>
        requires { named self.old.resources r ≡ None }
        ensures ok { OnOk result (self.new ≡ with_new_resource self.old r g t) }
        ensures found { OnOk result (FindsAt self.old.resources r (Some (new_resource g t)) self.new.resources) }
        ensures err { OnErr result (self.new ≡ self.old) }
    {
        let resource = Resource::new(*self.resources.allocator(), g, t);
        match self.resources.insert(r, resource) {
            Ok(_) => Ok(()),
            Err(_) => Err(NoMemory),
        }
    }

    /// Removes the group of this name. The others keep their order.
    pub fn delete_group(&mut self, g: &Name)
        requires { IsSome (named self.old.groups g.now) }
        ensures value { self.new ≡ without_group self.old g.now }
        ensures found { FindsAt self.old.groups g.now None self.new.groups }
    {
        self.groups.shift_remove(g);
    }

    /// Removes the resource of this name. The others keep their order.
    pub fn delete_resource(&mut self, r: &Name)
        requires { IsSome (named self.old.resources r.now) }
        ensures value { self.new ≡ without_resource self.old r.now }
        ensures found { FindsAt self.old.resources r.now None self.new.resources }
    {
        self.resources.shift_remove(r);
    }

    /// Sets the flag of the group or the resource of this name: whose the flag is.
    pub fn set_flag(&mut self, name: &Name, flag: Flag, on: bool)
        requires { HasFlagged self.old name.now flag }
        ensures value { self.new ≡ with_flag self.old name.now flag on }
    {
        match flag {
            Flag::Managed | Flag::Wanted | Flag::Suspended => self.flag_group(name, flag, on),
            Flag::Enabled | Flag::Monitored => self.flag_resource(name, flag, on),
        }
    }

    fn flag_group(&mut self, name: &Name, flag: Flag, on: bool)
        ensures { self.new ≡ flag_group self.old name.now flag on (named self.old.groups name.now) }
    {
        if let Some(group) = self.groups.get_mut(name) {
            group.flag(flag, on);
        }
    }

    fn flag_resource(&mut self, name: &Name, flag: Flag, on: bool)
        ensures { self.new ≡ flag_resource self.old name.now flag on (named self.old.resources name.now) }
    {
        if let Some(resource) = self.resources.get_mut(name) {
            resource.flag(flag, on);
        }
    }

    /// Sets a property of the group of this name. After an error nothing is changed.
    pub fn set_group(&mut self, g: &Name, property: &[u8], value: &[u8]) -> Result<(), SetError>
        requires { IsSome (named self.old.groups g.now) }
        ensures ok { OnOk result (group_set self.old g.now property.now value.now ≡ Ok self.new) }
        ensures err { OnErr result (self.new ≡ self.old) }
        ensures why { IfErr result (λ e. (e ≡ SetError.NoMemory) ⊎ (group_set self.old g.now property.now value.now ≡ Err e)) }
    {
        let setting = group_setting(*self.groups.allocator(), self.version, property, value)?;
        if !self.allows_group(g, &setting) {
            return Err(SetError::BadSetting);
        }
        self.change_group(g, setting);
        Ok(())
    }

    /// Whether the group of this name may have the setting.
    pub fn allows_group(&self, g: &Name, setting: &GroupSetting) -> bool
        ensures value { result ≡ group_allows self.now g.now setting.now }
    {
        match self.group(g) {
            Some(group) => is_allowed_group(g, setting, group),
            None => false,
        }
    }

    /// Gives the group of this name the setting.
    pub fn change_group(&mut self, g: &Name, setting: GroupSetting)
        requires { IsSome (named self.old.groups g.now) }
        ensures value { self.new ≡ group_changed self.old g.now setting }
    {
        if let Some(group) = self.groups.get_mut(g) {
            group.change(setting);
        }
    }

    /// Sets a property of the resource of this name. After an error nothing is changed.
    pub fn set_resource(&mut self, r: &Name, property: &[u8], value: &[u8]) -> Result<(), SetError>
        requires { IsSome (named self.old.resources r.now) }
        ensures ok { OnOk result (resource_set self.old r.now property.now value.now ≡ Ok self.new) }
        ensures err { OnErr result (self.new ≡ self.old) }
        ensures why { IfErr result (λ e. (e ≡ SetError.NoMemory) ⊎ (resource_set self.old r.now property.now value.now ≡ Err e)) }
    {
        let setting = resource_setting(*self.resources.allocator(), property, value)?;
        if !is_allowed_resource(r, &setting) {
            return Err(SetError::BadSetting);
        }
        self.change_resource(r, setting);
        Ok(())
    }

    /// Gives the resource of this name the setting.
    pub fn change_resource(&mut self, r: &Name, setting: ResourceSetting)
        requires { IsSome (named self.old.resources r.now) }
        ensures value { self.new ≡ resource_changed self.old r.now setting }
    {
        if let Some(resource) = self.resources.get_mut(r) {
            resource.change(setting);
        }
    }

    /// Which nodes a dependency of the one resource on the other speaks of: the same node where both
    /// are in one group, or the dependent's group declares `++` or `+++` to the target's.
    pub fn scope(&self, dependent: &Name, target: &Name) -> Scope
        requires dependent { IsSome (named self.now.resources dependent.now) }
        requires target { IsSome (named self.now.resources target.now) }
        ensures value { result ≡ scope_of self.now dependent.now target.now }
    {
        match (self.resource(dependent), self.resource(target)) {
            (Some(dependent), Some(target)) => self.scope_between(&dependent.group, &target.group),
            _ => Scope::AnyMember,
        }
    }

    fn scope_between(&self, own: &Name, other: &Name) -> Scope
        ensures { result ≡ scope_between self.now own.now other.now }
    {
        if own.bytes() == other.bytes() || self.keeps_close(own, other) {
            Scope::SameNode
        } else {
            Scope::AnyMember
        }
    }

    fn keeps_close(&self, from: &Name, to: &Name) -> bool
        ensures { result ≡ keeps_close (named self.now.groups from.now) to.now }
    {
        match self.group(from) {
            Some(group) => group.declares_close(to),
            None => false,
        }
    }

    /// The affinity that the one group declares to the other first, if it declares one.
    pub fn affinity(&self, from: &Name, to: &Name) -> Option<Affinity>
        requires { IsSome (named self.now.groups from.now) }
        ensures value { result ≡ affinity_between self.now from.now to.now }
    {
        self.group(from)?.affinity(to)
    }
}
