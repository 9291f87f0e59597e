//! Resource groups and the resources in them, with their properties: what a value of each property
//! may be, how it is read, and what a command makes of it.
#![tactic(auto)]

mod affinity;
mod change;
mod copying;
mod fresh;
mod group;
mod groups;
mod list;
mod number;
mod property;
mod setting;
mod word;

pub use affinity::{Affine, Affinity};
pub use change::{is_allowed_group, is_allowed_resource};
pub use group::{Affinities, Factors, Flag, Group, Nodes, Resource, Scope};
pub use groups::{Groups, NoMemory};
pub use setting::{GroupSetting, ResourceSetting, SetError, group_setting, resource_setting};
