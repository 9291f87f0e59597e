// What the configuration says of a resource that is named.
ghost use Rattle.std.specs.Prelude.{◌≡◌};
ghost use Rattle.std.specs.Option.{option_copied};
ghost use Rattle.rgm_member.specs.Settings.{type_named, agent_of, has_postnet_stop, mode_of, is_suspended, suspends, charged, charged_by, best_of};

use ccr_tables::Config;
use cl_base::{FailoverMode, Method, Name};
use rg_props::{Affine, Group};
use rt_types::ResourceType;

/// Its type.
fn type_named<'a>(c: &'a Config, r: &Name) -> Option<&'a ResourceType>
    ensures { option_copied result ≡ type_named c.now r.now }
{
    let resource = c.groups().resource(r)?;
    c.types().resource_type(&resource.resource_type)
}

/// The name of the agent that carries out its methods.
pub fn agent_of(c: &Config, r: &Name) -> Option<Name>
    ensures { result ≡ agent_of c.now r.now }
{
    match type_named(c, r) {
        Some(t) => Some(t.agent()),
        None => None,
    }
}

/// Whether its type has POSTNET_STOP.
pub fn has_postnet_stop(c: &Config, r: &Name) -> bool
    ensures { result ≡ has_postnet_stop c.now r.now }
{
    match type_named(c, r) {
        Some(t) => t.has(Method::PostnetStop),
        None => false,
    }
}

/// Its Failover_mode.
pub fn mode_of(c: &Config, r: &Name) -> FailoverMode
    ensures { result ≡ mode_of c.now r.now }
{
    match c.groups().resource(r) {
        Some(resource) => resource.mode,
        None => FailoverMode::None,
    }
}

/// Whether its group is suspended.
pub fn is_suspended(c: &Config, r: &Name) -> bool
    ensures { result ≡ is_suspended c.now r.now }
{
    match c.groups().resource(r) {
        Some(resource) => suspends(c.groups().group(&resource.group)),
        None => false,
    }
}

fn suspends(group: Option<&Group>) -> bool
    ensures { result ≡ suspends (option_copied group.entry) }
{
    match group {
        Some(group) => group.suspended,
        None => false,
    }
}

/// The group that the resource's start failures and moves are charged to: the one that its group
/// declares `+++` to, or else its own.
pub fn charged(c: &Config, r: &Name) -> Option<Name>
    ensures value { result ≡ charged c.now r.now }
{
    match c.groups().resource(r) {
        Some(resource) => Some(charged_by(resource.group, c.groups().group(&resource.group))),
        None => None,
    }
}

/// The group that `+++` is declared to, or else the own one.
fn charged_by(own: Name, group: Option<&Group>) -> Name
    ensures { result ≡ charged_by own (option_copied group.entry) }
{
    match group {
        Some(group) => best_of(group.affinities.items()).unwrap_or(own),
        None => own,
    }
}

/// The group that `+++` is declared to.
fn best_of(affinities: &[Affine]) -> Option<Name>
    ensures { result ≡ best_of affinities.now }
{
    affinities
        .iter()
        .find(|a| a.affinity.is_best())
        .map(|a| a.group)
}
