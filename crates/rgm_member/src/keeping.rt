ghost use Rattle.std.specs.Prelude.{◌≡◌, is_some};
ghost use Rattle.rg_props.specs.Lookups.{named};
ghost use Rattle.rgm_member.specs.Keeping.{kept_under, marks_kept, resources_kept, those_in};

use crate::past::Past;
use crate::worker::Worker;
use ccr_tables::Config;
use cl_base::{Name, Seconds};
use indexmap::IndexMap;
use rg_props::Groups;
use wire::Marks;

impl Worker {
    /// Drops what is kept of deleted groups and resources, and the faulted marks of disabled
    /// resources. Called with each configuration of the node's own updates, the pending one included.
    pub fn keep(&mut self, c: &Config)
        ensures value { self.new ≡ kept_under c.now self.old }
    {
        keep_resources(&mut self.resources, c.groups());
        keep_groups(&mut self.groups, c.groups());
        keep_restarts(&mut self.restarts, c.groups());
    }
}

fn keep_resources(resources: &mut IndexMap<Name, Marks>, groups: &Groups)
    ensures { resources.new.entries ≡ resources_kept groups.now.resources resources.old.entries }
{
    resources.retain(|r, marks| keep_marks(groups, r, marks));
}

/// Whether the resource is still there. A disabled one is not faulted.
fn keep_marks(groups: &Groups, r: &Name, marks: &mut Marks) -> bool
    ensures there { result ≡ is_some (named groups.now.resources r.now) }
    ensures marks { marks.new ≡ marks_kept (named groups.now.resources r.now) marks.old }
{
    match groups.resource(r) {
        Some(resource) => {
            if !resource.enabled {
                marks.faulted = false;
            }
            true
        }
        None => false,
    }
}

fn keep_groups(kept: &mut IndexMap<Name, Past>, groups: &Groups)
    ensures { kept.new.entries ≡ those_in groups.now.groups kept.old.entries }
{
    kept.retain(|g, _| is_group(groups, g));
}

fn keep_restarts(kept: &mut IndexMap<Name, Seconds>, groups: &Groups)
    ensures { kept.new.entries ≡ those_in groups.now.resources kept.old.entries }
{
    kept.retain(|r, _| is_resource(groups, r));
}

fn is_group(groups: &Groups, g: &Name) -> bool
    ensures { result ≡ is_some (named groups.now.groups g.now) }
{
    groups.group(g).is_some()
}

fn is_resource(groups: &Groups, r: &Name) -> bool
    ensures { result ≡ is_some (named groups.now.resources r.now) }
{
    groups.resource(r).is_some()
}
