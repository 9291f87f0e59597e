ghost use Rattle.std.specs.Prelude.{◌≡◌, OnOk};
ghost use Rattle.rg_props.specs.Lookups.{named};
ghost use Rattle.rgm_state.specs.Outcomes.{after_done, ended, fails_to_start, is_due, is_numbered, marks_in, settled, state_after, with_charge, with_outcome, without_leaving, without_leaving_of, without_restart};

use crate::charges::add_failure;
use crate::memory::NoMemory;
use crate::reports::state_from;
use crate::standing::{has_flag, is_up};
use ccr_tables::Config;
use cl_base::{Method, Name, NodeId, Outcome};
use rg_props::Groups;
use rg_view::{GroupView, Outstanding, ResourceAt};
use rgm_member::{charged, is_start_failure, marks_after};
use std::alloc::Global;
use wire::Marks;

/// The order ended so, as it is told at the second `now`. It is outstanding no more.
///
/// Flags and marks are then those that its member keeps: flags change by success alone, and a
/// failure sets a mark. A start failure is charged to the resource's group, or to the group that
/// this one declares `+++` to, and the group that is charged leaves the node. A clear takes the
/// stop-failed mark away. A resource restarts, and a group leaves, until no flag is left.
pub fn end_order(
    alloc: Global,
    view: &mut GroupView,
    o: Outstanding,
    outcome: Outcome,
    c: &Config,
    now: u64,
) -> Result<(), NoMemory>
    ensures value { OnOk result (view.new ≡ ended c.now o outcome now view.old) }
{
    view.outstanding.take(o.node);
    let before = view.resources.state(&o.resource, o.node);
    view.resources.put(state_after(c, &o, outcome, before))?;
    settle(alloc, c.groups(), view, &o.resource, o.node)?;
    if fails_to_start(c, &o.resource, o.method, outcome) {
        let group = charged(c, &o.resource);
        add_failure(alloc, c.groups(), view, group, o.node, now)?;
    }
    Ok(())
}

/// The state of the order's resource on its node, where it was this before.
fn state_after(c: &Config, o: &Outstanding, outcome: Outcome, before: ResourceAt) -> ResourceAt
    ensures { result ≡ state_after c.now o.now.method outcome o.now.resource o.now.node before }
{
    match o.method {
        Some(method) => {
            let marks = marks_after(c, &o.resource, method, outcome, marks_in(before));
            state_from(o.resource, o.node, marks)
        }
        None => ResourceAt {
            stop_failed: false,
            ..before
        },
    }
}

/// The flags and marks, as the member keeps them.
fn marks_in(s: ResourceAt) -> Marks
    ensures { result ≡ marks_in s }
{
    Marks {
        pre: s.pre,
        run: s.run,
        mon: s.mon,
        faulted: s.faulted,
        stop_failed: s.stop_failed,
        monitor_failed: s.monitor_failed,
    }
}

/// Whether this is a start failure of the resource's group.
fn fails_to_start(c: &Config, r: &Name, method: Option<Method>, outcome: Outcome) -> bool
    ensures { result ≡ fails_to_start c.now r.now method outcome }
{
    match method {
        Some(method) => is_start_failure(c, r, method, outcome),
        None => false,
    }
}

/// Ends the restart of the resource, and that its group leaves the node, where no flag is left.
fn settle(
    alloc: Global,
    g: &Groups,
    view: &mut GroupView,
    r: &Name,
    n: NodeId,
) -> Result<(), NoMemory>
    ensures { OnOk result (view.new ≡ settled g.now r.now n view.old) }
{
    if !has_flag(view.resources.state(r, n)) {
        view.restarting.remove(r, n);
    }
    match g.resource(r) {
        Some(resource) => end_leaving(alloc, g, view, &resource.group, n),
        None => Ok(()),
    }
}

/// Ends that the group leaves the node, where it is not up there.
fn end_leaving(
    alloc: Global,
    g: &Groups,
    view: &mut GroupView,
    group: &Name,
    n: NodeId,
) -> Result<(), NoMemory>
    ensures { OnOk result (view.new ≡ without_leaving g.now group.now n view.old) }
{
    if !is_up(alloc, g, &view.resources, group, n)? {
        view.leaving.remove(group, n);
    }
    Ok(())
}
