// What is remembered of a group on a node.
ghost use Rattle.std.specs.Prelude.{◌≡◌};
ghost use Rattle.std.specs.List.{list_any};
ghost use Rattle.restart_policy.specs.Policy.{is_recent};
ghost use Rattle.placement.specs.Histories.{failures_at, was_moved};

use cl_base::{Name, NodeId};
use restart_policy::{is_recent, recent};
use rg_view::GroupView;

/// How often the group failed to start on the node within the interval's seconds.
pub fn failures_at(view: &GroupView, group: &Name, interval: u64, n: NodeId) -> u64
    ensures { result ≡ failures_at view.entry.now group.now interval n }
{
    match view.groups.history(group, n) {
        Some(h) => recent(h.failures.items(), interval, view.now),
        None => 0,
    }
}

/// Whether the group was moved away from the node within the interval's seconds.
pub fn was_moved(view: &GroupView, group: &Name, interval: u64, n: NodeId) -> bool
    ensures { result ≡ was_moved view.entry.now group.now interval n }
{
    match view.groups.history(group, n) {
        Some(h) => has_recent(h.moves.items(), interval, view.now),
        None => false,
    }
}

fn has_recent(seconds: &[u64], interval: u64, now: u64) -> bool
    ensures { result ≡ list_any (λ second. is_recent interval now second) seconds.now }
{
    seconds
        .iter()
        .any(|second| is_recent(*second, interval, now))
}
