// What is known of g and of its resources.
use crate::fixture::{name, node};
use rg_view::{GroupAt, GroupView, Marks, ResourceAt};
use std::test::Fail;
use wire::LastFailures;

/// A fact. Groups and resources have names of one letter.
#[derive(Clone, Copy)]
pub enum Fact {
    /// The resource has these flags and marks on the node: 1 and 2 for pre and run, 4 for mon, and 8,
    /// 16 and 32 for faulted, stop-failed and monitor-failed.
    Flags(u8, u64, u64),
    /// When g failed to start on the node, and when it moved away from there.
    History(u64, LastFailures, Option<u64>),
    /// Nothing is remembered of g on the node.
    NoHistory(u64),
    /// The goal of g in bits: 1 is node 1, 2 is node 2.
    Goal(u32),
    /// The members in bits, and the second.
    Members(u32, u64),
    /// No group is evacuated or leaves, and no resource restarts.
    NoMarks,
    /// No order is outstanding.
    NoOrders,
    /// Whether g leaves the node.
    Leaves(u64, bool),
    /// Whether g is evacuated from the node.
    IsEvacuated(u64, bool),
    /// Whether the resource restarts on the node.
    Restarts(u8, u64, bool),
}

fn bits(s: ResourceAt) -> u64 {
    let flags = s.pre as u64 + 2 * (s.run as u64) + 4 * (s.mon as u64);
    let marks = 8 * (s.faulted as u64)
        + 16 * (s.stop_failed as u64)
        + 32 * (s.monitor_failed as u64);
    flags + marks
}

fn has_failures(history: &GroupAt, wanted: LastFailures) -> bool {
    let found = history.failures.items();
    match wanted {
        LastFailures::Never => found.is_empty(),
        LastFailures::Once(one) => found == [one].as_slice(),
        LastFailures::Twice(one, two) => found == [one, two].as_slice(),
    }
}

fn has_moves(history: &GroupAt, wanted: Option<u64>) -> bool {
    let found = history.moves.items();
    match wanted {
        Some(second) => found == [second].as_slice(),
        None => found.is_empty(),
    }
}

fn is_history(found: Option<&GroupAt>, failures: LastFailures, moved: Option<u64>) -> bool {
    match found {
        Some(history) => has_failures(history, failures) && has_moves(history, moved),
        None => false,
    }
}

fn has_history(
    view: &GroupView,
    n: u64,
    failures: LastFailures,
    moved: Option<u64>,
) -> Result<bool, Fail> {
    let found = view.groups.history(&name(b'g')?, node(n)?);
    Ok(is_history(found, failures, moved))
}

fn lacks_history(view: &GroupView, n: u64) -> Result<bool, Fail> {
    Ok(view.groups.history(&name(b'g')?, node(n)?).is_none())
}

fn has_flags(view: &GroupView, r: u8, n: u64, wanted: u64) -> Result<bool, Fail> {
    Ok(bits(view.resources.state(&name(r)?, node(n)?)) == wanted)
}

fn has_goal(view: &GroupView, wanted: u32) -> Result<bool, Fail> {
    Ok(view.goals.goal(&name(b'g')?).bits() == wanted)
}

fn has_mark(marks: &Marks, x: u8, n: u64, wanted: bool) -> Result<bool, Fail> {
    Ok(marks.has(&name(x)?, node(n)?) == wanted)
}

fn has_no_marks(view: &GroupView) -> bool {
    view.evacuated.len() == 0 && view.leaving.len() == 0 && view.restarting.len() == 0
}

pub fn is_known(view: &GroupView, fact: Fact) -> Result<bool, Fail> {
    match fact {
        Fact::Flags(r, n, bits) => has_flags(view, r, n, bits),
        Fact::History(n, failures, moved) => has_history(view, n, failures, moved),
        Fact::NoHistory(n) => lacks_history(view, n),
        Fact::Goal(bits) => has_goal(view, bits),
        Fact::Members(bits, now) => Ok(view.members.bits() == bits && view.now == now),
        Fact::NoMarks => Ok(has_no_marks(view)),
        Fact::NoOrders => Ok(view.outstanding.is_empty()),
        Fact::Leaves(n, wanted) => has_mark(&view.leaving, b'g', n, wanted),
        Fact::IsEvacuated(n, wanted) => has_mark(&view.evacuated, b'g', n, wanted),
        Fact::Restarts(r, n, wanted) => has_mark(&view.restarting, r, n, wanted),
    }
}
