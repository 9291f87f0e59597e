// What changes in what a president knows.
use crate::words::{method, name, node, parts, seconds, set};
use cl_base::{Method, Name, NodeId};
use rg_view::{
    Goals, GroupAt, GroupHistories, GroupView, Marks, Orders, Outstanding, ResourceAt,
    ResourceStates,
};
use std::alloc::Global;
use std::test::Fail;

fn has(words: &[&[u8]], word: &[u8]) -> bool {
    for w in words {
        if *w == word {
            return true;
        }
    }
    false
}

/// The resource with these flags and marks on the node.
fn state(resource: Name, node: NodeId, words: &[&[u8]]) -> ResourceAt {
    ResourceAt {
        resource,
        node,
        pre: has(words, b"pre"),
        run: has(words, b"run"),
        mon: has(words, b"mon"),
        faulted: has(words, b"faulted"),
        stop_failed: has(words, b"stop-failed"),
        monitor_failed: has(words, b"monitor-failed"),
    }
}

fn put(o: &mut Orders, node: NodeId, m: Option<Method>, resource: Name) -> Result<(), Fail> {
    if o.at(node).is_some() {
        return Err(Fail::new("has one"));
    }
    o.put(Outstanding {
        node,
        number: 1,
        resource,
        method: m,
    })?;
    Ok(())
}

/// What the first word of a change names.
#[derive(Clone, Copy)]
enum Change {
    /// `members NODES`.
    Members,
    /// `goal GROUP NODES`.
    Goal,
    /// `state RESOURCE NODE FLAGS`: its flags and marks there, or `none`.
    State,
    /// `history GROUP NODE FAILURES MOVES`: seconds, or `none`.
    History,
    /// `evacuated GROUP NODE`.
    Evacuated,
    /// `leaving GROUP NODE`.
    Leaving,
    /// `restarting RESOURCE NODE`.
    Restarting,
    /// `order NODE METHOD RESOURCE`: it is outstanding.
    Order,
    /// `done NODE`: its order is not outstanding any more.
    Done,
}

const CHANGES: [Change; 9] = [
    Change::Members,
    Change::Goal,
    Change::State,
    Change::History,
    Change::Evacuated,
    Change::Leaving,
    Change::Restarting,
    Change::Order,
    Change::Done,
];

fn word_of(change: Change) -> &'static [u8] {
    match change {
        Change::Members => b"members",
        Change::Goal => b"goal",
        Change::State => b"state",
        Change::History => b"history",
        Change::Evacuated => b"evacuated",
        Change::Leaving => b"leaving",
        Change::Restarting => b"restarting",
        Change::Order => b"order",
        Change::Done => b"done",
    }
}

fn named(word: &[u8]) -> Option<Change> {
    for change in CHANGES {
        if word_of(change) == word {
            return Some(change);
        }
    }
    None
}

fn set_members(alloc: Global, v: &mut GroupView, words: &[&[u8]]) -> Result<(), Fail> {
    match words {
        [nodes] => {
            v.members = set(alloc, nodes)?;
            Ok(())
        }
        _ => Err(Fail::new("members")),
    }
}

fn set_goal(alloc: Global, goals: &mut Goals, words: &[&[u8]]) -> Result<(), Fail> {
    match words {
        [g, nodes] => Ok(goals.set(name(g)?, set(alloc, nodes)?)?),
        _ => Err(Fail::new("goal")),
    }
}

fn set_state(alloc: Global, states: &mut ResourceStates, words: &[&[u8]]) -> Result<(), Fail> {
    match words {
        [r, n, list] => {
            let state = state(name(r)?, node(n)?, &parts(alloc, list, b',')?);
            Ok(states.put(state)?)
        }
        _ => Err(Fail::new("state")),
    }
}

fn set_history(alloc: Global, known: &mut GroupHistories, words: &[&[u8]]) -> Result<(), Fail> {
    match words {
        [g, n, failures, moves] => Ok(known.put(GroupAt {
            group: name(g)?,
            node: node(n)?,
            failures: seconds(alloc, failures)?,
            moves: seconds(alloc, moves)?,
        })?),
        _ => Err(Fail::new("history")),
    }
}

fn add_mark(marks: &mut Marks, words: &[&[u8]]) -> Result<(), Fail> {
    match words {
        [x, n] => Ok(marks.add(&name(x)?, node(n)?)?),
        _ => Err(Fail::new("mark")),
    }
}

/// The order of these words is outstanding: `NODE METHOD RESOURCE`.
pub fn put_order(orders: &mut Orders, words: &[&[u8]]) -> Result<(), Fail> {
    match words {
        [n, m, r] => put(orders, node(n)?, method(m), name(r)?),
        _ => Err(Fail::new("order")),
    }
}

fn take_order(orders: &mut Orders, words: &[&[u8]]) -> Result<(), Fail> {
    match words {
        [n] => {
            orders.take(node(n)?);
            Ok(())
        }
        _ => Err(Fail::new("done")),
    }
}

/// From now on it is as the words say.
pub fn alter(alloc: Global, v: &mut GroupView, words: &[&[u8]]) -> Result<(), Fail> {
    let [first, rest @ ..] = words else {
        return Err(Fail::new("no words"));
    };
    match named(first) {
        Some(Change::Members) => set_members(alloc, v, rest),
        Some(Change::Goal) => set_goal(alloc, &mut v.goals, rest),
        Some(Change::State) => set_state(alloc, &mut v.resources, rest),
        Some(Change::History) => set_history(alloc, &mut v.groups, rest),
        Some(Change::Evacuated) => add_mark(&mut v.evacuated, rest),
        Some(Change::Leaving) => add_mark(&mut v.leaving, rest),
        Some(Change::Restarting) => add_mark(&mut v.restarting, rest),
        Some(Change::Order) => put_order(&mut v.outstanding, rest),
        Some(Change::Done) => take_order(&mut v.outstanding, rest),
        None => Err(Fail::new("no change")),
    }
}
