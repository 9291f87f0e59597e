// What a president knows of groups, as it changes and is asked for.
use Change::{
    Aim, Clear, Forget, Mark, Move, Order, Put, Remove, RemoveAll, Unaim, Unmark, UnmarkAll,
};
use Question::{
    FirstGoal, FirstRuns, Goal, GoalCount, HasMark, HistoryCount, IsFirstMark, IsKnown, MarkCount,
    Moved, NoOrders, OrderCount, Ordered, Runs, SecondNode, StateCount, Taken,
};
use Step::{Ask, Do};
use Thing::{Db, Ip, Web};
use cl_base::{Method, Name, NodeId, NodeSet, Seconds};
use rg_view::{
    Goals, GroupAt, GroupHistories, GroupView, Marks, NameAt, Orders, Outstanding, ResourceAt,
};
use std::alloc::Global;
use std::process::Abort;
use std::test::Fail;

/// A resource or a group.
#[derive(Clone, Copy)]
enum Thing {
    Db,
    Ip,
    Web,
}

/// What is done with what is known.
#[derive(Clone, Copy)]
enum Change {
    /// The resource runs on the node, or has no flag and no mark there.
    Put(bool),
    /// Its state on the node is removed.
    Remove,
    /// Its states are removed.
    RemoveAll,
    /// The group's history on the node: no failure, and a move at this second.
    Move(u64),
    /// The group's histories are removed.
    Forget,
    /// The group's goal, in bits.
    Aim(u32),
    /// The group's goal is removed.
    Unaim,
    /// There are no goals.
    Clear,
    /// It is marked on the node.
    Mark,
    /// It has no mark on the node.
    Unmark,
    /// It has no mark.
    UnmarkAll,
    /// The node's order, of this number and method.
    Order(u64, Option<Method>),
}

/// What is asked for. The answer is a number, 1 for what is true, and none for what is not there.
#[derive(Clone, Copy)]
enum Question {
    /// Whether the resource runs on the node.
    Runs,
    /// Whether the first of the states is one that runs.
    FirstRuns,
    /// Whether there is a state of the resource on the node.
    IsKnown,
    /// How many states there are.
    StateCount,
    /// When the group moved to the node.
    Moved,
    /// The node of the second history.
    SecondNode,
    /// How many histories there are.
    HistoryCount,
    /// The group's goal, in bits.
    Goal,
    /// The first goal, in bits, where it is the group's.
    FirstGoal,
    /// How many goals there are.
    GoalCount,
    /// Whether it is marked on the node.
    HasMark,
    /// Whether the first mark is its mark on the node.
    IsFirstMark,
    /// How many marks there are.
    MarkCount,
    /// The number of the node's order.
    Ordered,
    /// The number of the node's order, which is taken away.
    Taken,
    /// How many orders there are.
    OrderCount,
    /// Whether there are none.
    NoOrders,
}

#[derive(Clone, Copy)]
enum Step {
    Do(Change),
    Ask(Question, Option<u64>),
}

/// A step, with the thing and the node that it speaks of.
type Row = (Step, Thing, u64);

fn name(thing: Thing) -> Result<Name, Fail> {
    let bytes = match thing {
        Thing::Db => b"db".as_slice(),
        Thing::Ip => b"ip",
        Thing::Web => b"web",
    };
    Ok(Name::new(bytes)?)
}

fn state(resource: Name, node: NodeId, run: bool) -> ResourceAt {
    ResourceAt {
        run,
        ..ResourceAt::unmarked(resource, node)
    }
}

fn put_history(
    alloc: Global,
    known: &mut GroupHistories,
    group: Name,
    node: NodeId,
    second: u64,
) -> Result<(), Fail> {
    let failures = Seconds::new(Vec::new(alloc));
    let moves = Seconds::new(vec![in alloc; second]?);
    Ok(known.put(GroupAt {
        group,
        node,
        failures,
        moves,
    })?)
}

fn put_order(
    orders: &mut Orders,
    resource: Name,
    node: NodeId,
    number: u64,
    method: Option<Method>,
) -> Result<(), Fail> {
    if orders.at(node).is_some() {
        return Err(Fail::new("has one"));
    }
    Ok(orders.put(Outstanding {
        node,
        number,
        resource,
        method,
    })?)
}

fn make(
    alloc: Global,
    view: &mut GroupView,
    change: Change,
    x: Name,
    n: NodeId,
) -> Result<(), Fail> {
    match change {
        Change::Put(run) => view.resources.put(state(x, n, run))?,
        Change::Remove => view.resources.remove(&x, n),
        Change::RemoveAll => view.resources.remove_resource(&x),
        Change::Move(second) => put_history(alloc, &mut view.groups, x, n, second)?,
        Change::Forget => view.groups.remove_group(&x),
        Change::Aim(bits) => view.goals.set(x, NodeSet::from_bits(bits))?,
        Change::Unaim => view.goals.remove(&x),
        Change::Clear => view.goals.clear(),
        Change::Mark => view.leaving.add(&x, n)?,
        Change::Unmark => view.leaving.remove(&x, n),
        Change::UnmarkAll => view.leaving.remove_all(&x),
        Change::Order(number, method) => put_order(&mut view.outstanding, x, n, number, method)?,
    }
    Ok(())
}

fn moved(history: Option<&GroupAt>) -> Option<u64> {
    history?.moves.items().first().copied()
}

fn node_of(history: Option<&GroupAt>) -> Option<u64> {
    Some(history?.node.number())
}

fn number(order: Option<Outstanding>) -> Option<u64> {
    Some(order?.number)
}

fn first_goal(goals: &Goals, x: &Name) -> Option<u64> {
    let (name, nodes) = goals.get(0)?;
    if name == *x {
        Some(nodes.bits() as u64)
    } else {
        None
    }
}

fn is_first(marks: &Marks, name: Name, node: NodeId) -> bool {
    marks.get(0) == Some(NameAt { name, node })
}

fn told(view: &mut GroupView, question: Question, x: Name, n: NodeId) -> Option<u64> {
    match question {
        Question::Runs => Some(view.resources.state(&x, n).run as u64),
        Question::FirstRuns => Some(view.resources.get(0)?.run as u64),
        Question::IsKnown => Some(view.resources.at(&x, n).is_some() as u64),
        Question::StateCount => Some(view.resources.len() as u64),
        Question::Moved => moved(view.groups.history(&x, n)),
        Question::SecondNode => node_of(view.groups.get(1)),
        Question::HistoryCount => Some(view.groups.len() as u64),
        Question::Goal => Some(view.goals.goal(&x).bits() as u64),
        Question::FirstGoal => first_goal(&view.goals, &x),
        Question::GoalCount => Some(view.goals.len() as u64),
        Question::HasMark => Some(view.leaving.has(&x, n) as u64),
        Question::IsFirstMark => Some(is_first(&view.leaving, x, n) as u64),
        Question::MarkCount => Some(view.leaving.len() as u64),
        Question::Ordered => number(view.outstanding.at(n).copied()),
        Question::Taken => number(view.outstanding.take(n)),
        Question::OrderCount => Some(view.outstanding.len() as u64),
        Question::NoOrders => Some(view.outstanding.is_empty() as u64),
    }
}

fn take(
    rt: &impl Abort,
    alloc: Global,
    view: &mut GroupView,
    step: Step,
    x: Name,
    n: NodeId,
) -> Result<(), Fail> {
    match step {
        Step::Do(what) => make(alloc, view, what, x, n),
        Step::Ask(question, wanted) => {
            assert_eq!(rt; told(view, question, x, n), wanted);
            Ok(())
        }
    }
}

fn take_all(
    rt: &impl Abort,
    alloc: Global,
    view: &mut GroupView,
    rows: &[Row],
) -> Result<(), Fail> {
    for (step, thing, number) in rows {
        take(rt, alloc, view, *step, name(*thing)?, NodeId::new(*number)?)?;
    }
    Ok(())
}

/// The rows hold, one after the other, where nothing is known at first.
fn expect(rt: &impl Abort, alloc: Global, rows: &[Row]) -> Result<(), Fail> {
    let mut view = GroupView::new(alloc, NodeSet::first(2));
    take_all(rt, alloc, &mut view, rows)
}

const OF_FLAGS: &[Row] = &[
    (Ask(Runs, Some(0)), Db, 1),
    (Do(Put(true)), Db, 1),
    (Do(Put(true)), Db, 2),
    (Do(Put(true)), Ip, 2),
    (Do(Put(false)), Db, 1),
    (Ask(Runs, Some(0)), Db, 1),
    (Ask(Runs, Some(1)), Db, 2),
    (Ask(FirstRuns, Some(0)), Db, 1),
    (Do(Remove), Db, 1),
    (Ask(IsKnown, Some(0)), Db, 1),
    (Ask(Runs, Some(1)), Db, 2),
    (Do(RemoveAll), Db, 1),
    (Ask(Runs, Some(0)), Db, 2),
    (Ask(Runs, Some(1)), Ip, 2),
    (Ask(StateCount, Some(1)), Ip, 2),
];

#[test]
fn flags_of_resources(rt: HostRuntime) -> Result<(), Fail> {
    expect(&rt, rt.alloc(), OF_FLAGS)
}

const OF_HISTORIES: &[Row] = &[
    (Do(Move(5)), Web, 1),
    (Do(Move(7)), Web, 2),
    (Do(Move(9)), Web, 1),
    (Ask(Moved, Some(9)), Web, 1),
    (Ask(Moved, Some(7)), Web, 2),
    (Ask(HistoryCount, Some(2)), Web, 1),
    (Ask(SecondNode, Some(2)), Web, 1),
    (Do(Forget), Web, 1),
    (Ask(Moved, None), Web, 2),
];

#[test]
fn histories_of_groups(rt: HostRuntime) -> Result<(), Fail> {
    expect(&rt, rt.alloc(), OF_HISTORIES)
}

const OF_GOALS: &[Row] = &[
    (Do(Aim(3)), Web, 1),
    (Do(Aim(1)), Db, 1),
    (Do(Aim(2)), Web, 1),
    (Ask(Goal, Some(2)), Web, 1),
    (Ask(Goal, Some(1)), Db, 1),
    (Ask(FirstGoal, Some(2)), Web, 1),
    (Do(Unaim), Web, 1),
    (Ask(Goal, Some(0)), Web, 1),
    (Ask(GoalCount, Some(1)), Db, 1),
    (Do(Clear), Db, 1),
    (Ask(Goal, Some(0)), Db, 1),
];

const OF_MARKS: &[Row] = &[
    (Do(Mark), Web, 1),
    (Do(Mark), Web, 2),
    (Do(Mark), Db, 1),
    (Do(Mark), Web, 1),
    (Ask(MarkCount, Some(3)), Web, 1),
    (Do(Unmark), Web, 1),
    (Ask(HasMark, Some(0)), Web, 1),
    (Ask(HasMark, Some(1)), Web, 2),
    (Ask(IsFirstMark, Some(1)), Web, 2),
    (Do(UnmarkAll), Web, 1),
    (Ask(HasMark, Some(0)), Web, 2),
    (Ask(HasMark, Some(1)), Db, 1),
];

#[test]
fn goals_and_marks(rt: HostRuntime) -> Result<(), Fail> {
    expect(&rt, rt.alloc(), OF_GOALS)?;
    expect(&rt, rt.alloc(), OF_MARKS)
}

const OF_ORDERS: &[Row] = &[
    (Do(Order(3, Some(Method::Start))), Db, 32),
    (Do(Order(4, None)), Db, 1),
    (Ask(Ordered, Some(3)), Db, 32),
    (Ask(OrderCount, Some(2)), Db, 1),
    (Ask(Taken, Some(3)), Db, 32),
    (Ask(Ordered, None), Db, 32),
    (Ask(Ordered, Some(4)), Db, 1),
    (Ask(NoOrders, Some(0)), Db, 1),
];

#[test]
fn orders_of_nodes(rt: HostRuntime) -> Result<(), Fail> {
    expect(&rt, rt.alloc(), OF_ORDERS)
}
