// Questions, and their answers as text.
use crate::words::{name, node, set};
use ccr_tables::Config;
use cl_base::{Method, Name, Names, NodeId, NodeSet, Reason};
use placement::{Score, eligible, goal, is_fixed};
use rg_deps::{OrderError, find_cycle, group_order, resource_order};
use rg_view::GroupView;
use sequencer::{Outlook, allowed, next_call};
use std::alloc::Global;
use std::test::Fail;
use update_words::{METHODS, method_word};

/// Puts the word behind the text, after a space where it is not the first.
fn push(text: &mut Vec<u8>, word: &[u8]) -> Result<(), Fail> {
    if !text.is_empty() {
        text.push(b' ')?;
    }
    text.extend_from_slice(word)?;
    Ok(())
}

fn push_truth(text: &mut Vec<u8>, holds: bool) -> Result<(), Fail> {
    push(text, if holds { b"true" } else { b"false" })
}

fn reason_word(reason: &Reason) -> &'static [u8] {
    match reason {
        Reason::Unmanaged => b"unmanaged",
        Reason::Offline => b"offline",
        Reason::Suspended => b"suspended",
        Reason::Empty => b"empty",
        Reason::NotMember => b"not-member",
        Reason::StopFailed => b"stop-failed",
        Reason::Evacuated => b"evacuated",
        Reason::StartFailed => b"start-failed",
        Reason::Moved => b"moved",
        Reason::Leaving => b"leaving",
        Reason::Affinity(_) => b"affinity",
        Reason::Dependency(_) => b"dependency",
        Reason::Load(_) => b"load",
        Reason::Faulted(_) => b"faulted",
        Reason::Blocked(_) => b"blocked",
    }
}

/// The reason's word, and what it names.
fn push_reason(text: &mut Vec<u8>, reason: &Reason) -> Result<(), Fail> {
    push(text, reason_word(reason))?;
    match reason {
        Reason::Affinity(target) | Reason::Dependency(target) | Reason::Load(target) => {
            push(text, target.bytes())
        }
        _ => Ok(()),
    }
}

fn found(c: &Config, v: &GroupView, g: &Name, n: NodeId) -> Result<Result<Score, Reason>, Fail> {
    if c.groups().group(g).is_none() {
        return Err(Fail::new("no group"));
    }
    Ok(eligible(c.groups(), c.limits(), v, g, n))
}

/// Start failures, soft limits passed and score, where the group may run on the node.
fn push_score(alloc: Global, text: &mut Vec<u8>, s: Score) -> Result<(), Fail> {
    let score = format!(in alloc; "{} {} {}", s.failures, s.soft, s.score)?;
    push(text, score.as_bytes())
}

fn push_place(alloc: Global, text: &mut Vec<u8>, found: Result<Score, Reason>) -> Result<(), Fail> {
    match found {
        Ok(score) => push_score(alloc, text, score),
        Err(reason) => push_reason(text, &reason),
    }
}

/// Whether the first of the two comes before the other, whatever the Nodelist.
fn is_better(one: Result<Score, Reason>, other: Result<Score, Reason>) -> Result<bool, Fail> {
    match (one, other) {
        (Ok(one), Ok(other)) => Ok(one.is_better(other)),
        _ => Err(Fail::new("not eligible")),
    }
}

fn push_goal(
    alloc: Global,
    text: &mut Vec<u8>,
    c: &Config,
    v: &GroupView,
    g: &Name,
    previous: NodeSet,
) -> Result<(), Fail> {
    if c.groups().group(g).is_none() {
        return Err(Fail::new("no group"));
    }
    let nodes = goal(c.groups(), c.limits(), v, g, previous);
    push(text, nodes.text(alloc)?.as_bytes())
}

fn add_resources(names: &mut Vec<Name>, resources: &[Name]) -> Result<(), Fail> {
    for r in resources {
        names.push(*r)?;
    }
    Ok(())
}

fn resources_of(
    alloc: Global,
    c: &Config,
    groups: &[Name],
    names: &mut Vec<Name>,
) -> Result<(), Fail> {
    for group in groups {
        add_resources(names, resource_order(alloc, c.groups(), group)?.items())?;
    }
    Ok(())
}

/// The resources, group by group in the order of groups.
pub fn resources(alloc: Global, c: &Config) -> Result<Vec<Name>, Fail> {
    let mut names = Vec::new(alloc);
    resources_of(
        alloc,
        c,
        group_order(alloc, c.groups())?.items(),
        &mut names,
    )?;
    Ok(names)
}

pub fn outlook(alloc: Global, c: &Config, v: &GroupView, order: &[Name]) -> Result<Outlook, Fail> {
    Ok(Outlook::find(alloc, c.groups(), c.types(), c.limits(), v, order)?)
}

fn push_methods(
    text: &mut Vec<u8>,
    c: &Config,
    v: &GroupView,
    o: &Outlook,
    n: &[u8],
    r: &Name,
) -> Result<(), Fail> {
    let at = node(n)?;
    for m in METHODS {
        if allowed(c.groups(), c.types(), c.limits(), v, o, at, r, m) {
            push(text, n)?;
            push(text, r.bytes())?;
            push(text, method_word(m))?;
        }
    }
    Ok(())
}

fn push_calls_on(
    text: &mut Vec<u8>,
    c: &Config,
    v: &GroupView,
    o: &Outlook,
    n: &[u8],
    order: &[Name],
) -> Result<(), Fail> {
    for r in order {
        push_methods(text, c, v, o, n, r)?;
    }
    Ok(())
}

/// Those on node 1, on node 2 and on node 3.
pub fn push_all_calls(
    text: &mut Vec<u8>,
    c: &Config,
    v: &GroupView,
    o: &Outlook,
    order: &[Name],
) -> Result<(), Fail> {
    push_calls_on(text, c, v, o, b"1", order)?;
    push_calls_on(text, c, v, o, b"2", order)?;
    push_calls_on(text, c, v, o, b"3", order)
}

fn push_calls(alloc: Global, text: &mut Vec<u8>, c: &Config, v: &GroupView) -> Result<(), Fail> {
    let order = resources(alloc, c)?;
    push_all_calls(text, c, v, &outlook(alloc, c, v, &order)?, &order)
}

fn push_call(text: &mut Vec<u8>, call: Option<(Name, Method)>) -> Result<(), Fail> {
    match call {
        Some((r, m)) => {
            push(text, r.bytes())?;
            push(text, method_word(m))
        }
        None => Ok(()),
    }
}

/// The call that comes first on the node.
fn push_next(
    alloc: Global,
    text: &mut Vec<u8>,
    c: &Config,
    v: &GroupView,
    order: &[Name],
    n: NodeId,
) -> Result<(), Fail> {
    let o = outlook(alloc, c, v, order)?;
    push_call(
        text,
        next_call(c.groups(), c.types(), c.limits(), v, &o, order, n),
    )
}

fn push_names(text: &mut Vec<u8>, names: &[Name]) -> Result<(), Fail> {
    for name in names {
        push(text, name.bytes())?;
    }
    Ok(())
}

/// The names in their order, or `cycle` and its names.
fn push_order(text: &mut Vec<u8>, found: Result<Names, OrderError>) -> Result<(), Fail> {
    match found {
        Ok(names) => push_names(text, names.items()),
        Err(OrderError::Cycle(names)) => {
            push(text, b"cycle")?;
            push_names(text, names.items())
        }
        Err(OrderError::NoMemory) => Err(Fail::new("no memory")),
    }
}

/// The names of a cycle of groups or of resources, if there is one.
fn push_cycle(alloc: Global, text: &mut Vec<u8>, c: &Config) -> Result<(), Fail> {
    match find_cycle(alloc, c.groups())? {
        Some(names) => push_names(text, names.items()),
        None => Ok(()),
    }
}

/// What the first word of a question names.
#[derive(Clone, Copy)]
enum Question {
    /// `place GROUP NODE`: how well the node suits the group, or the first reason against it.
    Place,
    /// `better GROUP NODE NODE`: whether the first of the nodes comes before the other.
    Better,
    /// `goal-after GROUP NODES`: the goal after this one.
    GoalAfter,
    /// `fixed GROUP`.
    Fixed,
    /// `calls`: those that are allowed.
    Calls,
    /// `next NODE`: the call that comes first there.
    Next,
    /// `groups`: in their order.
    Groups,
    /// `resources GROUP`: in their order.
    Resources,
    /// `cycle`.
    Cycle,
}

const QUESTIONS: [Question; 9] = [
    Question::Place,
    Question::Better,
    Question::GoalAfter,
    Question::Fixed,
    Question::Calls,
    Question::Next,
    Question::Groups,
    Question::Resources,
    Question::Cycle,
];

fn word_of(question: Question) -> &'static [u8] {
    match question {
        Question::Place => b"place",
        Question::Better => b"better",
        Question::GoalAfter => b"goal-after",
        Question::Fixed => b"fixed",
        Question::Calls => b"calls",
        Question::Next => b"next",
        Question::Groups => b"groups",
        Question::Resources => b"resources",
        Question::Cycle => b"cycle",
    }
}

fn named(word: &[u8]) -> Option<Question> {
    for question in QUESTIONS {
        if word_of(question) == word {
            return Some(question);
        }
    }
    None
}

fn place(
    alloc: Global,
    text: &mut Vec<u8>,
    c: &Config,
    v: &GroupView,
    words: &[&[u8]],
) -> Result<(), Fail> {
    match words {
        [g, n] => push_place(alloc, text, found(c, v, &name(g)?, node(n)?)?),
        _ => Err(Fail::new("place")),
    }
}

fn better(text: &mut Vec<u8>, c: &Config, v: &GroupView, words: &[&[u8]]) -> Result<(), Fail> {
    match words {
        [g, n, m] => {
            let g = name(g)?;
            let (one, other) = (found(c, v, &g, node(n)?)?, found(c, v, &g, node(m)?)?);
            push_truth(text, is_better(one, other)?)
        }
        _ => Err(Fail::new("better")),
    }
}

fn goal_after(
    alloc: Global,
    text: &mut Vec<u8>,
    c: &Config,
    v: &GroupView,
    words: &[&[u8]],
) -> Result<(), Fail> {
    match words {
        [g, nodes] => push_goal(alloc, text, c, v, &name(g)?, set(alloc, nodes)?),
        _ => Err(Fail::new("goal-after")),
    }
}

fn fixed(text: &mut Vec<u8>, c: &Config, v: &GroupView, words: &[&[u8]]) -> Result<(), Fail> {
    match words {
        [g] => push_truth(text, is_fixed(c.groups(), v, &name(g)?)),
        _ => Err(Fail::new("fixed")),
    }
}

fn next(
    alloc: Global,
    text: &mut Vec<u8>,
    c: &Config,
    v: &GroupView,
    words: &[&[u8]],
) -> Result<(), Fail> {
    match words {
        [n] => push_next(alloc, text, c, v, &resources(alloc, c)?, node(n)?),
        _ => Err(Fail::new("next")),
    }
}

fn of_group(alloc: Global, text: &mut Vec<u8>, c: &Config, words: &[&[u8]]) -> Result<(), Fail> {
    match words {
        [g] => push_order(text, resource_order(alloc, c.groups(), &name(g)?)),
        _ => Err(Fail::new("resources")),
    }
}

/// The answer to the question of these words.
pub fn answer(
    alloc: Global,
    text: &mut Vec<u8>,
    c: &Config,
    v: &GroupView,
    words: &[&[u8]],
) -> Result<(), Fail> {
    let [first, rest @ ..] = words else {
        return Err(Fail::new("no words"));
    };
    match named(first) {
        Some(Question::Place) => place(alloc, text, c, v, rest),
        Some(Question::Better) => better(text, c, v, rest),
        Some(Question::GoalAfter) => goal_after(alloc, text, c, v, rest),
        Some(Question::Fixed) => fixed(text, c, v, rest),
        Some(Question::Calls) => push_calls(alloc, text, c, v),
        Some(Question::Next) => next(alloc, text, c, v, rest),
        Some(Question::Groups) => push_order(text, group_order(alloc, c.groups())),
        Some(Question::Resources) => of_group(alloc, text, c, rest),
        Some(Question::Cycle) => push_cycle(alloc, text, c),
        None => Err(Fail::new("no question")),
    }
}
