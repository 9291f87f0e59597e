// A configuration and what a president knows of its groups, which the steps of a table change and
// ask for.
ghost use Rattle.std.specs.Prelude.{◌≤◌, length};
ghost use Rattle.cl_base.specs.Limits.{most_devices};

use crate::answers::answer;
use crate::following::give;
use crate::view::alter;
use crate::words::parts;
use admin_words::parse;
use ccr_tables::{AdminCommand, Config};
use cl_base::{Header, HeaderDevices, NodeSet, Version};
use rg_view::GroupView;
use std::alloc::Global;
use std::process::Abort;
use std::test::Fail;

fn header(alloc: Global, version: Version) -> Header
    ensures devices { length result.devices ≤ most_devices }
{
    Header {
        version,
        cluster: 42,
        nodes: 3,
        configured: NodeSet::first(3),
        devices: HeaderDevices::new(Vec::new(alloc)),
    }
}

/// Three nodes, and nothing else.
fn first(alloc: Global, version: Version) -> Result<Config, Fail> {
    Ok(Config::first(alloc, &header(alloc, version))?)
}

/// The update of these words is applied.
fn apply(alloc: Global, c: &mut Config, words: &[u8]) -> Result<(), Fail> {
    match parse(alloc, c.version(), words)? {
        AdminCommand::Change(u) => Ok(c.apply(&u)?),
        _ => Err(Fail::new("not an update")),
    }
}

/// The words of an update, or of what changes in the view.
fn make(alloc: Global, c: &mut Config, v: &mut GroupView, words: &[u8]) -> Result<(), Fail> {
    if words.starts_with(b"cl") {
        apply(alloc, c, words)
    } else {
        alter(alloc, v, &parts(alloc, words, b' ')?)
    }
}

fn tell(
    alloc: Global,
    text: &mut Vec<u8>,
    c: &Config,
    v: &GroupView,
    question: &[u8],
) -> Result<(), Fail> {
    answer(alloc, text, c, v, &parts(alloc, question, b' ')?)
}

fn expect(
    rt: &impl Abort,
    alloc: Global,
    c: &Config,
    v: &GroupView,
    question: &[u8],
    wanted: &[u8],
) -> Result<(), Fail> {
    let mut text = Vec::new(alloc);
    tell(alloc, &mut text, c, v, question)?;
    assert_eq!(rt; text.as_slice(), wanted);
    Ok(())
}

/// The calls after an order, by both outlooks.
fn expect_given(
    rt: &impl Abort,
    alloc: Global,
    c: &Config,
    v: &mut GroupView,
    words: &[u8],
    wanted: &[u8],
) -> Result<(), Fail> {
    let (kept, found) = give(alloc, c, v, &parts(alloc, words, b' ')?)?;
    assert_eq!(rt; found.as_slice(), wanted);
    assert_eq!(rt; kept.as_slice(), wanted);
    Ok(())
}

/// The words of an order or of a question, and the answer.
fn compare(
    rt: &impl Abort,
    alloc: Global,
    c: &Config,
    v: &mut GroupView,
    words: &[u8],
    wanted: &[u8],
) -> Result<(), Fail> {
    if words.starts_with(b"give ") {
        expect_given(rt, alloc, c, v, words, wanted)
    } else {
        expect(rt, alloc, c, v, words, wanted)
    }
}

/// The words of a change; or those of an order or a question, `=` and the answer.
fn take(
    rt: &impl Abort,
    alloc: Global,
    c: &mut Config,
    v: &mut GroupView,
    sides: &[&[u8]],
) -> Result<(), Fail> {
    match sides {
        [words] => make(alloc, c, v, words),
        [words, wanted] => compare(rt, alloc, c, v, words.trim_ascii(), wanted.trim_ascii()),
        _ => Err(Fail::new("a step has one answer")),
    }
}

/// Steps between bars.
fn take_all(
    rt: &impl Abort,
    alloc: Global,
    c: &mut Config,
    v: &mut GroupView,
    steps: &[&[u8]],
) -> Result<(), Fail> {
    for step in steps {
        take(rt, alloc, c, v, &parts(alloc, step, b'=')?)?;
    }
    Ok(())
}

/// Lines of steps.
fn play(
    rt: &impl Abort,
    alloc: Global,
    c: &mut Config,
    v: &mut GroupView,
    lines: &[&[u8]],
) -> Result<(), Fail> {
    for line in lines {
        take_all(rt, alloc, c, v, &parts(alloc, line, b'|')?)?;
    }
    Ok(())
}

fn play_both(
    rt: &impl Abort,
    alloc: Global,
    c: &mut Config,
    v: &mut GroupView,
    base: &[u8],
    lines: &[u8],
) -> Result<(), Fail> {
    play(rt, alloc, c, v, &parts(alloc, base, b'\n')?)?;
    play(rt, alloc, c, v, &parts(alloc, lines, b'\n')?)
}

/// The members are nodes 1 and 2, and it is second 5000.
fn with_view(
    rt: &impl Abort,
    alloc: Global,
    c: &mut Config,
    base: &[u8],
    lines: &[u8],
) -> Result<(), Fail> {
    let mut v = GroupView::new(alloc, NodeSet::first(2));
    v.now = 5000;
    play_both(rt, alloc, c, &mut v, base, lines)
}

/// The lines hold one after the other, behind those of the base.
pub fn script(
    rt: &impl Abort,
    alloc: Global,
    version: Version,
    base: &[u8],
    lines: &[u8],
) -> Result<(), Fail> {
    let mut c = first(alloc, version)?;
    with_view(rt, alloc, &mut c, base, lines)
}

/// Each line holds on its own, behind the base.
pub fn table(rt: &impl Abort, alloc: Global, base: &[u8], lines: &[u8]) -> Result<(), Fail> {
    for line in &parts(alloc, lines, b'\n')? {
        script(rt, alloc, Version::Two, base, line)?;
    }
    Ok(())
}
