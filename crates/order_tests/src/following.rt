// An outlook that is brought up to date with an order, beside one that is found after it.
use crate::answers::{outlook, push_all_calls, resources};
use crate::view::put_order;
use crate::words::name;
use ccr_tables::Config;
use cl_base::Name;
use rg_view::GroupView;
use sequencer::{Outlook, is_in_order};
use std::alloc::Global;
use std::test::Fail;

fn follow(
    alloc: Global,
    c: &Config,
    v: &GroupView,
    order: &[Name],
    r: &[u8],
    o: &mut Outlook,
) -> Result<(), Fail> {
    if !is_in_order(c.groups(), order) {
        return Err(Fail::new("not in order"));
    }
    o.add_order(
        alloc,
        c.groups(),
        c.types(),
        c.limits(),
        v,
        order,
        &name(r)?,
    )?;
    Ok(())
}

fn calls(
    alloc: Global,
    c: &Config,
    v: &GroupView,
    o: &Outlook,
    order: &[Name],
) -> Result<Vec<u8>, Fail> {
    let mut text = Vec::new(alloc);
    push_all_calls(&mut text, c, v, o, order)?;
    Ok(text)
}

fn follow_and_tell(
    alloc: Global,
    c: &Config,
    v: &mut GroupView,
    order: &[Name],
    words: &[&[u8]],
    r: &[u8],
    kept: &mut Outlook,
) -> Result<Vec<u8>, Fail> {
    put_order(&mut v.outstanding, words)?;
    follow(alloc, c, v, order, r, kept)?;
    calls(alloc, c, v, kept, order)
}

/// By the outlook that was found before the order.
fn kept_calls(
    alloc: Global,
    c: &Config,
    v: &mut GroupView,
    order: &[Name],
    words: &[&[u8]],
    r: &[u8],
) -> Result<Vec<u8>, Fail> {
    let mut kept = outlook(alloc, c, v, order)?;
    follow_and_tell(alloc, c, v, order, words, r, &mut kept)
}

/// By one that is found as things stand.
fn found_calls(alloc: Global, c: &Config, v: &GroupView, order: &[Name]) -> Result<Vec<u8>, Fail> {
    let found = outlook(alloc, c, v, order)?;
    calls(alloc, c, v, &found, order)
}

fn by_both(
    alloc: Global,
    c: &Config,
    v: &mut GroupView,
    order: &[Name],
    words: &[&[u8]],
    r: &[u8],
) -> Result<(Vec<u8>, Vec<u8>), Fail> {
    let kept = kept_calls(alloc, c, v, order, words, r)?;
    let found = found_calls(alloc, c, v, order)?;
    Ok((kept, found))
}

fn after(
    alloc: Global,
    c: &Config,
    v: &mut GroupView,
    words: &[&[u8]],
    r: &[u8],
) -> Result<(Vec<u8>, Vec<u8>), Fail> {
    let order = resources(alloc, c)?;
    by_both(alloc, c, v, &order, words, r)
}

/// The order of these words is given: `give NODE METHOD RESOURCE`. The calls that are allowed then,
/// by the one outlook and by the other.
pub fn give(
    alloc: Global,
    c: &Config,
    v: &mut GroupView,
    words: &[&[u8]],
) -> Result<(Vec<u8>, Vec<u8>), Fail> {
    match words {
        [_, n, m, r] => after(alloc, c, v, &[*n, *m, *r], r),
        _ => Err(Fail::new("give")),
    }
}
