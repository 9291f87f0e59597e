// One cache is asked again and again.
use crate::fixture::Step::{CommitPending, Count, MayFollow, Prepare};
use crate::fixture::Text::{Gone, One, Other};
use crate::fixture::{Step, expect};
use config_cache::ConfigCache;
use std::alloc::Global;
use std::process::Abort;
use std::test::Fail;

/// Two nodes and a device have three votes. An update counts once it is pending, and in force once
/// it is committed.
const ONE_BY_ONE: &[Step] = &[
    Count((0, 3), (0, 3)),
    Count((0, 3), (0, 3)),
    Prepare(1, One),
    Count((0, 3), (1, 3)),
    MayFollow(One, false),
    MayFollow(Other, true),
    Prepare(2, Other),
    Count((1, 3), (2, 3)),
    CommitPending,
    Count((2, 3), (2, 3)),
    Prepare(3, Gone),
    Count((2, 3), (1, 3)),
    MayFollow(One, true),
];

/// Another list, a shorter one, and one that is bad: no update of it is in force, and none may
/// follow.
const OTHERS: &[Step] = &[
    Prepare(1, Other),
    Count((0, 3), (1, 3)),
    CommitPending,
    Prepare(2, Other),
    Count((1, 3), (0, 3)),
    MayFollow(One, false),
    Prepare(3, One),
    Count((0, 3), (0, 3)),
];

fn lists(rt: &impl Abort, alloc: Global, cache: &mut ConfigCache) -> Result<(), Fail> {
    expect(rt, alloc, cache, 2, ONE_BY_ONE)?;
    expect(rt, alloc, cache, 2, OTHERS)?;
    expect(rt, alloc, cache, 2, ONE_BY_ONE)
}

#[test]
fn lists_of_one_cluster(rt: HostRuntime) -> Result<(), Fail> {
    let mut cache = ConfigCache::new();
    lists(&rt, rt.alloc(), &mut cache)
}

const OF_TWO: &[Step] = &[Count((0, 3), (0, 3))];

/// Three nodes and a device of three have five votes.
const OF_THREE: &[Step] = &[Count((0, 5), (0, 5))];

fn headers(rt: &impl Abort, alloc: Global, cache: &mut ConfigCache) -> Result<(), Fail> {
    expect(rt, alloc, cache, 2, OF_TWO)?;
    expect(rt, alloc, cache, 3, OF_THREE)?;
    expect(rt, alloc, cache, 2, OF_TWO)
}

#[test]
fn another_header(rt: HostRuntime) -> Result<(), Fail> {
    let mut cache = ConfigCache::new();
    headers(&rt, rt.alloc(), &mut cache)
}
