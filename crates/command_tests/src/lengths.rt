// 24: what the record has no room for. It may have 65,536 bytes.
use crate::cases::{Membership, expect, expect_of_one};
use std::test::Fail;

/// The record has this length.
fn long(length: u16) -> Membership {
    Membership {
        members: 0b11,
        held: 0b11,
        length,
    }
}

// Of each row: 9 and the two digits of 20, and its words. Of each group 64, of each resource 37: 384
// and 111 for those that are there.

/// 11 + 17 and 495.
const DISABLED: &[u8] = b"clrs disable site|ok";

const DISABLED_FULL: &[u8] = b"clrs disable site|refused record-full 65537";

/// 11 + 17 and 559.
const GROUP_MORE: &[u8] = b"clrg create new 1|ok";

const GROUP_MORE_FULL: &[u8] = b"clrg create new 1|refused record-full 65537";

/// 11 + 17 and 431.
const GROUP_LESS: &[u8] = b"clrg delete spare|ok";

const GROUP_LESS_FULL: &[u8] = b"clrg delete spare|refused record-full 65537";

#[test]
fn records_that_are_full(rt: HostRuntime) -> Result<(), Fail> {
    let a = rt.alloc();
    expect(&rt, a, b"", long(65_013), DISABLED)?;
    expect(&rt, a, b"", long(65_014), DISABLED_FULL)?;
    expect(&rt, a, b"", long(64_949), GROUP_MORE)?;
    expect(&rt, a, b"", long(64_950), GROUP_MORE_FULL)?;
    expect(&rt, a, b"", long(65_077), GROUP_LESS)?;
    expect(&rt, a, b"", long(65_078), GROUP_LESS_FULL)
}

/// 11 + 22 and 532.
const RESOURCE_MORE: &[u8] = b"clrs create new db app|ok";

const RESOURCE_MORE_FULL: &[u8] = b"clrs create new db app|refused record-full 65537";

/// 11 + 16 and 458.
const RESOURCE_LESS: &[u8] = b"clrs delete disk|ok";

const RESOURCE_LESS_FULL: &[u8] = b"clrs delete disk|refused record-full 65537";

/// What is no update takes no room.
const NO_UPDATES: &[u8] = b"clrg remaster web|ok
clrg evacuate 3|ok
clrg status|query";

#[test]
fn full_by_resources(rt: HostRuntime) -> Result<(), Fail> {
    let a = rt.alloc();
    expect(&rt, a, b"", long(64_971), RESOURCE_MORE)?;
    expect(&rt, a, b"", long(64_972), RESOURCE_MORE_FULL)?;
    expect(&rt, a, b"", long(65_051), RESOURCE_LESS)?;
    expect(&rt, a, b"", long(65_052), RESOURCE_LESS_FULL)?;
    expect(&rt, a, b"", long(65_535), NO_UPDATES)
}

/// 9 and the digit of 1, 15, and 64.
const FIRST: &[u8] = b"clrg create g 1|ok";

const FIRST_FULL: &[u8] = b"clrg create g 1|refused record-full 65537";

#[test]
fn full_at_the_first_update(rt: HostRuntime) -> Result<(), Fail> {
    let a = rt.alloc();
    expect_of_one(&rt, a, b"", long(65_447), FIRST)?;
    expect_of_one(&rt, a, b"", long(65_448), FIRST_FULL)
}
