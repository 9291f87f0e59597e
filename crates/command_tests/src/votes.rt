// 21 to 23, and 25: votes. Each node has one, and so has device 2, of the nodes 1 and 2.
use crate::cases::{BOTH, Membership, expect};
use std::test::Fail;

/// This membership, with an empty record.
fn with(members: u32, held: u16) -> Membership {
    Membership {
        members,
        held,
        length: 0,
    }
}

const MEMBERS: &[u8] = b"clq disable node 2|refused node-is-member
clq disable node 3|ok";

const THIRD_IS_MEMBER: &[u8] = b"clnode remove 3|refused node-is-member
clq disable node 3|refused node-is-member
clq disable node 2|ok";

#[test]
fn nodes_that_are_members(rt: HostRuntime) -> Result<(), Fail> {
    expect(&rt, rt.alloc(), b"", BOTH, MEMBERS)?;
    expect(&rt, rt.alloc(), b"", with(0b101, 0b10), THIRD_IS_MEMBER)
}

const OUTSIDE: &[u8] = b"clnode remove 3|refused node-has-vote";

const WITHOUT_VOTE: &[u8] = b"clnode remove 3|ok";

#[test]
fn nodes_with_votes(rt: HostRuntime) -> Result<(), Fail> {
    expect(&rt, rt.alloc(), b"", BOTH, OUTSIDE)?;
    expect(&rt, rt.alloc(), b"clq disable node 3", BOTH, WITHOUT_VOTE)
}

const NOT_HELD: &[u8] = b"clq add 1|refused device-not-held
clq disable device 2|ok
clq remove 2|ok";

const HELD: &[u8] = b"clq add 1|ok";

const OFF_AND_NOT_HELD: &[u8] = b"clq enable device 2|refused device-not-held";

const OFF_AND_HELD: &[u8] = b"clq enable device 2|ok";

#[test]
fn devices_that_are_held(rt: HostRuntime) -> Result<(), Fail> {
    let off = b"clq disable device 2".as_slice();
    expect(&rt, rt.alloc(), b"", with(0b11, 0b10), NOT_HELD)?;
    expect(&rt, rt.alloc(), b"", with(0b11, 0b11), HELD)?;
    expect(&rt, rt.alloc(), off, with(0b11, 0b01), OFF_AND_NOT_HELD)?;
    expect(&rt, rt.alloc(), off, with(0b11, 0b10), OFF_AND_HELD)
}

/// Without the device 2 of 3 are needed. Without the vote of node 3 the others have 3 with the
/// device, of which 2 are needed; without that of node 2 the device has none.
const ALONE: &[u8] = b"clq disable device 2|refused lose-quorum 1 2
clq remove 2|refused lose-quorum 1 2
clq disable node 2|refused lose-quorum 1 2
clq disable node 3|ok";

const TWO: &[u8] = b"clq disable device 2|ok
clq remove 2|ok
clq disable node 3|ok";

/// With the vote of node 3 there are 4, of which 3 are needed.
const ENABLED_ALONE: &[u8] = b"clq enable node 3|refused lose-quorum 2 3";

const ENABLED_BY_TWO: &[u8] = b"clq enable node 3|ok";

/// With device 1 there are 5, of which 3 are needed.
const ADDED_ALONE: &[u8] = b"clq add 1|ok";

const ADDED_WITHOUT_THE_OTHER: &[u8] = b"clq add 1|refused lose-quorum 2 3";

#[test]
fn majorities_under_new_votes(rt: HostRuntime) -> Result<(), Fail> {
    let a = rt.alloc();
    let off = b"clq disable node 3".as_slice();
    expect(&rt, a, b"", with(0b1, 0b10), ALONE)?;
    expect(&rt, a, b"", with(0b11, 0b0), TWO)?;
    expect(&rt, a, off, with(0b1, 0b10), ENABLED_ALONE)?;
    expect(&rt, a, off, with(0b11, 0b10), ENABLED_BY_TWO)?;
    expect(&rt, a, b"", with(0b1, 0b11), ADDED_ALONE)?;
    expect(&rt, a, b"", with(0b1, 0b01), ADDED_WITHOUT_THE_OTHER)
}
