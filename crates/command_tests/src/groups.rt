// 10 to 14: what goes by a group.
use crate::cases::{BOTH, expect};
use std::test::Fail;

const MANAGED: &[u8] = b"clrg delete busy|refused managed
clrg delete spare|ok
clrs delete cart|refused managed
clrs delete disk|ok";

const UNMANAGED: &[u8] = b"clrg online db|refused unmanaged
clrg online web|ok
clrg offline db|refused unmanaged
clrg offline web|ok
clrg suspend db|refused unmanaged
clrg suspend web|ok
clrg switch db 1|refused unmanaged
clrg switch web 1|ok
clrg remaster db|refused unmanaged
clrg remaster web|ok";

#[test]
fn managed_and_not(rt: HostRuntime) -> Result<(), Fail> {
    expect(&rt, rt.alloc(), b"", BOTH, MANAGED)?;
    expect(&rt, rt.alloc(), b"", BOTH, UNMANAGED)
}

const SAME: &[u8] = b"clrg manage web|refused same-value
clrg manage db|ok
clrg unmanage db|refused same-value
clrg unmanage web|ok
clrg resume web|refused same-value
clrs enable site|refused same-value
clrs disable site|ok
clrs monitor site|refused same-value
clrs unmonitor site|ok
clq enable device 2|refused same-value
clq disable device 2|ok
clq enable node 3|refused same-value
clq disable node 3|ok";

const TURNED: &[u8] = b"clrg suspend web
clrg online web
clrs disable site
clrs unmonitor site
clq disable device 2
clq disable node 3";

/// A group may be brought online again, and taken offline again.
const SAME_TURNED: &[u8] = b"clrg suspend web|refused same-value
clrg resume web|ok
clrg online web|ok
clrg offline web|ok
clrs disable site|refused same-value
clrs enable site|ok
clrs unmonitor site|refused same-value
clrs monitor site|ok
clq disable device 2|refused same-value
clq enable device 2|ok
clq disable node 3|refused same-value
clq enable node 3|ok";

#[test]
fn nothing_would_change(rt: HostRuntime) -> Result<(), Fail> {
    expect(&rt, rt.alloc(), b"", BOTH, SAME)?;
    expect(&rt, rt.alloc(), TURNED, BOTH, SAME_TURNED)
}

/// The Nodelists are 1 and 2; `busy` may be on two nodes, `web` on one.
const PLACES: &[u8] = b"clrg switch web 3|refused not-listed 3
clrg switch web 2|ok
clrg switch busy 1,3|refused not-listed 3
clrg switch web 1,2|refused too-many
clrg switch busy 1,2|ok";

#[test]
fn where_groups_may_be(rt: HostRuntime) -> Result<(), Fail> {
    expect(&rt, rt.alloc(), b"", BOTH, PLACES)
}
