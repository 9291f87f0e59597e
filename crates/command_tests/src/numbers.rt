// Of two refusals that fit, that of the lower number is told.
use crate::cases::{BOTH, Membership, expect, expect_with};
use cl_base::{Name, NodeId};
use rg_view::ResourceAt;
use std::test::Fail;

/// 7 and 8; 7 and 13; 7 and 15; 7 and 20; 8 and 16; 8 and 19; 9 and 10; 11 and 12; 11 and 13; 13 and
/// 14.
const EARLY: &[u8] = b"clrs create site nil app|refused unknown nil
clrg switch web 3,4|refused unknown 4
clrg set nil Colour red|refused unknown nil
clrs clear site 4|refused unknown 4
clrs create site busy mover|refused exists
clrs create disk db lone|refused exists
clrs delete site|refused in-use cart
clrg resume db|refused unmanaged
clrg switch db 3|refused unmanaged
clrg switch web 1,3|refused not-listed 3";

#[test]
fn lower_numbers_are_told(rt: HostRuntime) -> Result<(), Fail> {
    expect(&rt, rt.alloc(), b"", BOTH, EARLY)
}

/// The group of the resource is up on node 1.
fn up(resource: &[u8]) -> Result<ResourceAt, Fail> {
    let mut state = ResourceAt::unmarked(Name::new(resource)?, NodeId::new(1)?);
    state.run = true;
    Ok(state)
}

/// Node 1 alone holds nothing, and its record is full.
const WORST: Membership = Membership {
    members: 0b1,
    held: 0b0,
    length: 65_535,
};

/// 12 and 17; 16 and 17; 15 and 24; 7 and 17; 17 and 18; 17 and 24.
const OF_A_GROUP_THAT_IS_UP: &[u8] = b"clrg unmanage db|refused same-value
clrg set db Maximum_primaries 0|refused bad-setting
clrg set db Colour red|refused bad-property
clrs set disk Resource_dependencies nil|refused unknown nil
clrg set db RG_dependencies web|refused still-up
clrg set db Nodelist 1,2|refused still-up";

/// 9 and 21; 18 and 24; 19 and 24; 20 and no 24; 21 and 23; 22 and 23; 23 and 24; 24 and 25.
const WITH_A_FULL_RECORD: &[u8] = b"clnode remove 1|refused in-use web
clrg set idle RG_dependencies web|refused cycle web,idle
clrs create new db lone|refused single
clrs clear site 1|refused no-mark
clq disable node 1|refused node-is-member
clq add 1|refused device-not-held
clq disable device 2|refused lose-quorum 1 2
clnode remove 3|refused record-full 66056";

/// 21 and 25.
const THIRD_ALONE: Membership = Membership {
    members: 0b100,
    held: 0b0,
    length: 65_535,
};

const THIRD_TAKEN_OUT: &[u8] = b"clnode remove 3|refused node-is-member";

#[test]
fn lower_of_the_late_numbers(rt: HostRuntime) -> Result<(), Fail> {
    let a = rt.alloc();
    let before = b"clrg set web RG_dependencies db".as_slice();
    expect_with(
        &rt,
        a,
        before,
        &[up(b"disk")?],
        WORST,
        OF_A_GROUP_THAT_IS_UP,
    )?;
    expect(&rt, a, b"", WORST, WITH_A_FULL_RECORD)?;
    expect(&rt, a, b"", THIRD_ALONE, THIRD_TAKEN_OUT)
}
