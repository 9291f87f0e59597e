// 15 and 16: properties and their values.
use crate::cases::{BOTH, expect, expect_of_one};
use std::test::Fail;

const PROPERTIES: &[u8] = b"clrg set web Colour red|refused bad-property
clrg set web Retry_count 1|refused bad-property
clrg set web Priority 7|ok
clrg set web Load_factors mem@3|ok
clrs set site Failback TRUE|refused bad-property
clrs set site Retry_count 1|ok";

const OF_GROUPS: &[u8] = b"clrg set web Maximum_primaries 0|refused bad-setting
clrg set web Maximum_primaries 1|ok
clrg set web Maximum_primaries 32|ok
clrg set web Maximum_primaries 33|refused bad-setting
clrg set web Desired_primaries 2|refused bad-setting
clrg set busy Desired_primaries 2|ok
clrg set web RG_dependencies web|refused bad-setting
clrg set web RG_affinities ++web|refused bad-setting
clrg set web Failback true|refused bad-setting
clrg set web Failback TRUE|ok
clrg set web Priority 1001|refused bad-setting
clrg set web Priority 1000|ok";

const OF_OTHERS: &[u8] = b"clrs set site Retry_count 1001|refused bad-setting
clrs set site Retry_count 1000|ok
clrs set site Failover_mode hard|refused bad-setting
clrs set site Failover_mode HARD|ok
clrs set site Resource_dependencies site|refused bad-setting
clrs create new busy mover|refused bad-setting
clrs create new web mover|ok
clnode create-loadlimit 2 mem 3 2|refused bad-setting
clnode create-loadlimit 2 mem 2 2|ok
clsa weights ip 1@3|refused bad-setting
clsa weights ip 1@2|ok
clsa weights ip 1@2,3@2|refused bad-setting";

/// A group with a resource of a failover type is on one node.
const FAILOVER: &[u8] = b"clrg set db Maximum_primaries 2|refused bad-setting
clrg set db Maximum_primaries 1|ok
clrg set web Maximum_primaries 2|ok";

#[test]
fn bad_properties_and_settings(rt: HostRuntime) -> Result<(), Fail> {
    let a = rt.alloc();
    expect(&rt, a, b"", BOTH, PROPERTIES)?;
    expect(&rt, a, b"", BOTH, OF_GROUPS)?;
    expect(&rt, a, b"", BOTH, OF_OTHERS)?;
    expect(&rt, a, b"clrs create pump db mover", BOTH, FAILOVER)
}

const UNDER_ONE: &[u8] = b"clrg set g Priority 7|refused bad-property
clrg set g Load_factors mem@3|refused bad-property
clrg set g Maximum_primaries 17|refused bad-setting
clrg set g Maximum_primaries 16|ok";

#[test]
fn under_the_first_version(rt: HostRuntime) -> Result<(), Fail> {
    expect_of_one(&rt, rt.alloc(), b"clrg create g 1,2", BOTH, UNDER_ONE)
}
