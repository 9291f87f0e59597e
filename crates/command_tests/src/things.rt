// 7 to 9: what is not there, what is there already, and what is in use.
use crate::cases::{BOTH, expect};
use std::test::Fail;

const NAMES: &[u8] = b"clrt unregister nil|refused unknown nil
clrt unregister mover|ok
clrg delete nil|refused unknown nil
clrg set nil Failback TRUE|refused unknown nil
clrg set web RG_dependencies db,nil|refused unknown nil
clrg set web RG_dependencies db,idle|ok
clrg set web RG_affinities +db,++nil|refused unknown nil
clrg manage nil|refused unknown nil
clrg switch nil 1|refused unknown nil
clrs create new nil none|refused unknown nil
clrs create new web nil|refused unknown nil
clrs create new web app|ok
clrs delete nil|refused unknown nil
clrs set nil Retry_count 1|refused unknown nil
clrs set site Resource_dependencies disk,nil|refused unknown nil
clrs set site Resource_dependencies disk|ok
clrs enable nil|refused unknown nil
clrg remaster nil|refused unknown nil
clrg remaster web|ok
clrs clear nil 1|refused unknown nil
clnode delete-loadlimit 1 nil|refused unknown nil
clnode delete-loadlimit 2 mem|refused unknown mem
clnode delete-loadlimit 1 mem|ok
clsa create new nil LB_STICKY|refused unknown nil
clsa delete nil|refused unknown nil
clsa delete ip|ok
clsa weights nil 1@1|refused unknown nil";

/// The header has four nodes, and three are configured.
const NODES: &[u8] = b"clrg create new 1,4|refused unknown 4
clrg create new 1,3|ok
clrg set web Nodelist 2,4|refused unknown 4
clrg set web Nodelist 2,3|ok
clrg switch web 4,1|refused unknown 4
clrg evacuate 4|refused unknown 4
clrg evacuate 3|ok
clrs clear site 4|refused unknown 4
clq disable node 4|refused unknown 4
clq disable node 3|ok
clnode add 5|refused unknown 5
clnode add 4|ok
clnode remove 4|refused unknown 4
clnode create-loadlimit 4 mem 1 1|refused unknown 4
clnode create-loadlimit 3 mem 1 1|ok
clsa weights ip 1@1,1@4|refused unknown 4";

/// A device of the header may be added; the rest is for quorum devices.
const DEVICES: &[u8] = b"clq add 3|refused unknown 3
clq add 1|ok
clq remove 1|refused unknown 1
clq remove 2|ok
clq enable device 1|refused unknown 1
clq disable device 1|refused unknown 1
clq disable device 2|ok";

#[test]
fn what_is_not_there(rt: HostRuntime) -> Result<(), Fail> {
    expect(&rt, rt.alloc(), b"", BOTH, NAMES)?;
    expect(&rt, rt.alloc(), b"", BOTH, NODES)?;
    expect(&rt, rt.alloc(), b"", BOTH, DEVICES)
}

/// A resource may have the name of a group.
const THERE: &[u8] = b"clrt register app obedient START,STOP|refused exists
clrt register new obedient START,STOP|ok
clrg create web 1|refused exists
clrg create site 1|ok
clrs create site db app|refused exists
clrs create web db app|ok
clq add 2|refused exists
clnode add 3|refused exists
clnode create-loadlimit 1 mem 1 1|refused exists
clnode create-loadlimit 1 cpu 1 1|ok
clsa create ip web LB_STICKY|refused exists
clsa create web web LB_STICKY|ok";

#[test]
fn what_is_there_already(rt: HostRuntime) -> Result<(), Fail> {
    expect(&rt, rt.alloc(), b"", BOTH, THERE)
}

/// The first that uses it is told.
const USED: &[u8] = b"clrt unregister app|refused in-use site
clrt unregister lone|refused in-use disk
clrg delete web|refused in-use site
clrg delete db|refused in-use disk
clrg delete idle|refused in-use web
clrg delete front|refused in-use ip
clrg delete spare|ok
clrs delete site|refused in-use cart
clrs delete disk|ok
clnode remove 1|refused in-use web";

#[test]
fn what_is_in_use(rt: HostRuntime) -> Result<(), Fail> {
    expect(&rt, rt.alloc(), b"", BOTH, USED)?;
    let affine = b"clrg set db RG_affinities -spare".as_slice();
    let rows = b"clrg delete spare|refused in-use db".as_slice();
    expect(&rt, rt.alloc(), affine, BOTH, rows)
}
