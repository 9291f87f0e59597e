// In which order groups and resources come, and the cycles that forbid one.
use crate::scene::script;
use cl_base::Version;
use std::test::Fail;

/// Four groups: b after a, and a after c.
const FOUR_GROUPS: &[u8] = b"clrg create a 1
clrg create b 1
clrg create c 1
clrg create d 1
clrg set a RG_affinities +b,--c
clrg set b RG_dependencies a";

const OF_GROUPS: &[u8] = b"groups = c a b d
cycle =
clrg set d Priority 501
groups = d c a b
cycle =
clrg set c RG_dependencies b
groups = cycle a c b
cycle = a c b";

#[test]
fn groups_after_their_targets(rt: HostRuntime) -> Result<(), Fail> {
    script(&rt, rt.alloc(), Version::Two, FOUR_GROUPS, OF_GROUPS)
}

/// Resources x and y of the first group, and z of the second.
const THREE_RESOURCES: &[u8] = b"clrt register app obedient START,STOP
clrg create web 1
clrg create db 1
clrs create x web app
clrs create y web app
clrs create z db app
clrs set x Resource_dependencies_weak z,y";

const OF_RESOURCES: &[u8] = b"resources web = y x
groups = db web
cycle =
clrs set y Resource_dependencies x
resources web = cycle x y
cycle = x y";

#[test]
fn resources_after_their_targets(rt: HostRuntime) -> Result<(), Fail> {
    script(&rt, rt.alloc(), Version::One, THREE_RESOURCES, OF_RESOURCES)
}
