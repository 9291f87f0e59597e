// Where a group may run, and which nodes are its goal. Nodes 1 and 2 are members, and it is second
// 5000; Pingpong_interval is 3600.
use crate::scene::{script, table};
use cl_base::Version;
use std::test::Fail;

/// Group web with resource r, and group db with resource s, both wanted on nodes 1 and 2.
const TWO_GROUPS: &[u8] = b"clrt register app obedient START,STOP
clrg create db 1,2
clrg create web 1,2
clrg manage db
clrg manage web
clrg online db
clrg online web
clrs create r web app
clrs create s db app";

/// Each reason is the first one that fits.
const EACH_REASON: &[u8] = b"place web 1 = 0 0 0
clrg unmanage web|place web 1 = unmanaged
clrg offline web|place web 1 = offline
clrg suspend web|place web 1 = suspended
clrs disable r|place web 1 = empty
clrs delete r|place web 1 = empty
members 2|place web 1 = not-member
state r 1 stop-failed|place web 1 = stop-failed
state r 2 stop-failed|place web 1 = stop-failed
state r 3 stop-failed|place web 1 = 0 0 0
state s 1 stop-failed|place web 1 = 0 0 0
evacuated web 1|place web 1 = evacuated
evacuated web 2|place web 1 = 0 0 0
history web 1 1401,1402 none|place web 1 = start-failed
history web 1 1400,1401 none|place web 1 = 1 0 0
history web 2 1401,1402 none|place web 1 = 0 0 0
history web 1 none 1401|place web 1 = moved
history web 1 none 1400|place web 1 = 0 0 0
history web 2 none 1401|place web 1 = 0 0 0
leaving web 1|place web 1 = leaving
leaving web 2|place web 1 = 0 0 0
clrg set web RG_affinities ++db|goal db 2|place web 1 = affinity db
clrg set web RG_affinities ++db|goal db 1|place web 1 = 0 0 0
clrg set web RG_affinities +++db|goal db 2|place web 1 = affinity db
clrg set web RG_affinities +++db|goal db 1|place web 1 = 0 0 0
clrg set web RG_affinities --db|goal db 1|place web 1 = affinity db
clrg set web RG_affinities --db|goal db 2|place web 1 = 0 0 0
clrg set web RG_affinities +db,-db|goal db 2|place web 1 = 0 0 0
clrg set web RG_dependencies db|place web 1 = dependency db
clrg set web RG_dependencies db|goal db 2|place web 1 = 0 0 0
clrs set r Resource_dependencies s|place web 1 = dependency s
clrs set r Resource_dependencies s|goal db 2|place web 1 = 0 0 0
clrs set r Resource_dependencies s|goal db 3|place web 1 = dependency s
clrs set r Resource_dependencies s|goal db 1|clrs disable s|place web 1 = dependency s
clrs set r Resource_dependencies_offline_restart s|place web 1 = dependency s
clrs set r Resource_dependencies_offline_restart s|goal db 2|place web 1 = 0 0 0
clrs set r Resource_dependencies_weak s|place web 1 = 0 0 0
clrs create q web app|clrs set r Resource_dependencies q|place web 1 = 0 0 0
clrs create q web app|clrs set r Resource_dependencies q|clrs disable q|place web 1 = dependency q
clnode create-loadlimit 1 mem 5 10|clrg set web Load_factors mem@11|place web 1 = load mem
clnode create-loadlimit 1 mem 5 10|clrg set web Load_factors mem@10|place web 1 = 0 1 0
clnode create-loadlimit 1 mem 5 10|clrg set web Load_factors mem@5|place web 1 = 0 0 0
clnode create-loadlimit 2 mem 5 10|clrg set web Load_factors mem@11|place web 1 = 0 0 0";

#[test]
fn each_reason(rt: HostRuntime) -> Result<(), Fail> {
    table(&rt, rt.alloc(), TWO_GROUPS, EACH_REASON)
}

/// Each reason comes before those that are there already.
const FIRST_REASONS: &[u8] = b"place web 1 = 0 0 0
clnode create-loadlimit 1 mem 5 10
clrg set web Load_factors mem@11
place web 1 = load mem
clrs set r Resource_dependencies s
place web 1 = dependency s
clrg set web RG_dependencies db
place web 1 = dependency db
clrg set web RG_affinities ++db
place web 1 = affinity db
leaving web 1
place web 1 = leaving
history web 1 none 1400,1401
place web 1 = moved
history web 1 1400,1401,6000 1401
place web 1 = start-failed
evacuated web 1
place web 1 = evacuated
state r 3 stop-failed
place web 1 = evacuated
state r 2 stop-failed
place web 1 = stop-failed
members 2
place web 1 = not-member
clrs disable r
place web 1 = empty
clrg suspend web
place web 1 = suspended
clrg offline web
place web 1 = offline
clrg unmanage web
place web 1 = unmanaged";

#[test]
fn which_reason_is_first(rt: HostRuntime) -> Result<(), Fail> {
    script(&rt, rt.alloc(), Version::Two, TWO_GROUPS, FIRST_REASONS)
}

const FLAGS: &[u8] = b"clrs delete r
clrg suspend web
clrg offline web
clrg unmanage web
place web 1 = unmanaged
clrg manage web
place web 1 = offline
clrg online web
place web 1 = suspended
clrg resume web
place web 3 = empty
clrs create r web app
place web 3 = not-member
place web 1 = 0 0 0
clrs disable r
place web 1 = empty";

#[test]
fn reasons_of_flags(rt: HostRuntime) -> Result<(), Fail> {
    script(&rt, rt.alloc(), Version::Two, TWO_GROUPS, FLAGS)
}

const NODES: &[u8] = b"leaving web 1
place web 1 = leaving
place web 2 = 0 0 0
history web 1 none 1400,1401
place web 1 = moved
history web 1 1400,1401,6000 none
place web 1 = start-failed
evacuated web 1
place web 1 = evacuated
state r 3 stop-failed
place web 2 = 0 0 0
state r 2 stop-failed
place web 1 = stop-failed
history web 2 1400,1401 none
state r 2 none
place web 2 = 1 0 0";

#[test]
fn reasons_of_nodes(rt: HostRuntime) -> Result<(), Fail> {
    script(&rt, rt.alloc(), Version::Two, TWO_GROUPS, NODES)
}

const AFFINITIES: &[u8] = b"goal db 1
clrg set web RG_affinities -db,++db
place web 1 = 0 0 0
place web 2 = affinity db
clrg set web RG_affinities +db,--db
place web 1 = affinity db
place web 2 = 0 0 0
state s 2 run
place web 2 = 0 0 1
clrg set web RG_affinities -db
place web 2 = 0 0 -1
goal db none
clrg set web RG_affinities +++db
place web 2 = affinity db";

#[test]
fn reasons_of_affinities(rt: HostRuntime) -> Result<(), Fail> {
    script(&rt, rt.alloc(), Version::Two, TWO_GROUPS, AFFINITIES)
}

const DEPENDENCIES: &[u8] = b"clrs set r Resource_dependencies_weak s
place web 1 = 0 0 0
clrs set r Resource_dependencies s
place web 1 = dependency s
goal db 3
place web 1 = dependency s
goal db 2
place web 1 = 0 0 0
clrs disable s
place web 1 = dependency s
goal db none
clrg set web RG_dependencies db
place web 1 = dependency db
goal db 3
clrs set r Resource_dependencies none
place web 1 = 0 0 0
clrs set r Resource_dependencies_offline_restart s
place web 1 = dependency s";

#[test]
fn reasons_of_dependencies(rt: HostRuntime) -> Result<(), Fail> {
    script(&rt, rt.alloc(), Version::Two, TWO_GROUPS, DEPENDENCIES)
}

/// Node 1 takes a load up to 10, of which each group brings 6. Group db is decided before web.
const LOADS: &[u8] = b"goal db none
goal web none
clnode create-loadlimit 1 mem 5 10
clrg set db Load_factors mem@6
clrg set web Load_factors mem@6
place web 1 = 0 1 0
goal-after web none = 2
goal db 1
place web 1 = load mem
place web 2 = 0 0 0
goal-after web 1 = 2
goal web 1
place db 1 = 0 1 0
fixed web = false
clrg suspend web
fixed web = true
place db 1 = load mem";

#[test]
fn reasons_of_loads(rt: HostRuntime) -> Result<(), Fail> {
    script(&rt, rt.alloc(), Version::Two, TWO_GROUPS, LOADS)
}

/// Node 4 is none of the Nodelist.
const GOALS: &[u8] = b"members 1,2,3
clrg set web Nodelist 3,1,2
goal-after web none = 3
goal-after web 2 = 2
goal-after web 1,2 = 1,2
clrg set web Maximum_primaries 2
clrg set web Desired_primaries 2
goal-after web none = 1,3
goal-after web 2,4 = 2,3
history web 3 4000 none
goal-after web none = 1,2
clrg suspend web
goal-after web 2,4 = 2
state r 1 run,stop-failed
goal-after web 2,4 = 2,4
clrg offline web
goal-after web 2,4 = none";

#[test]
fn goals(rt: HostRuntime) -> Result<(), Fail> {
    script(&rt, rt.alloc(), Version::Two, TWO_GROUPS, GOALS)
}

const SCORES: &[u8] = b"clrg set web RG_affinities +db
goal-after web none = 1
state s 2 run
goal-after web none = 2
clrg set web RG_affinities -db
goal-after web none = 1
state s 1 run
goal-after web none = 1
history web 1 4999 none
goal-after web none = 2
better web 2 1 = true
better web 1 2 = false";

#[test]
fn goals_by_scores(rt: HostRuntime) -> Result<(), Fail> {
    script(&rt, rt.alloc(), Version::Two, TWO_GROUPS, SCORES)
}
