// Which calls are allowed, and which comes first. Nodes 1 and 2 are members. The calls are told node
// by node, on each in the order of resources.
use crate::scene::{script, table};
use cl_base::Version;
use std::test::Fail;

/// Group db with resource s and group web with resource r, of a type with START and STOP alone. The
/// goal of web is node 1, and db has none.
const R_IS_DOWN: &[u8] = b"clrt register app obedient START,STOP
clrg create db 1,2
clrg create web 1,2
clrs create s db app
clrs create r web app
goal web 1";

/// Each condition of START of r on node 1, met and not met.
const START: &[u8] = b"calls = 1 r START
members 2|calls =
goal web none|calls =
goal web 2|calls = 2 r START
clrg set web Nodelist 2|calls =
state r 2 stop-failed|calls =
state r 3 stop-failed|calls = 1 r START
state s 1 stop-failed|calls = 1 r START
state r 1 faulted|calls =
state r 2 faulted|calls = 1 r START
clrs disable r|calls =
restarting r 1|calls =
restarting r 2|calls = 1 r START
state r 2 run|calls = 2 r STOP
state r 2 run|clrg set web Maximum_primaries 2|calls = 1 r START 2 r STOP
order 2 START r|calls =
order 2 START r|clrg set web Maximum_primaries 2|calls = 1 r START
state r 3 run|calls = 1 r START
clnode create-loadlimit 1 mem 5 10|clrg set web Load_factors mem@11|calls =
clnode create-loadlimit 1 mem 5 10|clrg set web Load_factors mem@10|calls = 1 r START
clnode create-loadlimit 2 mem 5 10|clrg set web Load_factors mem@11|calls = 1 r START
clnode create-loadlimit 1 mem 5 10|clrg set web Load_factors mem@6|clrg set db Load_factors mem@5|goal db 1|state s 1 run|calls =
clnode create-loadlimit 1 mem 5 10|clrg set web Load_factors mem@6|clrg set db Load_factors mem@4|goal db 1|state s 1 run|calls = 1 r START
clnode create-loadlimit 1 mem 5 10|clrg set web Load_factors mem@6|clrg set db Load_factors mem@5|goal db 2|state s 2 run|calls = 1 r START
clrs set r Resource_dependencies s|calls =
clrs set r Resource_dependencies s|goal db 2|state s 2 run|calls = 1 r START
clrs set r Resource_dependencies s|goal db 2|state s 2 run|order 2 STOP s|calls =
clrs set r Resource_dependencies s|state s 2 run|calls = 2 s STOP
clrs set r Resource_dependencies s|goal db 2|state s 2 run|clrs disable s|calls = 2 s STOP
clrs set r Resource_dependencies s|clrg set db Maximum_primaries 2|goal db 1|state s 1 run|state s 2 run|calls = 1 r START 2 s STOP
clrs set r Resource_dependencies_offline_restart s|calls =
clrs set r Resource_dependencies_offline_restart s|goal db 2|state s 2 run|calls = 1 r START
clrs set r Resource_dependencies_offline_restart s|clrg set db Maximum_primaries 2|goal db 1|state s 1 run|state s 2 run|calls = 2 s STOP
clrs create q web app|clrs set q Resource_dependencies r|clrg set web Maximum_primaries 2|goal web 1,2|state r 2 run|calls = 1 r START 2 q START
clrg set web RG_dependencies db|calls =
clrg set web RG_dependencies db|goal db 2|state s 2 run|calls = 1 r START
clrg set web RG_dependencies db|clrs create t db app|goal db 2|state s 2 run|calls = 2 t START
clrg set web RG_dependencies db|clrs create t db app|clrs disable t|goal db 2|state s 2 run|calls = 1 r START
clrg set web RG_dependencies db|clrs disable s|goal db 2|calls =
clrg set web RG_affinities ++db|calls =
clrg set web RG_affinities ++db|goal db 1|state s 1 run|calls = 1 r START
clrg set web RG_affinities ++db|goal db 2|state s 2 run|calls =
clrg set web RG_affinities ++db|clrs create t db app|clrs disable t|goal db 1|state s 1 run|state t 1 run|calls = 1 t STOP
clrg set web RG_affinities +++db|goal db 1|state s 1 run|calls = 1 r START
clrg set web RG_affinities +++db|goal db 2|state s 2 run|calls =
clrg set web RG_affinities +++db|clrs create t db app|clrs disable t|goal db 1|state s 1 run|state t 1 run|calls = 1 t STOP
clrg set web RG_affinities --db|goal db 1|state s 1 run|calls =
clrg set web RG_affinities --db|goal db 2|state s 2 run|calls = 1 r START
clrg set web RG_affinities --db|order 1 START s|calls =
clrg set db RG_affinities --web|goal db 1|state s 1 run|calls =
clrg set db RG_affinities --web|goal db 2|state s 2 run|calls = 1 r START
clrg set web RG_affinities +db,-db|calls = 1 r START
clrg set web RG_affinities +db,-db|goal db 1|state s 1 run|calls = 1 r START
clrs set r Resource_dependencies_weak s|calls = 1 r START
clrs set r Resource_dependencies_weak s|goal db 2|calls = 2 s START
clrs set r Resource_dependencies_weak s|goal db 2|state s 2 run|calls = 1 r START
clrs set r Resource_dependencies_weak s|goal db 2|state s 2 run|order 2 STOP s|calls =
clrs create q web app|clrs set q Resource_dependencies_weak r|clrg set web Maximum_primaries 2|goal web 1,2|state r 2 run|calls = 1 r START 2 q START";

#[test]
fn conditions_of_start(rt: HostRuntime) -> Result<(), Fail> {
    table(&rt, rt.alloc(), R_IS_DOWN, START)
}

/// The same two groups; r has every method, and runs on node 1 without its monitor.
const R_RUNS: &[u8] = b"clrt register app obedient START,STOP
clrt register full obedient PRENET_START,START,MONITOR_START,MONITOR_STOP,STOP,POSTNET_STOP
clrg create db 1,2
clrg create web 1,2
clrs create s db app
clrs create r web full
goal web 1
state r 1 pre,run";

/// Each of the six reasons to go down, and each condition of STOP: of r on node 1, or of s.
const STOP: &[u8] = b"calls = 1 r MONITOR_START
goal web 2|calls = 1 r STOP
clrs disable r|calls = 1 r STOP
restarting r 1|calls = 1 r STOP
restarting r 2|calls = 1 r MONITOR_START
clrs set r Resource_dependencies s|calls = 1 r STOP
clrs set r Resource_dependencies s|goal db 2|state s 2 run|calls = 1 r MONITOR_START
clrs set r Resource_dependencies s|goal db 2|state s 2 run|clrs disable s|calls = 1 r STOP
clrs set r Resource_dependencies s|goal db 2|state s 2 run|order 2 STOP s|calls =
clrs set r Resource_dependencies s|clrg set db Maximum_primaries 2|goal db 1|state s 1 run|state s 2 run|calls = 1 r MONITOR_START 2 s STOP
clrs set r Resource_dependencies_offline_restart s|calls = 1 r STOP
clrs set r Resource_dependencies_offline_restart s|goal db 2|state s 2 run|calls = 1 r MONITOR_START
clrs set r Resource_dependencies_offline_restart s|clrg set db Maximum_primaries 2|goal db 1|state s 1 run|state s 2 run|calls = 1 r STOP 2 s STOP
clrg set web RG_affinities ++db|goal db 1|state s 1 run|calls = 1 r MONITOR_START
clrg set web RG_affinities ++db|state s 1 run|calls = 1 r STOP
clrg set web RG_affinities +++db|state s 1 run|calls = 1 r STOP
clrg set web RG_affinities ++db|state s 2 run|calls = 1 r MONITOR_START 2 s STOP
clrg set web RG_affinities +db,-db,--db|state s 1 run|calls = 1 s STOP 1 r MONITOR_START
goal web 2|state r 1 none|calls = 2 r PRENET_START
goal web 2|state r 1 pre,run,mon|calls = 1 r MONITOR_STOP
goal web 2|state r 2 stop-failed|calls =
goal web 2|state s 2 stop-failed|calls = 1 r STOP
goal web 2|members 2|calls = 2 r PRENET_START
clrs set r Resource_dependencies s|state s 2 run|calls = 1 r STOP
clrs set r Resource_dependencies s|state s 2 run|state r 1 pre|calls = 1 r POSTNET_STOP
clrs set r Resource_dependencies s|state s 2 run|state r 1 none|calls = 2 s STOP
clrs set r Resource_dependencies s|state s 2 run|state r 1 none|order 1 START r|calls =
clrs set r Resource_dependencies_offline_restart s|state s 2 run|calls = 1 r STOP
clrs set r Resource_dependencies_weak s|state s 2 run|calls = 1 r MONITOR_START 2 s STOP
clrs create q web app|clrs set q Resource_dependencies r|clrg set web Maximum_primaries 2|goal web 2|state q 1 run|state r 2 pre,run|calls = 1 q STOP 2 r MONITOR_START 2 q START
clrs create q web app|clrs set q Resource_dependencies r|clrg set web Maximum_primaries 2|goal web 2|state r 2 pre,run|calls = 1 r STOP 2 r MONITOR_START 2 q START
clrg set web RG_affinities ++db|state s 1 run|state r 1 none|calls = 1 s STOP
clrg set web RG_affinities ++db|state s 1 run|state r 1 none|order 1 START r|calls =
clrg set web RG_affinities +++db|state s 1 run|state r 1 none|order 1 START r|calls =
clrg set web RG_affinities --db|state s 1 run|state r 1 none|order 1 START r|calls = 1 s STOP
clrg set web RG_dependencies db|state s 2 run|calls = 1 r MONITOR_START 2 s STOP
clrg set web RG_dependencies db|state s 2 run|goal web none|state r 1 none|order 1 PRENET_START r|calls =
clrg set web RG_dependencies db|state s 2 run|goal web none|state r 1 none|order 1 START r|calls =
clrg set web RG_dependencies db|state s 2 run|goal web none|state r 1 none|calls = 2 s STOP
clrg set web RG_dependencies db|state s 2 run|order 1 MONITOR_START r|calls = 1 r MONITOR_START 2 s STOP
clrg set web RG_dependencies db|state s 2 run|order 1 STOP r|calls = 1 r MONITOR_START 2 s STOP
state s 2 run|state r 1 pre|order 1 START r|calls = 1 r START 2 s STOP
clrg set web RG_dependencies db|clrg set db Maximum_primaries 2|goal db 1|state s 1 run|state s 2 run|state r 1 pre|order 1 START r|calls = 1 r START 2 s STOP";

#[test]
fn conditions_of_stop(rt: HostRuntime) -> Result<(), Fail> {
    table(&rt, rt.alloc(), R_RUNS, STOP)
}

/// The methods of a type, and which of them come one after another.
const STEPS: &[u8] = b"state r 1 none|calls = 1 r PRENET_START
state r 1 pre|calls = 1 r START
state r 1 run|calls = 1 r MONITOR_START
state r 1 pre,run|calls = 1 r MONITOR_START
state r 1 pre,run,mon|calls =
state r 1 pre,run,monitor-failed|calls =
clrs unmonitor r|calls =
clrs unmonitor r|state r 1 pre,run,mon|calls = 1 r MONITOR_STOP
goal web 2|state r 1 pre,run,mon|calls = 1 r MONITOR_STOP
goal web 2|state r 1 pre,mon|calls = 1 r MONITOR_STOP
goal web 2|state r 1 pre,run|calls = 1 r STOP
goal web 2|state r 1 run|calls = 1 r STOP
goal web 2|state r 1 pre|calls = 1 r POSTNET_STOP
clrs delete s|clrs create s web app|state s 1 run|calls = 1 r MONITOR_START
clrs delete s|clrs create s web app|goal web 2|state s 1 run|state r 1 none|calls = 1 s STOP
clrs delete s|clrs create s web app|goal web 2|state s 1 pre|state r 1 none|calls =";

#[test]
fn steps_of_methods(rt: HostRuntime) -> Result<(), Fail> {
    table(&rt, rt.alloc(), R_RUNS, STEPS)
}

/// Up on node 1, and then down there. Node 2 waits, since the group may be up on one node.
const UP_AND_DOWN: &[u8] = b"state r 1 none
calls = 1 r PRENET_START
state r 1 pre
calls = 1 r START
state r 1 pre,run
calls = 1 r MONITOR_START
clrs unmonitor r
calls =
state r 1 pre,run,mon
calls = 1 r MONITOR_STOP
clrs monitor r
calls =
goal web 2
calls = 1 r MONITOR_STOP
state r 1 pre,run
calls = 1 r STOP
state r 1 pre
calls = 1 r POSTNET_STOP
order 1 POSTNET_STOP r
state r 1 none
calls =
done 1
calls = 2 r PRENET_START";

#[test]
fn one_step_after_the_other(rt: HostRuntime) -> Result<(), Fail> {
    script(&rt, rt.alloc(), Version::Two, R_RUNS, UP_AND_DOWN)
}

const FIRST_AND_LAST: &[u8] = b"goal db 1
next 1 = s START
next 2 =
state r 1 run
goal web none
next 1 = r STOP
state s 1 run
goal db none
next 1 = r STOP
state r 1 none
next 1 = s STOP";

#[test]
fn which_comes_first(rt: HostRuntime) -> Result<(), Fail> {
    script(&rt, rt.alloc(), Version::Two, R_IS_DOWN, FIRST_AND_LAST)
}
