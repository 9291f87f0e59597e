// What is allowed after an order was given, by an outlook that was found before it. Nodes 1 and 2 are
// members.
use crate::scene::table;
use std::test::Fail;

/// Group db with resource s and group web with resource r, which runs on node 1.
const R_RUNS: &[u8] = b"clrt register app obedient START,STOP
clrg create db 1,2
clrg create web 1,2
clrs create s db app
clrs create r web app
goal db 1
goal web 1
state r 1 run";

/// A target that is on its way is not lost, whatever rests on it: by a dependency, or by an affinity
/// to a group that rests on it. What waited for a weak target comes up where the order takes its room.
const ON_THE_WAY: &[u8] = b"give 1 START s = 1 s START
clrs set r Resource_dependencies s|calls = 1 s START 1 r STOP|give 1 START s = 1 s START
clrs set r Resource_dependencies s|calls = 1 s START 1 r STOP|give 2 START s =
clrs set r Resource_dependencies_offline_restart s|calls = 1 s START 1 r STOP|give 1 START s = 1 s START
clrg create store 1,2|clrs create t store app|goal store 1|clrs set s Resource_dependencies t|clrg set web RG_affinities ++db|state s 1 run|calls = 1 t START 1 r STOP|give 1 START t = 1 t START
clrs set r Resource_dependencies_weak s|state r 1 none|clrg create aux 1,2|clrs create t aux app|goal aux 1|clnode create-loadlimit 1 mem 5 10|clrg set db Load_factors mem@5|clrg set aux Load_factors mem@6|calls = 1 s START 1 t START|give 1 START t = 1 r START 1 t START";

#[test]
fn targets_on_the_way(rt: HostRuntime) -> Result<(), Fail> {
    table(&rt, rt.alloc(), R_RUNS, ON_THE_WAY)
}

/// Four resources of one group, each resting on the one before; the last is not monitored yet.
const CHAIN: &[u8] = b"clrt register app obedient START,STOP,MONITOR_START,MONITOR_STOP
clrg create web 1,2
clrs create s web app
clrs create r web app
clrs create q web app
clrs create p web app
clrs set r Resource_dependencies s
clrs set q Resource_dependencies r
clrs set p Resource_dependencies q
goal web 1
state s 1 run,mon
state r 1 run,mon
state q 1 run,mon
state p 1 run";

/// While the first has an order nothing is started that rests on it, however far; and where it is on
/// its way nothing goes down for it.
const DOWN_THE_CHAIN: &[u8] = b"calls = 1 p MONITOR_START|give 1 MONITOR_STOP s =
calls = 1 p MONITOR_START|give 1 MONITOR_STOP r =
calls = 1 p MONITOR_START|give 1 MONITOR_START p = 1 p MONITOR_START
calls = 1 p MONITOR_START|give 2 START s = 1 p MONITOR_START
state s 1 none|calls = 1 s START 1 r MONITOR_STOP 1 q MONITOR_STOP 1 p STOP|give 1 START s = 1 s START";

#[test]
fn down_the_chain(rt: HostRuntime) -> Result<(), Fail> {
    table(&rt, rt.alloc(), CHAIN, DOWN_THE_CHAIN)
}
