use crate::cases::{first, play};
use ccr_tables::{Config, table_named};
use cl_base::{Name, NodeId, Table, Version};
use std::alloc::Global;
use std::process::Abort;
use std::test::Fail;

fn name(bytes: &[u8]) -> Result<Name, Fail> {
    Ok(Name::new(bytes)?)
}

fn node(n: u64) -> Result<NodeId, Fail> {
    Ok(NodeId::new(n)?)
}

/// What is done with a configuration.
#[derive(Clone, Copy)]
enum Case {
    Groups,
    Properties,
    Failover,
    Resources,
    Nodes,
    Limits,
}

fn act(rt: &impl Abort, alloc: Global, config: &mut Config, case: Case) -> Result<(), Fail> {
    match case {
        Case::Groups => come_and_go(rt, alloc, config),
        Case::Properties => play(rt, alloc, config, PROPERTIES),
        Case::Failover => fail_over(rt, alloc, config),
        Case::Resources => use_resources(rt, alloc, config),
        Case::Nodes => change_nodes(rt, alloc, config),
        Case::Limits => limit_and_weigh(rt, alloc, config),
    }
}

// The one function that owns a configuration: each that does has a long proof.
fn run(rt: &impl Abort, alloc: Global, case: Case) -> Result<(), Fail> {
    let mut config = first(alloc)?;
    act(rt, alloc, &mut config, case)
}

const GROUPS: &[u8] = b"clrg create g 1,4|refused unknown 4
clrg create g 1,2|ok
clrg create g 1,2|refused exists
clrg create h 2|ok
clrg online x|refused unknown x
clrg unmanage g|refused same-value
clrg manage g|ok
clrg set h RG_affinities ++g|ok
clrg delete g|refused in-use h
clsa create a h LB_STICKY|ok
clrg delete h|refused in-use a
clsa delete a|ok
clrg delete h|ok
clrg switch g 1|ok";

/// Whether the group is managed, and wanted online.
fn standing(config: &Config, group: &[u8]) -> Result<Option<(bool, bool)>, Fail> {
    let group = config.groups().group(&name(group)?);
    Ok(group.map(|g| (g.managed, g.wanted)))
}

fn come_and_go(rt: &impl Abort, alloc: Global, config: &mut Config) -> Result<(), Fail> {
    play(rt, alloc, config, GROUPS)?;
    let generations = [
        config.generation(Table::Groups),
        config.generation(Table::Addresses),
    ];
    assert_eq!(rt; generations, [6, 2]);
    assert_eq!(rt; standing(config, b"g")?, Some((true, true)));
    Ok(())
}

#[test]
fn groups_come_and_go(rt: HostRuntime) -> Result<(), Fail> {
    run(&rt, rt.alloc(), Case::Groups)
}

const PROPERTIES: &[u8] = b"clrg create g 1,2|ok
clrg set x Priority 1|refused unknown x
clrg set g Prio 1|refused bad-property
clrg set g RG_dependencies x,y|refused unknown x
clrg set g RG_dependencies x,Y|refused bad-setting
clrg set g RG_dependencies g|refused bad-setting";

#[test]
fn properties_are_set(rt: HostRuntime) -> Result<(), Fail> {
    run(&rt, rt.alloc(), Case::Properties)
}

const FAILOVER: &[u8] = b"clrt register fail obedient START,STOP failover|ok
clrg create g 1,2|ok
clrg set g Maximum_primaries 2|ok
clrs create r g fail|refused bad-setting
clrg set g Maximum_primaries 1|ok
clrs create r g fail|ok
clrg set g Maximum_primaries 2|refused bad-setting
clrs set r Resource_dependencies s|refused unknown s
clrs set r Retry_count 7|ok";

fn fail_over(rt: &impl Abort, alloc: Global, config: &mut Config) -> Result<(), Fail> {
    play(rt, alloc, config, FAILOVER)?;
    let resource = config.groups().resource(&name(b"r")?);
    assert_eq!(rt; resource.map(|r| r.retry_count), Some(7));
    Ok(())
}

#[test]
fn failover_types_stay_on_one_node(rt: HostRuntime) -> Result<(), Fail> {
    run(&rt, rt.alloc(), Case::Failover)
}

const RESOURCES: &[u8] = b"clrg create g 1|ok
clrs create r x app|refused unknown x
clrs create r g app|refused unknown app
clrt register app obedient START,STOP|ok
clrt register app obedient START,STOP failover|refused exists
clrs create r g app|ok
clrs create s g app|ok
clrs create r g app|refused exists
clrt unregister app|refused in-use r
clrg delete g|refused in-use r
clrs set s Resource_dependencies_weak r|ok
clrs delete r|refused in-use s
clrs enable s|refused same-value
clrs disable s|ok
clrs delete s|ok
clrs delete r|ok
clrt unregister app|ok";

fn use_resources(rt: &impl Abort, alloc: Global, config: &mut Config) -> Result<(), Fail> {
    play(rt, alloc, config, RESOURCES)?;
    assert_eq!(rt; config.generation(Table::Resources), 6);
    Ok(())
}

#[test]
fn resources_come_and_go(rt: HostRuntime) -> Result<(), Fail> {
    run(&rt, rt.alloc(), Case::Resources)
}

const NODES: &[u8] = b"clq add 3|refused unknown 3
clq add 2|refused exists
clq enable device 2|refused same-value
clq add 1|ok
clq remove 2|ok
clq disable device 2|refused unknown 2
clnode add 3|refused exists
clnode add 5|refused unknown 5
clnode remove 2|ok
clnode add 4|ok
clnode add 2|ok";

fn expect_order(rt: &impl Abort, config: &Config) -> Result<(), Fail> {
    let order = [node(1)?, node(3)?, node(4)?, node(2)?];
    assert_eq!(rt; config.order(), order.as_slice());
    Ok(())
}

const VOTES: &[u8] = b"clq enable node 1|refused same-value
clq enable node 4|ok";

fn vote(rt: &impl Abort, alloc: Global, config: &mut Config) -> Result<(), Fail> {
    play(rt, alloc, config, VOTES)?;
    let votes = config.votes().node_vote(node(4)?);
    assert_eq!(rt; [votes, config.generation(Table::Infrastructure)], [1, 6]);
    Ok(())
}

/// Nodes come and go, and then votes.
fn change_nodes(rt: &impl Abort, alloc: Global, config: &mut Config) -> Result<(), Fail> {
    play(rt, alloc, config, NODES)?;
    expect_order(rt, config)?;
    vote(rt, alloc, config)
}

#[test]
fn nodes_and_devices(rt: HostRuntime) -> Result<(), Fail> {
    run(&rt, rt.alloc(), Case::Nodes)
}

const LIMITS: &[u8] = b"clnode create-loadlimit 1 mem 6 5|refused bad-setting
clnode create-loadlimit 2 mem 5 6|ok
clnode create-loadlimit 2 mem 6 5|refused exists
clnode delete-loadlimit 1 mem|refused unknown mem
clnode remove 2|ok";

/// The limits of a node are removed with it.
fn limit(rt: &impl Abort, alloc: Global, config: &mut Config) -> Result<(), Fail> {
    play(rt, alloc, config, LIMITS)?;
    assert_eq!(rt; config.limits().limit(node(2)?, &name(b"mem")?), None);
    Ok(())
}

const ADDRESSES: &[u8] = b"clsa create a g LB_STICKY|refused unknown g
clrg create g 3|ok
clnode remove 3|refused in-use g
clsa create a g LB_STICKY|ok
clsa create a g LB_STICKY|refused exists
clsa weights a 3@1,0@2|refused unknown 2
clsa weights a 3@3,0@3|refused bad-setting
clsa weights a 3@3,0@1|refused bad-setting
clrg set g Nodelist 3,1|ok
clsa weights a 3@3,0@1|ok";

fn weigh(rt: &impl Abort, alloc: Global, config: &mut Config) -> Result<(), Fail> {
    play(rt, alloc, config, ADDRESSES)?;
    let address = config.address(&name(b"a")?);
    assert_eq!(rt; address.map(|x| x.weights.items().len()), Some(2));
    Ok(())
}

fn limit_and_weigh(rt: &impl Abort, alloc: Global, config: &mut Config) -> Result<(), Fail> {
    limit(rt, alloc, config)?;
    weigh(rt, alloc, config)
}

#[test]
fn limits_and_addresses(rt: HostRuntime) -> Result<(), Fail> {
    run(&rt, rt.alloc(), Case::Limits)
}

#[test]
fn addresses_are_of_the_second_version(rt: HostRuntime) -> Result<(), Fail> {
    let addresses = name(b"addresses")?;
    assert_eq!(rt; table_named(Version::One, &addresses), None);
    assert_eq!(rt;
        table_named(Version::Two, &addresses),
        Some(Table::Addresses)
    );
    Ok(())
}
