// Commands that change a configuration, and the rows of its tables then.
ghost use Rattle.std.specs.Prelude.{◌≤◌, length, IfOk};
ghost use Rattle.cl_base.specs.Limits.{most_devices};
ghost use Rattle.cl_base.specs.declared.command.Table.TheVariants.{Infrastructure};
ghost use Rattle.ccr_rows.specs.Rows.{rows_of};
ghost use Rattle.ccr_text.specs.TableText.{AreRows};

use admin_words::parse;
use ccr_rows::table;
use ccr_tables::{AdminCommand, Config, table_named};
use ccr_text::{Row, print_table};
use cl_base::{DeviceKind, Header, HeaderDevice, HeaderDevices, Name, NodeSet, Table, Version};
use itoa::Buffer;
use row_laws::tables_have_their_form;
use std::alloc::Global;
use std::process::Abort;
use std::test::Fail;

fn device(kind: DeviceKind) -> HeaderDevice {
    HeaderDevice {
        kind,
        attached: NodeSet::first(2),
    }
}

/// Two nodes, both configured, and a device.
fn of_two(alloc: Global, version: Version, kind: DeviceKind) -> Result<Header, Fail>
    ensures devices { IfOk result (λ header. length header.devices ≤ most_devices) }
{
    let devices = HeaderDevices::new(vec![in alloc; device(kind)]?);
    Ok(Header {
        version,
        cluster: 42,
        nodes: 2,
        configured: NodeSet::first(2),
        devices,
    })
}

/// Five nodes, of which three are configured, a data device, a quorum device and a server.
fn of_five(alloc: Global) -> Result<Header, Fail>
    ensures devices { IfOk result (λ header. length header.devices ≤ most_devices) }
{
    let data = device(DeviceKind::Data);
    let quorum = device(DeviceKind::Quorum);
    let server = device(DeviceKind::Server);
    let devices = HeaderDevices::new(vec![in alloc; data, quorum, server]?);
    Ok(Header {
        version: Version::Two,
        cluster: 42,
        nodes: 5,
        configured: NodeSet::first(3),
        devices,
    })
}

fn header(alloc: Global, version: Version) -> Result<Header, Fail>
    ensures devices { IfOk result (λ header. length header.devices ≤ most_devices) }
{
    match version {
        Version::One => of_two(alloc, version, DeviceKind::Data),
        Version::Two => of_five(alloc),
    }
}

fn first(alloc: Global, version: Version) -> Result<Config, Fail> {
    let header = header(alloc, version)?;
    Ok(Config::first(alloc, &header)?)
}

fn tell_word(text: &mut Vec<u8>, word: &[u8], end: u8) -> Result<(), Fail> {
    text.extend_from_slice(word)?;
    Ok(text.push(end)?)
}

/// The rows' lines: key, tab, value, newline.
fn tell_rows(text: &mut Vec<u8>, rows: &[Row]) -> Result<(), Fail> {
    for row in rows {
        tell_word(text, row.key.items(), b'\t')?;
        tell_word(text, row.value.items(), b'\n')?;
    }
    Ok(())
}

/// The table's number, and its rows.
fn tell_table(alloc: Global, text: &mut Vec<u8>, config: &Config, t: Table) -> Result<(), Fail> {
    let (number, rows) = table(alloc, config, t)?;
    tell_word(text, Buffer::new().format(number).as_bytes(), b'\n')?;
    tell_rows(text, rows.items())
}

fn tell(alloc: Global, text: &mut Vec<u8>, config: &Config, name: &Name) -> Result<(), Fail> {
    match table_named(Version::Two, name) {
        Some(t) => tell_table(alloc, text, config, t),
        None => Err(Fail::new("no table")),
    }
}

/// An update changes the configuration, and a table that is asked for is told.
fn obey(
    alloc: Global,
    text: &mut Vec<u8>,
    config: &mut Config,
    command: &AdminCommand,
) -> Result<(), Fail> {
    match command {
        AdminCommand::Change(u) => Ok(config.apply(u)?),
        AdminCommand::Rows(name) => tell(alloc, text, config, name),
        _ => Err(Fail::new("neither an update nor a table")),
    }
}

fn take(alloc: Global, text: &mut Vec<u8>, config: &mut Config, words: &[u8]) -> Result<(), Fail> {
    let command = parse(alloc, config.version(), words)?;
    obey(alloc, text, config, &command)
}

fn take_all(
    alloc: Global,
    text: &mut Vec<u8>,
    config: &mut Config,
    lines: &[u8],
) -> Result<(), Fail> {
    for words in lines.split(|b| *b == b'\n') {
        take(alloc, text, config, words)?;
    }
    Ok(())
}

fn expect_text(rt: &impl Abort, text: &[u8], wanted: &[u8]) {
    assert!(rt; text == wanted);
}

fn expect_told(
    rt: &impl Abort,
    alloc: Global,
    config: &mut Config,
    lines: &[u8],
    wanted: &[u8],
) -> Result<(), Fail> {
    let mut text = Vec::new(alloc);
    take_all(alloc, &mut text, config, lines)?;
    expect_text(rt, text.as_slice(), wanted);
    Ok(())
}

/// The lines are commands to a new configuration. This is told of the tables that they ask for.
fn expect(
    rt: &impl Abort,
    alloc: Global,
    version: Version,
    lines: &[u8],
    wanted: &[u8],
) -> Result<(), Fail> {
    let mut config = first(alloc, version)?;
    expect_told(rt, alloc, &mut config, lines, wanted)
}

const NODES: &[u8] = b"ccr infrastructure
clnode create-loadlimit 3 mem 4 8
clnode create-loadlimit 2 mem 1 1
clnode create-loadlimit 1 cpu 0 1000000
clnode create-loadlimit 3 cpu 2 2
clnode delete-loadlimit 3 cpu
clnode add 4
clq enable node 4
clnode remove 2
clnode add 2
clq disable node 3
clq add 1
clq disable device 2
clq remove 3
ccr infrastructure";

const OF_NODES: &[u8] = b"0
node.1\t1
node.2\t1
node.3\t1
device.1\tabsent
device.2\tenabled
device.3\tenabled
13
node.1\t1
node.3\t0
node.4\t1
node.2\t0
device.1\tenabled
device.2\tdisabled
device.3\tabsent
load.3.mem\t4 8
load.1.cpu\t0 1000000
";

const TYPES: &[u8] = b"ccr types
clrt register web obedient STOP,START,UPDATE,BOOT,FINI,INIT,VALIDATE,POSTNET_STOP,MONITOR_STOP,MONITOR_CHECK,MONITOR_START,PRENET_START single
clrt register old obedient STOP,START single failover
clrt register app obedient STOP,START failover
clrt unregister old
ccr types";

const OF_TYPES: &[u8] = b"0
4
web\tobedient PRENET_START,START,MONITOR_START,MONITOR_CHECK,MONITOR_STOP,STOP,POSTNET_STOP,VALIDATE,INIT,FINI,BOOT,UPDATE single any
app\tobedient START,STOP multi failover
";

const GROUPS: &[u8] = b"clrg create g 2,1
clrg create x 3
clrg create h 1,2,3
clrg delete x
clrg manage h
clrg suspend h
clrg online g
clrg set h Maximum_primaries 3
clrg set h Desired_primaries 0
clrg set h RG_dependencies g,g
clrg set h RG_affinities +g,--g,+++g,-g,++g
clrg set h Pingpong_interval 60
clrg set h Failback TRUE
clrg set h Load_factors mem@6,cpu@0
clrg set h Priority 1000
ccr groups";

const OF_GROUPS: &[u8] = b"15
g.Nodelist\t2,1
g.Maximum_primaries\t1
g.Desired_primaries\t1
g.RG_dependencies\tnone
g.RG_affinities\tnone
g.Pingpong_interval\t3600
g.Failback\tFALSE
g.managed\tFALSE
g.wanted\tTRUE
g.Suspend_automatic_recovery\tFALSE
g.Load_factors\tnone
g.Priority\t500
h.Nodelist\t1,2,3
h.Maximum_primaries\t3
h.Desired_primaries\t0
h.RG_dependencies\tg,g
h.RG_affinities\t+g,--g,+++g,-g,++g
h.Pingpong_interval\t60
h.Failback\tTRUE
h.managed\tTRUE
h.wanted\tFALSE
h.Suspend_automatic_recovery\tTRUE
h.Load_factors\tmem@6,cpu@0
h.Priority\t1000
";

const RESOURCES: &[u8] = b"clrg create g 1
clrt register app obedient STOP,START
clrs create r g app
clrs create x g app
clrs create s g app
clrs delete x
clrs disable s
clrs unmonitor r
clrs set s Resource_dependencies r,r
clrs set s Resource_dependencies_weak r
clrs set s Resource_dependencies_offline_restart r,r,r
clrs set s Failover_mode RESTART_ONLY
clrs set s Retry_count 1000
clrs set s Retry_interval 0
ccr resources";

const OF_RESOURCES: &[u8] = b"12
r.group\tg
r.type\tapp
r.enabled\tTRUE
r.monitored\tFALSE
r.Resource_dependencies\tnone
r.Resource_dependencies_weak\tnone
r.Resource_dependencies_offline_restart\tnone
r.Failover_mode\tNONE
r.Retry_count\t2
r.Retry_interval\t300
s.group\tg
s.type\tapp
s.enabled\tFALSE
s.monitored\tTRUE
s.Resource_dependencies\tr,r
s.Resource_dependencies_weak\tr
s.Resource_dependencies_offline_restart\tr,r,r
s.Failover_mode\tRESTART_ONLY
s.Retry_count\t1000
s.Retry_interval\t0
";

const MODES: &[u8] = b"clrg create g 1
clrt register app obedient STOP,START
clrs create r g app
clrs set r Failover_mode SOFT
ccr resources
clrs set r Failover_mode HARD
ccr resources
clrs set r Failover_mode LOG_ONLY
ccr resources
clrs set r Failover_mode NONE
ccr resources";

const OF_MODES: &[u8] = b"2
r.group\tg
r.type\tapp
r.enabled\tTRUE
r.monitored\tTRUE
r.Resource_dependencies\tnone
r.Resource_dependencies_weak\tnone
r.Resource_dependencies_offline_restart\tnone
r.Failover_mode\tSOFT
r.Retry_count\t2
r.Retry_interval\t300
3
r.group\tg
r.type\tapp
r.enabled\tTRUE
r.monitored\tTRUE
r.Resource_dependencies\tnone
r.Resource_dependencies_weak\tnone
r.Resource_dependencies_offline_restart\tnone
r.Failover_mode\tHARD
r.Retry_count\t2
r.Retry_interval\t300
4
r.group\tg
r.type\tapp
r.enabled\tTRUE
r.monitored\tTRUE
r.Resource_dependencies\tnone
r.Resource_dependencies_weak\tnone
r.Resource_dependencies_offline_restart\tnone
r.Failover_mode\tLOG_ONLY
r.Retry_count\t2
r.Retry_interval\t300
5
r.group\tg
r.type\tapp
r.enabled\tTRUE
r.monitored\tTRUE
r.Resource_dependencies\tnone
r.Resource_dependencies_weak\tnone
r.Resource_dependencies_offline_restart\tnone
r.Failover_mode\tNONE
r.Retry_count\t2
r.Retry_interval\t300
";

const ADDRESSES: &[u8] = b"clrg create g 1,2,3
clsa create b g STICKY_PORT
clsa create x g LB_WEIGHTED
clsa create a g LB_WEIGHTED
clsa create d g LB_STICKY
clsa delete x
clsa weights a 1000@3,0@1
ccr addresses";

const OF_ADDRESSES: &[u8] = b"6
b.group\tg
b.policy\tSTICKY_PORT
b.weights\tnone
a.group\tg
a.policy\tLB_WEIGHTED
a.weights\t1000@3,0@1
d.group\tg
d.policy\tLB_STICKY
d.weights\tnone
";

const BOTH: &[u8] = b"clrg create g 2,1
clq add 1
clq disable node 2
ccr infrastructure
ccr groups";

const OF_BOTH: &[u8] = b"2
node.1\t1
node.2\t0
device.1\tenabled
1
g.Nodelist\t2,1
g.Maximum_primaries\t1
g.Desired_primaries\t1
g.RG_dependencies\tnone
g.RG_affinities\tnone
g.Pingpong_interval\t3600
g.Failback\tFALSE
g.managed\tFALSE
g.wanted\tFALSE
g.Suspend_automatic_recovery\tFALSE
";

const EMPTY: &[u8] = b"ccr types
ccr groups
ccr resources
ccr addresses";

const OF_EMPTY: &[u8] = b"0
0
0
0
";

#[test]
fn nodes_and_types(rt: HostRuntime) -> Result<(), Fail> {
    expect(&rt, rt.alloc(), Version::Two, NODES, OF_NODES)?;
    expect(&rt, rt.alloc(), Version::Two, TYPES, OF_TYPES)
}

#[test]
fn groups_resources_and_addresses(rt: HostRuntime) -> Result<(), Fail> {
    expect(&rt, rt.alloc(), Version::Two, GROUPS, OF_GROUPS)?;
    expect(&rt, rt.alloc(), Version::Two, RESOURCES, OF_RESOURCES)?;
    expect(&rt, rt.alloc(), Version::Two, ADDRESSES, OF_ADDRESSES)
}

#[test]
fn the_first_version(rt: HostRuntime) -> Result<(), Fail> {
    expect(&rt, rt.alloc(), Version::One, MODES, OF_MODES)?;
    expect(&rt, rt.alloc(), Version::One, BOTH, OF_BOTH)?;
    expect(&rt, rt.alloc(), Version::One, EMPTY, OF_EMPTY)
}

const TEXT_AT_FIRST: &[u8] = b"ccr_gennum 0
ccr_checksum 15f59bf3f234ab440546a9885701fc1e5a0ff4ce19d51ffb0e9ba14d9597b1f1
node.1\t1
node.2\t1
device.1\tenabled
";

fn printed(alloc: Global, config: &Config) -> Result<Vec<u8>, Fail>
    requires form { AreRows (rows_of config.now Infrastructure) }
{
    let (number, rows) = table(alloc, config, Table::Infrastructure)?;
    Ok(print_table(alloc, number, &rows)?)
}

fn expect_printed(rt: &impl Abort, alloc: Global, config: &Config) -> Result<(), Fail>
    requires form { AreRows (rows_of config.now Infrastructure) }
{
    let text = printed(alloc, config)?;
    expect_text(rt, text.as_slice(), TEXT_AT_FIRST);
    Ok(())
}

/// This is printed before any update.
fn expect_first(rt: &impl Abort, alloc: Global, header: &Header) -> Result<(), Fail>
    requires devices { length header.now.devices ≤ most_devices }
{
    let config = Config::first(alloc, header)?;
    tables_have_their_form();
    expect_printed(rt, alloc, &config)
}

#[test]
fn the_text_of_a_table(rt: HostRuntime) -> Result<(), Fail> {
    let one = of_two(rt.alloc(), Version::One, DeviceKind::Quorum)?;
    expect_first(&rt, rt.alloc(), &one)?;
    let two = of_two(rt.alloc(), Version::Two, DeviceKind::Quorum)?;
    expect_first(&rt, rt.alloc(), &two)
}
