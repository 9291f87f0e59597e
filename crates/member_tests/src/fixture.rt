// A cluster's configuration, a member of its first session, and orders to it.
ghost use Rattle.std.specs.Prelude.{◌≤◌, length};
ghost use Rattle.cl_base.specs.Limits.{most_devices};

use admin_words::parse;
use ccr_tables::{AdminCommand, Config};
use cl_base::{Bytes, Epoch, Header, HeaderDevices, Method, Name, NodeId, NodeSet, Version};
use rgm_member::Worker;
use std::alloc::Global;
use std::test::Fail;
use wire::Order;

/// The groups g and h, where h declares `+++g`; the resources r and q in g and s in h, of which q is
/// of a type that has no POSTNET_STOP.
pub const BASE: &[u8] =
    b"clrt register app script PRENET_START,START,MONITOR_START,MONITOR_STOP,STOP,POSTNET_STOP
clrt register net script PRENET_START,START,STOP
clrg create g 1
clrg create h 1
clrg set h RG_affinities +++g
clrs create r g app
clrs create q g net
clrs create s h app";

/// What r and s do when a method fails.
pub const NONE: &[u8] = b"clrs set r Failover_mode NONE
clrs set s Failover_mode NONE";

pub const SOFT: &[u8] = b"clrs set r Failover_mode SOFT
clrs set s Failover_mode SOFT";

pub const HARD: &[u8] = b"clrs set r Failover_mode HARD
clrs set s Failover_mode HARD";

fn header(alloc: Global) -> Header
    ensures devices { length result.devices ≤ most_devices }
{
    Header {
        version: Version::Two,
        cluster: 42,
        nodes: 2,
        configured: NodeSet::first(2),
        devices: HeaderDevices::new(Vec::new(alloc)),
    }
}

/// Two nodes, and nothing else.
pub fn first(alloc: Global) -> Result<Config, Fail> {
    Ok(Config::first(alloc, &header(alloc))?)
}

/// The update of these words is applied.
fn apply(alloc: Global, config: &mut Config, words: &[u8]) -> Result<(), Fail> {
    match parse(alloc, config.version(), words)? {
        AdminCommand::Change(u) => Ok(config.apply(&u)?),
        _ => Err(Fail::new("not an update")),
    }
}

/// These updates, one a line, are applied.
pub fn change(alloc: Global, config: &mut Config, lines: &[u8]) -> Result<(), Fail> {
    for line in lines.split(|b| *b == b'\n') {
        apply(alloc, config, line)?;
    }
    Ok(())
}

pub fn name(bytes: &[u8]) -> Result<Name, Fail> {
    Ok(Name::new(bytes)?)
}

pub fn epoch(number: u64) -> Epoch {
    Epoch::from_number(number)
}

/// Node 1, which is a member of the session 65.
pub fn member(alloc: Global) -> Result<Worker, Fail> {
    let mut worker = Worker::new(alloc, NodeId::new(1)?);
    worker.enter(epoch(65));
    Ok(worker)
}

/// An order of the session 65.
pub fn order(alloc: Global, number: u64, r: &[u8], method: Option<Method>) -> Result<Order, Fail> {
    Ok(Order {
        epoch: epoch(65),
        number,
        method,
        resource: Bytes::new(r.to_vec(alloc)?),
    })
}
