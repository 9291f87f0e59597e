// A cluster, and a configuration with something of each kind.
ghost use Rattle.std.specs.Prelude.{◌≤◌, length, IfOk};
ghost use Rattle.cl_base.specs.Limits.{most_devices};

use ccr_tables::Config;
use cl_base::{DeviceKind, Header, HeaderDevice, HeaderDevices, NodeSet, Version};
use std::alloc::Global;
use std::process::Abort;
use std::test::Fail;
use update_log::add;

/// Four nodes, of which three are configured; a data device and a quorum device, both of the nodes
/// 1 and 2. There are 4 votes, of which 3 are needed.
fn header(alloc: Global, version: Version) -> Result<Header, Fail>
    ensures devices { IfOk result (λ h. length h.devices ≤ most_devices) }
{
    let attached = NodeSet::first(2);
    let data = HeaderDevice {
        kind: DeviceKind::Data,
        attached,
    };
    let quorum = HeaderDevice {
        kind: DeviceKind::Quorum,
        attached,
    };
    Ok(Header {
        version,
        cluster: 42,
        nodes: 4,
        configured: NodeSet::first(3),
        devices: HeaderDevices::new(vec![in alloc; data, quorum]?),
    })
}

/// The cluster's configuration before any update.
pub fn first(alloc: Global, version: Version) -> Result<Config, Fail> {
    let header = header(alloc, version)?;
    Ok(Config::first(alloc, &header)?)
}

/// Six groups, of which `web` and `busy` are managed; `web` comes after `idle`, and its `cart` after
/// its `site`. These are 19 updates.
pub const BASE: &[u8] = b"clrt register app obedient START,STOP
clrt register lone obedient START,STOP single
clrt register mover obedient START,STOP failover
clrg create web 1,2
clrg create db 1,2
clrg create idle 1
clrg create busy 1,2
clrg create spare 1
clrg create front 1,2
clrs create site web app
clrs create cart web app
clrs create disk db lone
clrg set web RG_dependencies idle
clrg set busy Maximum_primaries 2
clrs set cart Resource_dependencies site
clrg manage web
clrg manage busy
clnode create-loadlimit 1 mem 5 9
clsa create ip front LB_WEIGHTED";

/// These updates, one a line, are taken.
pub fn change(
    rt: &impl Abort,
    alloc: Global,
    config: &mut Config,
    lines: &[u8],
) -> Result<(), Fail> {
    for line in lines.split(|b| *b == b'\n') {
        if !line.is_empty() {
            let taken = add(alloc, config, line)?;
            assert!(rt; taken);
        }
    }
    Ok(())
}
