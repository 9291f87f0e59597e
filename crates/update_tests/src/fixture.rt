// A cluster and what updates make of it.
ghost use Rattle.std.specs.Prelude.{◌≤◌, length, IfOk};
ghost use Rattle.cl_base.specs.Limits.{most_devices};

use ccr_tables::Config;
use cl_base::{DeviceKind, Header, HeaderDevice, HeaderDevices, NodeSet, Version};
use std::alloc::Global;
use std::process::Abort;
use std::test::Fail;
use update_log::add;

/// Two nodes, and a quorum device of both: 3 votes, of which 2 are needed.
pub fn header(alloc: Global) -> Result<Header, Fail>
    ensures devices { IfOk result (λ h. length h.devices ≤ most_devices) }
{
    let both = NodeSet::first(2);
    let device = HeaderDevice {
        kind: DeviceKind::Quorum,
        attached: both,
    };
    Ok(Header {
        version: Version::One,
        cluster: 42,
        nodes: 2,
        configured: both,
        devices: HeaderDevices::new(vec![in alloc; device]?),
    })
}

/// The cluster's configuration before any update.
pub fn first(alloc: Global) -> Result<Config, Fail> {
    let header = header(alloc)?;
    Ok(Config::first(alloc, &header)?)
}

/// One more update, which is taken.
pub fn change(
    rt: &impl Abort,
    alloc: Global,
    config: &mut Config,
    text: &[u8],
) -> Result<(), Fail> {
    let taken = add(alloc, config, text)?;
    assert!(rt; taken);
    Ok(())
}
