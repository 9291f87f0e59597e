ghost use Rattle.std.specs.Prelude.{◌≡◌};
ghost use Rattle.cmm_member.specs.Nodes.{has_key_of, joins, joining_one, joining_all};
ghost use Rattle.cmm_member.specs.Views.{devices_of, with_devices};

use crate::running::Running;
use cl_base::NodeId;
use wire::Reading;

/// Of the devices that were read, those are valid and joined from now on that the node joins by the
/// install itself; the others are neither.
pub fn join_devices(running: &mut Running, readings: &[Reading])
    ensures { running.new ≡ with_devices running.old (joining_all running.old.me (devices_of running.old) readings.now) }
{
    for reading in readings {
        join_device(running, reading);
    }
}

fn join_device(running: &mut Running, reading: &Reading)
    ensures { running.new ≡ with_devices running.old (joining_one running.old.me (devices_of running.old) reading.now) }
{
    let device = reading.device;
    if joins(running, reading) {
        running.durable.valid = running.durable.valid.with(device);
        running.joined = running.joined.with(device);
    } else {
        running.durable.valid = running.durable.valid.without(device);
        running.joined = running.joined.without(device);
    }
}

// It seized the device, or was seen there and held it valid.
fn joins(running: &Running, reading: &Reading) -> bool
    ensures { result ≡ joins running.now.me running.now.durable.valid reading.now }
{
    reading.seizer == running.me
        || has_key_of(running.me, reading.keys.items()) && running.durable.valid.has(reading.device)
}

fn has_key_of(me: NodeId, keys: &[u64]) -> bool
    ensures { result ≡ has_key_of me keys.now }
{
    keys.iter().any(|key| *key % (1 << 32) == me.number())
}
