// The configurations of a node: that in force, and its own with the pending update.
ghost use Rattle.std.specs.Prelude.{◌≡◌, IfOk, OnOk};
ghost use Rattle.ccr_commit.specs.Entries.{texts_of};
ghost use Rattle.config_cache.specs.InForce.{config_under};
ghost use Rattle.node_model.specs.Presidents.{tidied};
ghost use Rattle.node_model.specs.Seats.{state_of};

use ccr_tables::Config;
use config_cache::ConfigCache;
use node_model::{Cluster, Seat, UpNode};
use std::alloc::{AllocError, Global};

/// The configuration in force at a node of this seat: that under its committed updates.
pub fn in_force<'a>(
    alloc: Global,
    cluster: &Cluster,
    made: &'a mut ConfigCache,
    seat: &Seat,
) -> Result<&'a Config, AllocError>
    ensures value { IfOk result (λ config. config.now ≡ config_under cluster.now.header (state_of seat.now).saved.entries.committed) }
{
    match made.committed(alloc, cluster.header.get(), seat.entries()) {
        Ok(config) => Ok(config),
        Err(_) => Err(AllocError),
    }
}

/// The node's own configuration: with the pending update, too.
pub fn own_config<'a>(
    alloc: Global,
    cluster: &Cluster,
    made: &'a mut ConfigCache,
    seat: &Seat,
) -> Result<&'a Config, AllocError>
    ensures value { IfOk result (λ config. config.now ≡ config_under cluster.now.header (texts_of (state_of seat.now).saved.entries)) }
{
    match made.all(alloc, cluster.header.get(), seat.entries()) {
        Ok(config) => Ok(config),
        Err(_) => Err(AllocError),
    }
}

/// The node keeps nothing of what its own configuration lacks.
pub fn tidy(alloc: Global, cluster: &Cluster, up: &mut UpNode) -> Result<(), AllocError>
    ensures after { OnOk result (up.new ≡ tidied cluster.now up.old) }
{
    let config = own_config(alloc, cluster, &mut up.made, &up.seat)?;
    up.worker.keep(config);
    Ok(())
}
