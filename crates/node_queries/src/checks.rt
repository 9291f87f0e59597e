// Commands over the configuration in force.
ghost use Rattle.std.specs.Prelude.{◌≡◌, ◌⊎◌, ◌≤◌, Ok, Err, IfOk, IfErr};
ghost use Rattle.admin_commands.specs.Records.{most_bytes};
ghost use Rattle.admin_commands.specs.declared.error.CheckError.TheVariants as because;
ghost use Rattle.node_queries.specs.Checks.{checked_under, length_at};

use admin_commands::{Accepted, CheckError, check};
use ccr_tables::{AdminCommand, Config};
use cmm_member::full_record_length;
use node_model::{Cluster, Presidency, Seat};
use std::alloc::{AllocError, Global};

/// The most bytes that a record may have.
const MOST_BYTES: u64 = 65_536;

/// A president of this seat accepts the command under this configuration, or refuses it.
pub fn checked(
    alloc: Global,
    cluster: &Cluster,
    config: &Config,
    seat: &Seat,
    presidency: &Presidency,
    command: AdminCommand,
) -> Result<Accepted, CheckError>
    ensures accepted { IfOk result (λ a. checked_under cluster.now config.now seat.now presidency.now command ≡ Ok a) }
    ensures refused { IfErr result (λ e. (e ≡ because.NoMemory) ⊎ (checked_under cluster.now config.now seat.now presidency.now command ≡ Err e)) }
{
    let Ok(length) = record_length(alloc, cluster, seat) else {
        return Err(CheckError::NoMemory);
    };
    check(
        alloc,
        command,
        config,
        presidency.groups.view(),
        seat.members(),
        presidency.held,
        length,
    )
}

/// How long the node's record may become without what one more update adds.
fn record_length(alloc: Global, cluster: &Cluster, seat: &Seat) -> Result<u64, AllocError>
    ensures value { IfOk result (λ n. n ≡ length_at cluster.now seat.now) }
    ensures most { IfOk result (λ n. n ≤ most_bytes) }
{
    let length = full_record_length(alloc, cluster.nodes, cluster.devices, seat.entries())?;
    Ok(length.min(MOST_BYTES))
}
