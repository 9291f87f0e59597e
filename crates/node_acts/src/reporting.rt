// What a node reports of groups and resources.
ghost use Rattle.std.specs.Prelude.{◌≡◌, IfOk};
ghost use Rattle.rgm_member.specs.Reports.{report_of};
ghost use Rattle.node_model.specs.Configurations.{own_config};

use node_decisions::own_config;
use node_model::{Cluster, UpNode};
use std::alloc::{AllocError, Global};
use wire::Report;

/// What the node reports as it joins a membership, under its own configuration.
pub fn own_report(alloc: Global, cluster: &Cluster, up: &mut UpNode) -> Result<Report, AllocError>
    ensures value { IfOk result (λ report. report ≡ report_of up.old.worker (own_config cluster.now up.old)) }
    ensures same { up.new ≡ up.old }
{
    let config = own_config(alloc, cluster, &mut up.made, &up.seat)?;
    match up.worker.report(alloc, config) {
        Ok(report) => Ok(report),
        Err(_) => Err(AllocError),
    }
}
