// The president of a membership that starts.
ghost use Rattle.std.specs.Prelude.{◌≡◌, IfOk};
ghost use Rattle.node_model.specs.Attempts.{presiding};
ghost use Rattle.node_model.specs.Configurations.{own_config};
ghost use Rattle.rgm_president.specs.Acts.{president_of};

use crate::reported::reports;
use cl_base::NodeId;
use cmm_attempt::Attempt;
use node_acts::own_report;
use node_decisions::own_config;
use node_model::{Cluster, Presidency, UpNode};
use proposals::Proposals;
use rgm_president::President;
use sent_orders::SentOrders;
use shared_address::Balancer;
use std::alloc::{AllocError, Global};
use wire::Report;

/// What the coordinator has in hand as the president of the attempt's membership: it adopts what the
/// members report, under its own configuration. It is not the president yet.
pub fn preside(
    alloc: Global,
    cluster: &Cluster,
    me: NodeId,
    up: &mut UpNode,
    attempt: &Attempt,
) -> Result<Presidency, AllocError>
    ensures value { IfOk result (λ p. p ≡ presiding cluster.now me up.old attempt.now) }
    ensures same { up.new ≡ up.old }
{
    let own = own_report(alloc, cluster, up)?;
    let reports = reports(alloc, me, &own, attempt)?;
    let groups = adopt(alloc, cluster, up, attempt, &reports)?;
    Ok(Presidency {
        proposals: Proposals::new(alloc)?,
        held: attempt.held_devices(),
        groups,
        sent: SentOrders::new(),
        balancer: Balancer::new(alloc),
    })
}

/// What is known of groups as the membership starts.
fn adopt(
    alloc: Global,
    cluster: &Cluster,
    up: &mut UpNode,
    attempt: &Attempt,
    reports: &[(NodeId, Report)],
) -> Result<President, AllocError>
    ensures value { IfOk result (λ groups. groups ≡ president_of (own_config cluster.now up.old) attempt.now.plan.epoch attempt.now.plan.members reports.now up.old.second) }
    ensures same { up.new ≡ up.old }
{
    let config = own_config(alloc, cluster, &mut up.made, &up.seat)?;
    let (epoch, members) = (attempt.epoch(), attempt.members());
    match President::adopt(alloc, epoch, members, reports, config, up.second) {
        Ok(groups) => Ok(groups),
        Err(_) => Err(AllocError),
    }
}
