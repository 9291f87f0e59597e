// The president takes up an update that is committed.
ghost use Rattle.std.specs.Prelude.{◌≡◌, OnOk};
ghost use Rattle.node_model.specs.Presidents.{balanced_under};
ghost use Rattle.node_presidents.specs.Presidents.{taken_under, taking_up};
ghost use Rattle.rgm_president.specs.Acts.{with_update};

use admin_words::{WordError, parse};
use ccr_tables::{AdminCommand, Config, Update};
use cl_base::Bytes;
use node_decisions::in_force;
use node_model::{Cluster, Presidency, UpNode};
use shared_address::Balancer;
use std::alloc::{AllocError, Global};

#[tactic(auto, unfolding(crate::specs::Presidents::taking_up))]
/// The president takes up the update of these words, which is committed. Any other node takes up nothing.
pub fn take_up(
    alloc: Global,
    cluster: &Cluster,
    up: &mut UpNode,
    text: &Bytes,
) -> Result<(), AllocError>
    ensures after { OnOk result (up.new ≡ taking_up cluster.now up.old text.now) }
    ensures seat { up.new.seat ≡ up.old.seat }
{
    let Some(presidency) = &mut up.presidency else {
        return Ok(());
    };
    let config = in_force(alloc, cluster, &mut up.made, &up.seat)?;
    take_under(alloc, cluster, config, presidency, text)?;
    Ok(())
}

/// The same, where this is the configuration in force.
fn take_under(
    alloc: Global,
    cluster: &Cluster,
    config: &Config,
    presidency: &mut Presidency,
    text: &Bytes,
) -> Result<(), AllocError>
    ensures after { OnOk result (presidency.new ≡ taken_under config.now cluster.now text.now presidency.old) }
{
    match parse(alloc, cluster.header.get().version, text.items()) {
        Ok(AdminCommand::Change(u)) => take_update(alloc, config, presidency, &u),
        Ok(AdminCommand::Act(_) | AdminCommand::Status(_) | AdminCommand::Rows(_)) => Ok(()),
        Err(WordError::NoMemory) => Err(AllocError),
        Err(WordError::UnknownCommand | WordError::MissingOperand | WordError::BadValue) => Ok(()),
    }
}

fn take_update(
    alloc: Global,
    config: &Config,
    presidency: &mut Presidency,
    u: &Update,
) -> Result<(), AllocError>
    ensures after { OnOk result (presidency.new ≡ record presidency.old { groups = with_update config.now u.now presidency.old.groups; balancer = balanced_under u.now presidency.old.balancer }) }
{
    balance(&mut presidency.balancer, u);
    match presidency.groups.changed(alloc, u, config) {
        Ok(()) => Ok(()),
        Err(_) => Err(AllocError),
    }
}

/// Of an address that is deleted nothing is kept.
fn balance(balancer: &mut Balancer, u: &Update)
    ensures after { balancer.new ≡ balanced_under u.now balancer.old }
{
    if let Update::DeleteAddress(name) = u {
        balancer.drop_address(name);
    }
}
