// A client's request comes to the president.
ghost use Rattle.std.specs.Prelude.{◌≡◌, ◌++◌, ◌∷◌, [], Ok, OnOk};
ghost use Rattle.node_addresses.specs.Clients.{after_client, lines_for};
ghost use Rattle.node_model.specs.Addresses.{forgot_lines, on_client};
ghost use Rattle.node_model.specs.Plans.{Gives};
ghost use Rattle.node_model.specs.declared.output.Output.TheVariants.{Tells};
ghost use Rattle.rg_props.specs.Lookups.{named};
ghost use Rattle.status_report.specs.declared.address_entry.AddressEntry.TheVariants as line;
ghost use Rattle.status_report.specs.declared.entry.Entry.TheVariants as trace;

use address_targets::targets_of;
use ccr_tables::Config;
use cl_base::{Name, NodeId};
use node_decisions::in_force;
use node_model::{Cluster, Output, Presidency, UpNode, give};
use shared_address::{Choice, Client};
use status_report::{AddressEntry, Entry};
use std::alloc::{AllocError, Global};

/// A client's request of a shared address: the president chooses the node that serves it, and tells
/// that; before it the client that is forgotten, if one is. Any other node, and one that has no such
/// address, does nothing.
pub fn on_client(
    alloc: Global,
    cluster: &Cluster,
    up: &mut UpNode,
    address: &Name,
    client: u32,
    port: u16,
    out: &mut Vec<Output>,
) -> Result<(), AllocError>
    ensures plan { OnOk result (Gives (on_client cluster.now up.old address.now client port) out.old.items (Ok up.new) out.new.items) }
    ensures seat { up.new.seat ≡ up.old.seat }
{
    let Some(presidency) = &mut up.presidency else {
        return Ok(());
    };
    let config = in_force(alloc, cluster, &mut up.made, &up.seat)?;
    serve_under(alloc, config, presidency, address, client, port, out)?;
    Ok(())
}

#[tactic(auto, unfolding(crate::specs::Clients::after_client, crate::specs::Clients::lines_for))]
/// The same, where this is the configuration in force.
fn serve_under(
    alloc: Global,
    config: &Config,
    presidency: &mut Presidency,
    address: &Name,
    client: u32,
    port: u16,
    out: &mut Vec<Output>,
) -> Result<(), AllocError>
    ensures after { OnOk result (presidency.new ≡ after_client config.now presidency.old address.now client port (named config.now.addresses address.now)) }
    ensures told { OnOk result (out.new.items ≡ out.old.items ++ lines_for config.now presidency.old address.now client port (named config.now.addresses address.now)) }
{
    let Some(found) = config.address(address) else {
        return Ok(());
    };
    let targets = targets_of(alloc, config, presidency.groups.view(), found)?;
    let balancer = &mut presidency.balancer;
    match balancer.choose(address, found.policy, client, port, &targets) {
        Ok(choice) => tell_choice(address, client, port, choice, out),
        Err(_) => Err(AllocError),
    }
}

/// The client that is forgotten is told first, and then the node that serves.
fn tell_choice(
    address: &Name,
    client: u32,
    port: u16,
    choice: Choice,
    out: &mut Vec<Output>,
) -> Result<(), AllocError>
    ensures { OnOk result (out.new.items ≡ out.old.items ++ (forgot_lines address.now choice.forgot ++ Tells (trace.Address (line.Served address.now client port choice.node)) ∷ [])) }
{
    if let Some(forgot) = choice.forgot {
        tell_forgot(address, forgot, out)?;
    }
    tell_served(address, client, port, choice.node, out)
}

fn tell_forgot(address: &Name, forgot: Client, out: &mut Vec<Output>) -> Result<(), AllocError>
    ensures { OnOk result (out.new.items ≡ out.old.items ++ Tells (trace.Address (line.Forgot address.now forgot.address forgot.port)) ∷ []) }
{
    let entry = AddressEntry::Forgot {
        address: *address,
        client: forgot.address,
        port: forgot.port,
    };
    give(out, Output::Tells(Entry::Address(entry)))?;
    Ok(())
}

fn tell_served(
    address: &Name,
    client: u32,
    port: u16,
    node: Option<NodeId>,
    out: &mut Vec<Output>,
) -> Result<(), AllocError>
    ensures { OnOk result (out.new.items ≡ out.old.items ++ Tells (trace.Address (line.Served address.now client port node)) ∷ []) }
{
    let entry = AddressEntry::Served {
        address: *address,
        client,
        port,
        node,
    };
    give(out, Output::Tells(Entry::Address(entry)))?;
    Ok(())
}
