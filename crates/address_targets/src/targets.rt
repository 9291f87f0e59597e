ghost use Rattle.std.specs.Prelude.{◌≡◌, ◌++◌, ◌==◌, map, option_copied, IfOk, OnOk};
ghost use Rattle.std.specs.List.{find};
ghost use Rattle.std.specs.List.Sorted.{IsStrictlyIncreasing};
ghost use Rattle.shared_address.specs.Choosing.{HaveWeights};
ghost use Rattle.address_targets.specs.Targets.{is_chosen, is_target, target_on, targets_of, weight_of};

use ccr_tables::{Address, Config, Weight};
use cl_base::NodeId;
use placement::is_online;
use rg_view::GroupView;
use shared_address::Target;
use std::alloc::{AllocError, Global};

/// The nodes that may serve the clients of the address, ascending, each with its weight: the members
/// on which its group is online by what the president knows, and whose weight is positive.
pub fn targets_of(
    alloc: Global,
    config: &Config,
    view: &GroupView,
    address: &Address,
) -> Result<Vec<Target>, AllocError>
    ensures value { IfOk result (λ targets. targets.items ≡ targets_of config.now view.entry.now address.now) }
    ensures order { IfOk result (λ targets. IsStrictlyIncreasing (map (λ t. t.node) targets.items)) }
    ensures weights { IfOk result (λ targets. HaveWeights targets.items) }
{
    let members = view.members.nodes(alloc)?;
    let mut targets = Vec::new(alloc);
    for member in &members {
        add_target(config, view, address, *member, &mut targets)?;
    }
    Ok(targets)
}

/// The node behind the others, if it may serve.
fn add_target(
    config: &Config,
    view: &GroupView,
    address: &Address,
    n: NodeId,
    targets: &mut Vec<Target>,
) -> Result<(), AllocError>
    ensures { OnOk result (targets.new.items ≡ targets.old.items ++ target_on config.now view.entry.now address.now n) }
{
    let weight = weight_of(address.weights.items(), n);
    if is_online(config.groups(), view, &address.group, n) && is_chosen(weight) {
        targets.push(Target { node: n, weight })?;
    }
    Ok(())
}

/// The weight that was set for the node, and 1 where none was.
fn weight_of(weights: &[Weight], n: NodeId) -> u64
    ensures { result ≡ weight_of weights.now n }
{
    match weight_set(weights, n) {
        Some(set) => set.weight,
        None => 1,
    }
}

/// What was set for the node, if it was named.
fn weight_set(weights: &[Weight], n: NodeId) -> Option<&Weight>
    ensures { option_copied result ≡ find (λ w. w.node == n) weights.now }
{
    weights.iter().find(|w| w.node == n)
}

fn is_chosen(weight: u64) -> bool
    ensures { result ≡ is_chosen weight }
{
    1 <= weight && weight <= 1000
}
