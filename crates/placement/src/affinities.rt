// What a group's affinities say of a node.
ghost use Rattle.std.specs.Prelude.{◌≡◌};
ghost use Rattle.std.specs.Option.{option_map};
ghost use Rattle.placement.specs.Eligibility.{online_targets};
ghost use Rattle.placement.specs.Targets.{forbidding, forbids, forbids_node};

use crate::resources::is_online;
use cl_base::{Name, NodeId};
use rg_props::{Affine, Affinity, Group, Groups};
use rg_view::GroupView;

#[tactic(auto, unfolding(crate::specs::Targets::forbidding))]
/// The first target whose affinity forbids the node.
pub fn forbidding(view: &GroupView, own: &Group, n: NodeId) -> Option<Name>
    ensures { result ≡ forbidding view.entry.now own.now n }
{
    own.affinities
        .items()
        .iter()
        .find(|a| forbids_node(view, n, a))
        .map(|a| a.group)
}

fn forbids_node(view: &GroupView, n: NodeId, a: &Affine) -> bool
    ensures { result ≡ forbids_node view.entry.now n a.now }
{
    forbids(a.affinity, view.goals.goal(&a.group).has(n))
}

fn forbids(affinity: Affinity, there: bool) -> bool
    ensures { result ≡ forbids affinity there }
{
    match affinity {
        Affinity::PlusPlus | Affinity::PlusPlusPlus => !there,
        Affinity::MinusMinus => there,
        Affinity::Plus | Affinity::Minus => false,
    }
}

#[tactic(auto, unfolding(crate::specs::Eligibility::online_targets))]
/// How many targets of the affinity are online on the node.
pub fn online_targets(
    g: &Groups,
    view: &GroupView,
    own: &Group,
    affinity: Affinity,
    n: NodeId,
) -> u64
    ensures { result ≡ online_targets g.now view.entry.now own.now affinity n }
{
    own.affinities
        .items()
        .iter()
        .filter(|a| a.affinity.is(affinity) && is_online(g, view, &a.group, n))
        .count() as u64
}
