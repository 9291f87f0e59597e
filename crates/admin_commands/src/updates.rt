// Why an update is refused: the first refusal in the order of their numbers.
ghost use Rattle.std.specs.Prelude.{◌≡◌, ◌≤◌, IfOk};
ghost use Rattle.admin_commands.specs.Answers.{first_refusal, late_refusal, refusal_in};

use crate::cycles::{cycle, single};
use crate::error::NoMemory;
use crate::managing::{managed, not_listed, too_many, unmanaged};
use crate::numbers::is_below;
use crate::records::record_full;
use crate::standing::still_up;
use crate::voting::{device_not_held, lose_quorum, node_has_vote, node_is_member};
use ccr_tables::{Config, Update};
use cl_base::{DevSet, NodeSet, Refusal};
use rg_view::GroupView;
use std::alloc::Global;

/// The first refusal of the update, if there is one.
pub fn refusal(
    alloc: Global,
    config: &Config,
    view: &GroupView,
    members: NodeSet,
    held: DevSet,
    length: u64,
    u: &Update,
) -> Result<Option<Refusal>, NoMemory>
    ensures { IfOk result (λ refusal.
        refusal ≡ refusal_in config.now view.entry.now members held length u.now) }
{
    let told = config.refusal(u)?;
    if is_below(&told, 10) {
        return Ok(told);
    }
    if let Some(refusal) = managed(config, u) {
        return Ok(Some(refusal));
    }
    if let Some(refusal) = unmanaged(config, u) {
        return Ok(Some(refusal));
    }
    if is_below(&told, 13) {
        return Ok(told);
    }
    if let Some(refusal) = not_listed(config, u) {
        return Ok(Some(refusal));
    }
    if let Some(refusal) = too_many(config, u) {
        return Ok(Some(refusal));
    }
    if is_below(&told, 17) {
        return Ok(told);
    }
    late_refusal(alloc, config, view, members, held, length, u)
}

/// The first refusal of the numbers 17 to 25.
fn late_refusal(
    alloc: Global,
    config: &Config,
    view: &GroupView,
    members: NodeSet,
    held: DevSet,
    length: u64,
    u: &Update,
) -> Result<Option<Refusal>, NoMemory>
    ensures { IfOk result (λ refusal.
        refusal ≡ late_refusal config.now view.entry.now members held length u.now) }
{
    if let Some(refusal) = still_up(alloc, config, view, members, u)? {
        return Ok(Some(refusal));
    }
    if let Some(refusal) = cycle(alloc, config, u)? {
        return Ok(Some(refusal));
    }
    if let Some(refusal) = single(config, u) {
        return Ok(Some(refusal));
    }
    if let Some(refusal) = node_is_member(members, u) {
        return Ok(Some(refusal));
    }
    if let Some(refusal) = device_not_held(held, u) {
        return Ok(Some(refusal));
    }
    if let Some(refusal) = lose_quorum(config, members, held, u) {
        return Ok(Some(refusal));
    }
    if let Some(refusal) = record_full(alloc, config, length, u)? {
        return Ok(Some(refusal));
    }
    Ok(node_has_vote(config, u))
}
