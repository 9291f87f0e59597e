// Messages to several members.
ghost use Rattle.std.specs.Prelude.{◌≡◌, ◌++◌, ◌∷◌, [], map, OnOk};
ghost use Rattle.wire.specs.declared.message.Body.TheVariants as body;
ghost use Rattle.node_model.specs.declared.output.Output.TheVariants.{Sends};
ghost use Rattle.node_model.specs.Presidents.{sent_to};

use crate::telling::copied;
use cl_base::{Bytes, Epoch, NodeId, NodeSet};
use node_model::{Output, give};
use std::alloc::{AllocError, Global};
use wire::Body;

/// An update is to be prepared by each of these, ascending.
pub fn send_prepares(
    alloc: Global,
    to: NodeSet,
    epoch: Epoch,
    place: u64,
    text: &Bytes,
    out: &mut Vec<Output>,
) -> Result<(), AllocError>
    ensures sent { OnOk result (out.new.items ≡ out.old.items ++ sent_to to (body.Prepare epoch place text.now)) }
{
    let receivers = to.nodes(alloc)?;
    prepare_each(alloc, &receivers, epoch, place, text, out)
}

fn prepare_each(
    alloc: Global,
    receivers: &[NodeId],
    epoch: Epoch,
    place: u64,
    text: &Bytes,
    out: &mut Vec<Output>,
) -> Result<(), AllocError>
    ensures sent { OnOk result (out.new.items ≡ out.old.items ++ map (λ n. Sends n (body.Prepare epoch place text.now)) receivers.now) }
{
    for n in receivers {
        send_prepare(alloc, *n, epoch, place, text, out)?;
    }
    Ok(())
}

fn send_prepare(
    alloc: Global,
    to: NodeId,
    epoch: Epoch,
    place: u64,
    text: &Bytes,
    out: &mut Vec<Output>,
) -> Result<(), AllocError>
    ensures sent { OnOk result (out.new.items ≡ out.old.items ++ Sends to (body.Prepare epoch place text.now) ∷ []) }
{
    let text = copied(alloc, text)?;
    let body = Body::Prepare { epoch, place, text };
    give(out, Output::Sends { to, body })?;
    Ok(())
}

/// The update at this place is committed: each of these is told, ascending.
pub fn send_commits(
    alloc: Global,
    to: NodeSet,
    epoch: Epoch,
    place: u64,
    out: &mut Vec<Output>,
) -> Result<(), AllocError>
    ensures sent { OnOk result (out.new.items ≡ out.old.items ++ sent_to to (body.Commit epoch place)) }
{
    let receivers = to.nodes(alloc)?;
    commit_each(&receivers, epoch, place, out)
}

fn commit_each(
    receivers: &[NodeId],
    epoch: Epoch,
    place: u64,
    out: &mut Vec<Output>,
) -> Result<(), AllocError>
    ensures sent { OnOk result (out.new.items ≡ out.old.items ++ map (λ n. Sends n (body.Commit epoch place)) receivers.now) }
{
    for n in receivers {
        send_commit(*n, epoch, place, out)?;
    }
    Ok(())
}

fn send_commit(
    to: NodeId,
    epoch: Epoch,
    place: u64,
    out: &mut Vec<Output>,
) -> Result<(), AllocError>
    ensures sent { OnOk result (out.new.items ≡ out.old.items ++ Sends to (body.Commit epoch place) ∷ []) }
{
    let body = Body::Commit { epoch, place };
    give(out, Output::Sends { to, body })?;
    Ok(())
}
