// A request to seize a device.
ghost use Rattle.std.specs.Prelude.{◌≡◌, ◌++◌, ◌∷◌, [], true, OnOk, IfErr};
ghost use Rattle.cl_base.specs.Sets.{has};
ghost use Rattle.wire.specs.declared.message.Body.TheVariants as body;
ghost use Rattle.node_model.specs.declared.output.Output.TheVariants.{Sends};
ghost use Rattle.node_model.specs.declared.stop.Stop.TheVariants.{NoMemory};
ghost use Rattle.node_model.specs.Members.{on_request, on_seizing};
ghost use Rattle.node_model.specs.Plans.{Gives};
ghost use Rattle.node_model.specs.Left.{left_so};

use cl_base::{DevId, Epoch, NodeId, NodeSet, SeizeEnd};
use node_model::{Cluster, Output, Stop, UpNode, hand_over, send};
use seize::{Seize, SeizeKind, SeizeResult, told_result};
use std::alloc::Global;
use wire::{Body, SeizedResult};

/// What is to be seized.
#[derive(Clone, Copy)]
pub struct Request {
    /// For what.
    pub kind: SeizeKind,
    /// The attempt's epoch.
    pub epoch: Epoch,
    /// Its members.
    pub members: NodeSet,
    /// The device.
    pub device: DevId,
}

/// The node, which is one of the members, is asked to seize a device.
pub fn seize(
    alloc: Global,
    cluster: &Cluster,
    me: NodeId,
    mut up: UpNode,
    from: NodeId,
    request: Request,
    out: &mut Vec<Output>,
) -> Result<UpNode, Stop>
    requires member { has request.members me ≡ true }
    ensures follows { Gives (on_seizing cluster.now me up from request.kind request.epoch request.members request.device) out.old.items result out.new.items }
{
    let (epoch, device) = (request.epoch, request.device);
    if epoch == Epoch::zero() || up.seat.session() != epoch {
        return Ok(up);
    }
    let kept = up.tasks.seized(device);
    let taken = take_request(alloc, cluster, me, &mut up, from, request, kept, out);
    hand_over(up, taken)
}

/// The same in its session, where this is kept of the device's seizing.
fn take_request(
    alloc: Global,
    cluster: &Cluster,
    me: NodeId,
    up: &mut UpNode,
    from: NodeId,
    request: Request,
    kept: Option<SeizeResult>,
    out: &mut Vec<Output>,
) -> Result<(), Stop>
    requires member { has request.members me ≡ true }
    ensures { Gives (on_request cluster.now me up.old from request.kind request.epoch request.members request.device kept) out.old.items (left_so up.new result) out.new.items }
{
    let Request {
        kind,
        epoch,
        members,
        device,
    } = request;
    if let Some(ended) = kept {
        let outcome = told_result(alloc, &ended)?;
        return send_seized(out, from, epoch, device, outcome);
    }
    if up.seat.installed() == epoch {
        return send_seized(out, from, epoch, device, SeizeEnd::Fault);
    }
    let valid = up.seat.valid().has(device);
    let seizing = Seize::begin(kind, epoch, members, me, cluster.id, valid);
    up.tasks.seize(device, seizing)?;
    Ok(())
}

/// The node tells the coordinator how its seizing of the device has ended.
pub fn send_seized(
    out: &mut Vec<Output>,
    to: NodeId,
    epoch: Epoch,
    device: DevId,
    outcome: SeizedResult,
) -> Result<(), Stop>
    ensures sent { OnOk result (out.new.items ≡ out.old.items ++ Sends to (body.Seized epoch device outcome) ∷ []) }
    ensures only { IfErr result (λ e. e ≡ NoMemory) }
{
    let body = Body::Seized {
        epoch,
        device,
        outcome,
    };
    send(out, to, body)
}
