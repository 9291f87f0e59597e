// What a node tells of the methods that it calls.
ghost use Rattle.std.specs.Prelude.{◌≡◌, ◌++◌, ◌∷◌, [], OnOk};
ghost use Rattle.status_report.specs.declared.call_entry.CallEntry.TheVariants as call;
ghost use Rattle.status_report.specs.declared.entry.Entry.TheVariants as entry;
ghost use Rattle.node_model.specs.declared.output.Output.TheVariants.{Tells};
ghost use Rattle.node_model.specs.Groups.{call_told, order_told};

use cl_base::{Epoch, Method, Name, NodeId, Outcome};
use node_model::{Output, give};
use rgm_member::Carried;
use status_report::{CallEntry, Entry};
use std::alloc::AllocError;
use wire::Order;

/// What is told of an order that came to this: the call of its method, where one was called.
pub(crate) fn tell_order(
    me: NodeId,
    order: &Order,
    resource: &Name,
    carried: Carried,
    out: &mut Vec<Output>,
) -> Result<(), AllocError>
    requires name { order.now.resource ≡ resource.now }
    ensures told { OnOk result (out.new.items ≡ out.old.items ++ order_told me order.now carried) }
{
    match carried {
        Carried::Called(outcome) => tell_called(me, order, resource, outcome, out),
        Carried::Cleared | Carried::Kept(_) | Carried::Old => Ok(()),
    }
}

fn tell_called(
    me: NodeId,
    order: &Order,
    resource: &Name,
    outcome: Outcome,
    out: &mut Vec<Output>,
) -> Result<(), AllocError>
    requires name { order.now.resource ≡ resource.now }
    ensures told { OnOk result (out.new.items ≡ out.old.items ++ call_told me order.now outcome order.now.method) }
{
    match order.method {
        Some(method) => tell_call(me, order.epoch, method, *resource, outcome, out),
        None => Ok(()),
    }
}

/// The method is called, and ended so.
fn tell_call(
    node: NodeId,
    epoch: Epoch,
    method: Method,
    resource: Name,
    outcome: Outcome,
    out: &mut Vec<Output>,
) -> Result<(), AllocError>
    ensures told { OnOk result (out.new.items ≡ out.old.items ++ Tells (entry.Call (call.Called epoch node method resource)) ∷ Tells (entry.Call (call.Done epoch node method resource outcome)) ∷ []) }
{
    give(
        out,
        Output::Tells(Entry::Call(CallEntry::Called {
            epoch,
            node,
            method,
            resource,
        })),
    )?;
    give(
        out,
        Output::Tells(Entry::Call(CallEntry::Done {
            epoch,
            node,
            method,
            resource,
            outcome,
        })),
    )?;
    Ok(())
}
