// What is not answered goes again.
ghost use Rattle.std.specs.Prelude.{◌≡◌, ◌++◌, OnOk, IfOk, [], if◌then◌else◌};
ghost use Rattle.node_model.specs.Updates.{prepares_again, prepares_of, request_again, request_again_to, with_later};
ghost use Rattle.node_model.specs.Seats.{coordinator_of, record_of};
ghost use Rattle.node_updates.specs.Again.{orders_due};
ghost use Rattle.proposals.specs.Proposing.{goes_again, ticked};
ghost use Rattle.request_queue.specs.Queue.{oldest};
ghost use Rattle.sent_orders.specs.Ticks as sent;
ghost use Rattle.sent_orders.specs.Ticks.{due};

use crate::queries::coordinator;
use cl_base::NodeSet;
use node_model::{Output, Presidency, UpNode, give};
use node_presidents::{copied, send_prepares};
use proposals::Proposed;
use std::alloc::{AllocError, Global};
use wire::Body;

/// What a president sends again at a tick, once it has carried out its own order.
#[derive(Drop)]
pub struct Again {
    /// The Prepares, to the members that are missing.
    pub prepares: Vec<Output>,
    /// The members to which their orders go again.
    pub orders: NodeSet,
}

/// A tick of the node: the oldest request goes again to another president, if it was not answered for
/// long. All that waits is a tick older. What a president is to send again is handed back.
pub fn tick_requests(
    alloc: Global,
    up: &mut UpNode,
    out: &mut Vec<Output>,
) -> Result<Again, AllocError>
    ensures told { OnOk result (out.new.items ≡ out.old.items ++ request_again up.old) }
    ensures after { OnOk result (up.new ≡ with_later up.old) }
    ensures prepares { IfOk result (λ again. again.prepares.items ≡ prepares_again up.old) }
    ensures orders { IfOk result (λ again. again.orders ≡ orders_due up.old.presidency) }
{
    let request_is_due = up.requests.tick();
    let Some(presidency) = &mut up.presidency else {
        if request_is_due {
            send_request(alloc, up, out)?;
        }
        return Ok(Again {
            prepares: Vec::new(alloc),
            orders: NodeSet::empty(),
        });
    };
    let Ticked {
        prepares_are_due,
        proposed,
        orders,
    } = tick_presidency(presidency);
    let prepares = prepares_if(prepares_are_due, alloc, up, proposed)?;
    Ok(Again { prepares, orders })
}

/// What a president has to send again.
struct Ticked {
    prepares_are_due: bool,
    proposed: Option<Proposed>,
    orders: NodeSet,
}

/// A tick of the presidency.
fn tick_presidency(presidency: &mut Presidency) -> Ticked
    ensures due { result.prepares_are_due ≡ goes_again presidency.old.proposals }
    ensures proposed { result.proposed ≡ presidency.old.proposals.proposed }
    ensures orders { result.orders ≡ due presidency.old.sent }
    ensures after { presidency.new ≡ record presidency.old { proposals = ticked presidency.old.proposals; sent = sent.ticked presidency.old.sent } }
{
    let prepares_are_due = presidency.proposals.tick();
    let proposed = presidency.proposals.proposed();
    let orders = presidency.sent.tick();
    Ticked {
        prepares_are_due,
        proposed,
        orders,
    }
}

/// The oldest request goes to the president, which is another node.
pub fn send_request(alloc: Global, up: &UpNode, out: &mut Vec<Output>) -> Result<(), AllocError>
    ensures sent { OnOk result (out.new.items ≡ out.old.items ++ request_again_to up.now (oldest up.now.requests) (coordinator_of up.now)) }
{
    let Some(oldest) = up.requests.oldest() else {
        return Ok(());
    };
    let Some(to) = coordinator(up) else {
        return Ok(());
    };
    let body = Body::Request {
        epoch: up.seat.session(),
        number: oldest.number,
        text: copied(alloc, &oldest.text)?,
    };
    give(out, Output::Sends { to, body })?;
    Ok(())
}

/// What is pending goes again to those that have not prepared it, if that is due.
fn prepares_if(
    due: bool,
    alloc: Global,
    up: &UpNode,
    proposed: Option<Proposed>,
) -> Result<Vec<Output>, AllocError>
    ensures value { IfOk result (λ prepares. prepares.items ≡ (if due then prepares_of up.now proposed (record_of up.now).entries.pending else [])) }
{
    let mut prepares = Vec::new(alloc);
    if due {
        prepare_again(alloc, up, proposed, &mut prepares)?;
    }
    Ok(prepares)
}

fn prepare_again(
    alloc: Global,
    up: &UpNode,
    proposed: Option<Proposed>,
    out: &mut Vec<Output>,
) -> Result<(), AllocError>
    ensures sent { OnOk result (out.new.items ≡ out.old.items ++ prepares_of up.now proposed (record_of up.now).entries.pending) }
{
    let Some(proposed) = proposed else {
        return Ok(());
    };
    let Some(text) = up.seat.entries().pending() else {
        return Ok(());
    };
    let epoch = up.seat.session();
    send_prepares(alloc, proposed.missing, epoch, proposed.place, text, out)
}
