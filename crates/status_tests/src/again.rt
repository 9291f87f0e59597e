// When orders go again.
use Step::{Due, Ended, Sent, Tick};
use cl_base::{NodeId, NodeSet};
use sent_orders::SentOrders;
use std::process::Abort;
use std::test::Fail;

/// What is done, or is so.
#[derive(Clone, Copy)]
enum Step {
    /// An order is sent to the node.
    Sent(u64),
    /// The node's order ends.
    Ended(u64),
    /// At the next tick orders to these nodes go again, in bits.
    Tick(u32),
    /// Whether the node's order goes again at the next tick.
    Due(u64, bool),
}

fn holds(orders: &mut SentOrders, step: Step) -> Result<bool, Fail> {
    match step {
        Sent(n) => orders.sent(NodeId::new(n)?),
        Ended(n) => orders.ended(NodeId::new(n)?),
        Tick(bits) => return Ok(orders.tick() == NodeSet::from_bits(bits)),
        Due(n, wanted) => return Ok(orders.is_due(NodeId::new(n)?) == wanted),
    }
    Ok(true)
}

/// The steps hold, one after the other.
fn expect(rt: &impl Abort, steps: &[Step]) -> Result<(), Fail> {
    let mut orders = SentOrders::new();
    for place in 0..steps.len() {
        let holds = holds(&mut orders, steps[place])?;
        assert!(rt; holds, "step {place}");
    }
    Ok(())
}

const FOURTH: &[Step] = &[
    Sent(1),
    Tick(0),
    Tick(0),
    Tick(0),
    Tick(0b1),
    Tick(0),
    Tick(0),
    Sent(32),
    Tick(0),
    Tick(0b1),
    Tick(0),
    Tick(1 << 31),
    Due(1, false),
    Tick(0),
    Tick(0b1),
];

#[test]
fn the_fourth_tick(rt: HostRuntime) -> Result<(), Fail> {
    expect(&rt, FOURTH)
}

const ENDED: &[Step] = &[
    Sent(1),
    Sent(2),
    Tick(0),
    Tick(0),
    Tick(0),
    Due(1, true),
    Ended(1),
    Due(1, false),
    Tick(0b10),
    Ended(2),
    Tick(0),
    Tick(0),
    Tick(0),
    Tick(0),
    Tick(0),
];

#[test]
fn an_order_that_ends(rt: HostRuntime) -> Result<(), Fail> {
    expect(&rt, ENDED)
}
