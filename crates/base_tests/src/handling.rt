use cl_base::{Bytes, NodeId, NodeSet};
use proposals::{Arrival, Arrived, Proposals};
use std::alloc::Global;
use std::process::Abort;
use std::test::Fail;

/// The number of a node, that of its request, and what the request is.
type Row = (u64, u64, Arrival);

fn arrives(
    alloc: Global,
    proposals: &mut Proposals,
    from: NodeId,
    number: u64,
) -> Result<Arrival, Fail> {
    Ok(proposals.arrive(Arrived {
        from,
        number,
        text: Bytes::new(b"clrg online g".to_vec(alloc)?),
    })?)
}

/// The requests come, one after another.
fn expect_arrivals(
    rt: &impl Abort,
    alloc: Global,
    proposals: &mut Proposals,
    rows: &[Row],
) -> Result<(), Fail> {
    for (from, number, wanted) in rows {
        let from = NodeId::new(*from)?;
        assert!(rt; arrives(alloc, proposals, from, *number)? == *wanted);
    }
    Ok(())
}

/// What the requests would be.
fn expect_known(rt: &impl Abort, proposals: &Proposals, rows: &[Row]) -> Result<(), Fail> {
    for (from, number, wanted) in rows {
        let found = proposals.arrival(NodeId::new(*from)?, *number);
        assert!(rt; found == *wanted);
    }
    Ok(())
}

/// The number of the request, 0 for none.
fn number_of(request: Option<Arrived>) -> u64 {
    match request {
        Some(request) => request.number,
        None => 0,
    }
}

/// The request of this number is answered with the text; 0 for none.
fn expect_answered(
    rt: &impl Abort,
    alloc: Global,
    proposals: &mut Proposals,
    text: &[u8],
    wanted: u64,
) -> Result<(), Fail> {
    let text = Bytes::new(text.to_vec(alloc)?);
    assert!(rt; number_of(proposals.answer(text)) == wanted);
    Ok(())
}

/// The node of the request that is handled, 0 for none.
fn first_node(proposals: &Proposals) -> u64 {
    match proposals.first() {
        Some(request) => request.from.number(),
        None => 0,
    }
}

const TWO_NODES: &[Row] = &[
    (1, 1, Arrival::New),
    (2, 1, Arrival::New),
    (1, 1, Arrival::Waits),
    (2, 2, Arrival::Waits),
];

const ONE_IS_ANSWERED: &[Row] = &[
    (1, 1, Arrival::Answered),
    (1, 2, Arrival::New),
    (2, 1, Arrival::Waits),
];

const THIRD: &[Row] = &[(1, 3, Arrival::New)];

const THIRD_IS_ANSWERED: &[Row] = &[(1, 2, Arrival::Past)];

fn handle(rt: &impl Abort, alloc: Global, proposals: &mut Proposals) -> Result<(), Fail> {
    expect_arrivals(rt, alloc, proposals, TWO_NODES)?;
    expect_answered(rt, alloc, proposals, b"ok", 1)?;
    expect_known(rt, proposals, ONE_IS_ANSWERED)?;
    assert!(rt; first_node(proposals) == 2);
    expect_arrivals(rt, alloc, proposals, THIRD)?;
    expect_answered(rt, alloc, proposals, b"ok", 1)?;
    expect_answered(rt, alloc, proposals, b"refused unknown g", 3)?;
    expect_known(rt, proposals, THIRD_IS_ANSWERED)?;
    expect_answered(rt, alloc, proposals, b"ok", 0)
}

#[test]
fn each_request_is_handled_once(rt: HostRuntime) -> Result<(), Fail> {
    let mut proposals = Proposals::new(rt.alloc())?;
    handle(&rt, rt.alloc(), &mut proposals)
}

fn tick_four_times(rt: &impl Abort, proposals: &mut Proposals) {
    for _ in 0..3 {
        assert!(rt; !proposals.tick());
    }
    assert!(rt; proposals.tick());
}

fn prepare(rt: &impl Abort, proposals: &mut Proposals, two: NodeId, three: NodeId) {
    assert!(rt; !proposals.is_prepared());
    proposals.propose(7, NodeSet::empty().with(two).with(three));
    proposals.prepared(two, 6);
    proposals.prepared(three, 7);
    assert!(rt; !proposals.is_prepared());
    tick_four_times(rt, proposals);
    proposals.prepared(two, 7);
    assert!(rt; proposals.is_prepared());
}

#[test]
fn all_prepare_what_is_proposed(rt: HostRuntime) -> Result<(), Fail> {
    let (two, three) = (NodeId::new(2)?, NodeId::new(3)?);
    let mut proposals = Proposals::new(rt.alloc())?;
    prepare(&rt, &mut proposals, two, three);
    Ok(())
}
