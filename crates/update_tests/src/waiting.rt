// How many requests wait.
use cl_base::{Bytes, NodeId};
use proposals::{Arrived, Proposals};
use request_queue::{Request, RequestQueue};
use std::alloc::Global;
use std::process::Abort;
use std::test::Fail;

fn words(alloc: Global) -> Result<Bytes, Fail> {
    Ok(Bytes::new(b"clrg online g".to_vec(alloc)?))
}

fn ask(alloc: Global, queue: &mut RequestQueue) -> Result<(), Fail> {
    let number = queue.take_number();
    if queue.is_full() {
        return Err(Fail::new("full"));
    }
    queue.push(Request {
        number,
        text: words(alloc)?,
        told: true,
        second: 0,
    })?;
    Ok(())
}

fn ask_twice(rt: &impl Abort, alloc: Global, queue: &mut RequestQueue) -> Result<(), Fail> {
    ask(alloc, queue)?;
    ask(alloc, queue)?;
    assert!(rt; queue.len() == 2);
    Ok(())
}

#[test]
fn at_the_node(rt: HostRuntime) -> Result<(), Fail> {
    let mut queue = RequestQueue::new(rt.alloc());
    ask_twice(&rt, rt.alloc(), &mut queue)
}

fn arrive(alloc: Global, proposals: &mut Proposals, from: NodeId, number: u64) -> Result<(), Fail> {
    proposals.arrive(Arrived {
        from,
        number,
        text: words(alloc)?,
    })?;
    Ok(())
}

fn arrive_again(rt: &impl Abort, alloc: Global, proposals: &mut Proposals) -> Result<(), Fail> {
    let (one, two) = (NodeId::new(1)?, NodeId::new(2)?);
    arrive(alloc, proposals, one, 1)?;
    arrive(alloc, proposals, two, 1)?;
    // One that waits already is not taken again.
    arrive(alloc, proposals, one, 1)?;
    // Nor is another of the same node.
    arrive(alloc, proposals, two, 2)?;
    assert!(rt; proposals.len() == 2);
    Ok(())
}

#[test]
fn at_the_president(rt: HostRuntime) -> Result<(), Fail> {
    let mut proposals = Proposals::new(rt.alloc())?;
    arrive_again(&rt, rt.alloc(), &mut proposals)
}
