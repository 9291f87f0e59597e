use cl_base::Bytes;
use request_queue::{Request, RequestQueue};
use std::alloc::Global;
use std::process::Abort;
use std::test::Fail;

fn ask(alloc: Global, queue: &mut RequestQueue, text: &[u8]) -> Result<(), Fail> {
    let number = queue.take_number();
    if queue.is_full() {
        return Err(Fail::new("full"));
    }
    queue.push(Request {
        number,
        text: Bytes::new(text.to_vec(alloc)?),
        told: true,
        second: number.saturating_mul(10),
    })?;
    Ok(())
}

/// The request has this number and text, and was asked at the tenth second for each number.
fn expect_request(rt: &impl Abort, request: &Request, number: u64, text: &[u8]) {
    assert!(rt; request.number == number);
    assert!(rt; request.text.items() == text);
    assert!(rt; request.second == number.saturating_mul(10));
}

/// So it is for the oldest; 0 for none.
fn expect(rt: &impl Abort, queue: &RequestQueue, number: u64, text: &[u8]) {
    match queue.oldest() {
        Some(request) => expect_request(rt, request, number, text),
        None => assert!(rt; number == 0),
    }
}

fn answer_and_end(rt: &impl Abort, alloc: Global, queue: &mut RequestQueue) {
    assert!(rt; queue.answer(2).is_none());
    assert!(rt; queue.answer(1).is_some());
    expect(rt, queue, 2, b"clrg offline g");
    assert!(rt; queue.end(alloc).len() == 1);
    expect(rt, queue, 0, b"");
    assert!(rt; queue.take_number() == 3);
}

fn wait(rt: &impl Abort, alloc: Global, queue: &mut RequestQueue) -> Result<(), Fail> {
    expect(rt, queue, 0, b"");
    ask(alloc, queue, b"clrg online g")?;
    ask(alloc, queue, b"clrg offline g")?;
    expect(rt, queue, 1, b"clrg online g");
    answer_and_end(rt, alloc, queue);
    Ok(())
}

#[test]
fn requests_wait_in_turn(rt: HostRuntime) -> Result<(), Fail> {
    let mut queue = RequestQueue::new(rt.alloc());
    wait(&rt, rt.alloc(), &mut queue)
}

fn tick_four_times(rt: &impl Abort, queue: &mut RequestQueue) {
    for _ in 0..3 {
        assert!(rt; !queue.tick());
    }
    assert!(rt; queue.tick());
}

fn tick(rt: &impl Abort, alloc: Global, queue: &mut RequestQueue) -> Result<(), Fail> {
    assert!(rt; !queue.tick());
    ask(alloc, queue, b"restart r")?;
    tick_four_times(rt, queue);
    tick_four_times(rt, queue);
    Ok(())
}

#[test]
fn the_oldest_goes_again_at_the_fourth_tick(rt: HostRuntime) -> Result<(), Fail> {
    let mut queue = RequestQueue::new(rt.alloc());
    tick(&rt, rt.alloc(), &mut queue)
}

fn fill(rt: &impl Abort, alloc: Global, queue: &mut RequestQueue) -> Result<(), Fail> {
    for _ in 0..64 {
        assert!(rt; !queue.is_full());
        ask(alloc, queue, b"move r")?;
    }
    assert!(rt; queue.is_full());
    Ok(())
}

#[test]
fn sixty_four_wait(rt: HostRuntime) -> Result<(), Fail> {
    let mut queue = RequestQueue::new(rt.alloc());
    fill(&rt, rt.alloc(), &mut queue)
}
