use cell_pool::Pool;
use std::process::Abort;
use std::test::Fail;

fn put_and_read(rt: &impl Abort, pool: &mut Pool) -> Result<(), Fail> {
    assert!(rt; pool.free() == 3);
    let Some(chain) = pool.put(&[7; 257]) else {
        return Err(Fail::new("257 bytes take two cells"));
    };
    assert!(rt; pool.free() == 1);
    let mut out = [0u8; 300];
    assert!(rt; pool.read(&chain, &mut out) == 257);
    assert!(rt; out[256] == 7);
    assert!(rt; out[257] == 0);
    pool.give_back(chain);
    assert!(rt; pool.free() == 3);
    Ok(())
}

#[test]
fn three_cells(rt: HostRuntime) -> Result<(), Fail> {
    let mut pool = Pool::with_cells(rt.alloc(), 3)?;
    put_and_read(&rt, &mut pool)
}
