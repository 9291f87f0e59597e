// The lines of four seeds, worked from the rule alone.
use schedule_gen::Gen;
use std::alloc::Global;
use std::process::Abort;
use std::test::Fail;

const OPENING: &str = "schedule cluster 1
cluster 2a
nodes 4
device 1 quorum 1 2 3 4
device 2 data 1 2 3 4
boot 1
boot 2
boot 3
boot 4
rounds 12 1 2 3 4
";

// A line with a newline; a dash where there is none.
fn tell(text: &mut Vec<u8>, line: Option<&[u8]>) -> Result<(), Fail> {
    text.extend_from_slice(line.unwrap_or(b"-"))?;
    Ok(text.push(b'\n')?)
}

fn tell_next(alloc: Global, text: &mut Vec<u8>, generator: &mut Gen) -> Result<(), Fail> {
    match generator.next_line(alloc)? {
        Some(line) => tell(text, Some(&line)),
        None => tell(text, None),
    }
}

fn tell_all(
    alloc: Global,
    text: &mut Vec<u8>,
    generator: &mut Gen,
    calls: u64,
) -> Result<(), Fail> {
    for _ in 0..calls {
        tell_next(alloc, text, generator)?;
    }
    Ok(())
}

// The next lines, so many of them.
fn gives(
    rt: &impl Abort,
    alloc: Global,
    generator: &mut Gen,
    calls: u64,
    wanted: &str,
) -> Result<(), Fail> {
    let mut text = Vec::new(alloc);
    tell_all(alloc, &mut text, generator, calls)?;
    assert!(rt; text.as_slice() == wanted.as_bytes());
    Ok(())
}

fn expect_lines(
    rt: &impl Abort,
    alloc: Global,
    seed: u64,
    count: u64,
    events: &str,
) -> Result<(), Fail> {
    let mut generator = Gen::new(seed, count);
    gives(rt, alloc, &mut generator, 10, OPENING)?;
    gives(rt, alloc, &mut generator, 12, events)
}

#[test]
fn lines_by_seed(rt: HostRuntime) -> Result<(), Fail> {
    expect_lines(
        &rt,
        rt.alloc(),
        7,
        11,
        "drop 1 4
clock 1
cmd 3 clrg create g2 1,2,3,4
write 4 2 3
next 2 3
clock 5
disk 4
tick 1
boot 2
rounds 1 1 2
boot 1
-
",
    )?;
    expect_lines(
        &rt,
        rt.alloc(),
        2026,
        90000,
        "again 2 4
disk 1
next 4 2
boot 4
rounds 1 1 2 3 4
tick 1
next 2 4
rounds 1 1 2 3 4
rounds 1 1 3
tick 1
write 2 2 10
write 2 2 11
",
    )?;
    Ok(())
}

#[test]
fn greatest_numbers(rt: HostRuntime) -> Result<(), Fail> {
    expect_lines(
        &rt,
        rt.alloc(),
        18446744073709551615,
        18446744073709551615,
        "disk 4
clock 1
next 3 4
drop 1 2
tick 4
clock 5
cmd 2 clrg create g6 1,2,3,4
clock 7
disk 2
rounds 1 1 2 3 4
clock 10
drop 2 4
",
    )?;
    expect_lines(
        &rt,
        rt.alloc(),
        0,
        0,
        "-
-
-
-
-
-
-
-
-
-
-
-
",
    )?;
    Ok(())
}
