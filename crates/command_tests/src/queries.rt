// Queries, and tables that are not there.
use crate::cases::{BOTH, expect, expect_of_one};
use std::test::Fail;

const QUERIES: &[u8] = b"clrg status|query
clrs status|query
clq status|query
ccr infrastructure|query
ccr types|query
ccr groups|query
ccr resources|query
ccr addresses|query
ccr nodes|refused unknown nodes";

/// Addresses are there from the second version on.
const QUERIES_OF_ONE: &[u8] = b"ccr resources|query
ccr addresses|refused unknown addresses";

#[test]
fn queries_are_accepted(rt: HostRuntime) -> Result<(), Fail> {
    let a = rt.alloc();
    expect(&rt, a, b"", BOTH, QUERIES)?;
    expect_of_one(&rt, a, b"", BOTH, QUERIES_OF_ONE)
}
