use cl_base::{Name, NodeId};
use load_limits::{Limit, Limits};
use std::process::Abort;
use std::test::Fail;

fn come(rt: &impl Abort, limits: &mut Limits, node: NodeId, name: Name) -> Result<(), Fail> {
    assert!(rt; limits.limit(node, &name).is_none());
    limits.create(Limit {
        node,
        name,
        soft: 5,
        hard: 10,
    })?;
    assert!(rt; limits.limit(node, &name) == Some((5, 10)));
    Ok(())
}

#[test]
fn a_limit_comes_and_goes(rt: HostRuntime) -> Result<(), Fail> {
    let (node, name) = (NodeId::new(1)?, Name::new(b"mem")?);
    let mut limits = Limits::new(rt.alloc());
    come(&rt, &mut limits, node, name)
}
