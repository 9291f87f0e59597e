ghost use Rattle.std.specs.Prelude.{map, IfOk};
ghost use Rattle.std.specs.List.Sorted.{IsStrictlyIncreasing};
ghost use Rattle.shared_address.specs.Choosing.{HaveWeights};

use cl_base::{Name, NodeId, Policy};
use shared_address::{Balancer, Client, Target};
use std::alloc::Global;
use std::ops::Range;
use std::process::Abort;
use std::test::Fail;

/// Node 1 with weight 3, and node 2 with weight 1.
fn three_to_one() -> Result<[Target; 2], Fail>
    ensures order { IfOk result (λ ts. IsStrictlyIncreasing (map (λ t. t.node) ts)) }
    ensures weights { IfOk result (λ ts. HaveWeights ts) }
{
    let target = |node: NodeId, weight: u64| Target { node, weight };
    Ok([target(NodeId::new(1)?, 3), target(NodeId::new(2)?, 1)])
}

/// A client, a port, and the node that serves it, 0 for none.
type Row = (u32, u16, u64);

const WEIGHTED: &[Row] = &[
    (10, 80, 1),
    (10, 80, 1),
    (10, 80, 1),
    (10, 80, 2),
    (10, 80, 1),
];

const STICKY_PORT: &[Row] = &[
    (10, 80, 1),
    (10, 81, 1),
    (11, 80, 1),
    (12, 80, 2),
    (10, 80, 1),
    (12, 80, 2),
];

const STICKY: &[Row] = &[
    (10, 80, 1),
    (10, 81, 1),
    (11, 80, 1),
    (12, 80, 1),
    (10, 80, 1),
    (12, 80, 1),
];

const WITHOUT_TARGETS: &[Row] = &[(10, 80, 0)];

fn expect_all(
    rt: &impl Abort,
    balancer: &mut Balancer,
    policy: Policy,
    targets: &[Target],
    rows: &[Row],
) -> Result<(), Fail>
    requires order { IsStrictlyIncreasing (map (λ t. t.node) targets.now) }
    requires weights { HaveWeights targets.now }
{
    let a = Name::new(b"a")?;
    for (client, port, node) in rows {
        let choice = balancer.choose(&a, policy, *client, *port, targets)?;
        assert_eq!(rt; choice.node.map_or(0, |n| n.number()), *node);
        assert_eq!(rt; choice.forgot, None);
    }
    Ok(())
}

/// Clients are served so by a new balancer.
fn expect(
    rt: &impl Abort,
    alloc: Global,
    policy: Policy,
    targets: &[Target],
    rows: &[Row],
) -> Result<(), Fail>
    requires order { IsStrictlyIncreasing (map (λ t. t.node) targets.now) }
    requires weights { HaveWeights targets.now }
{
    let mut balancer = Balancer::new(alloc);
    expect_all(rt, &mut balancer, policy, targets, rows)
}

fn expect_each(rt: &impl Abort, alloc: Global, policy: Policy, rows: &[Row]) -> Result<(), Fail> {
    expect(rt, alloc, policy, &[], WITHOUT_TARGETS)?;
    let targets = three_to_one()?;
    expect(rt, alloc, policy, &targets, rows)
}

#[test]
fn serves_by_policy(rt: HostRuntime) -> Result<(), Fail> {
    expect_each(&rt, rt.alloc(), Policy::Weighted, WEIGHTED)?;
    expect_each(&rt, rt.alloc(), Policy::StickyPort, STICKY_PORT)?;
    expect_each(&rt, rt.alloc(), Policy::Sticky, STICKY)
}

/// Whom the client's request makes forgotten.
fn forgotten(balancer: &mut Balancer, a: &Name, client: u32) -> Result<Option<Client>, Fail> {
    let targets = three_to_one()?;
    let choice = balancer.choose(a, Policy::Sticky, client, 80, &targets)?;
    Ok(choice.forgot)
}

/// The clients are served at the address, and this one is forgotten of each.
fn expect_forgotten(
    rt: &impl Abort,
    balancer: &mut Balancer,
    a: &Name,
    clients: Range<u32>,
    wanted: Option<Client>,
) -> Result<(), Fail> {
    for client in clients {
        assert_eq!(rt; forgotten(balancer, a, client)?, wanted);
    }
    Ok(())
}

fn forget(rt: &impl Abort, balancer: &mut Balancer) -> Result<(), Fail> {
    let (a, b) = (Name::new(b"a")?, Name::new(b"b")?);
    let first = Some(Client {
        address: 0,
        port: 0,
    });
    expect_forgotten(rt, balancer, &a, 0..1024, None)?;
    expect_forgotten(rt, balancer, &b, 1024..1025, None)?;
    expect_forgotten(rt, balancer, &a, 1..2, None)?;
    expect_forgotten(rt, balancer, &a, 1024..1025, first)?;
    balancer.drop_address(&a);
    expect_forgotten(rt, balancer, &a, 1025..1026, None)
}

#[test]
fn forgets_the_first(rt: HostRuntime) -> Result<(), Fail> {
    let mut balancer = Balancer::new(rt.alloc());
    forget(&rt, &mut balancer)
}
