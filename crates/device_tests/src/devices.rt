//! The answers to whole schedules, as SPC-3 gives them.
ghost use Rattle.std.specs.Prelude.{◌≡◌};
ghost use Rattle.pgr_device.specs.Allowed.{IsAllowed};
ghost use Rattle.pgr_device.specs.declared.command.PrCommand.TheVariants.{Reserve, Release};

use cl_base::{NodeId, NodeSet};
use pgr_device::{KeyList, Pgr, PrAnswer, PrCommand, PrKind, Step};
use std::process::Abort;

const REGISTRANTS: PrKind = PrKind::WriteExclusiveRegistrantsOnly;

/// A device to which the nodes 1 to 3 have a path.
fn shared() -> Pgr {
    Pgr::new(NodeSet::from_bits(7))
}

/// The node is answered so.
fn answer(rt: &impl Abort, device: &mut Pgr, from: u64, command: PrCommand, answer: PrAnswer)
    requires { IsAllowed command }
{
    let node = NodeId::new(from).expect(rt, "a node's number");
    assert!(rt; device.execute(node, command) == answer);
}

fn good(rt: &impl Abort, device: &mut Pgr, from: u64, command: PrCommand)
    requires { IsAllowed command }
{
    answer(rt, device, from, command, PrAnswer::Good);
}

fn conflict(rt: &impl Abort, device: &mut Pgr, from: u64, command: PrCommand)
    requires { IsAllowed command }
{
    answer(rt, device, from, command, PrAnswer::Conflict);
}

/// These keys are registered.
fn keys(rt: &impl Abort, device: &mut Pgr, keys: KeyList) {
    answer(rt, device, 1, PrCommand::Keys, PrAnswer::Keys(keys));
}

/// This key holds the reservation, for registrants.
fn holder(rt: &impl Abort, device: &mut Pgr, key: u64) {
    let held = PrAnswer::Holder(Some((key, REGISTRANTS)));
    answer(rt, device, 1, PrCommand::Holder, held);
}

fn reserve(kind: PrKind, key: u64) -> PrCommand
    ensures { result ≡ Reserve kind key }
{
    PrCommand::Reserve { kind, key }
}

fn release(kind: PrKind, key: u64) -> PrCommand
    ensures { result ≡ Release kind key }
{
    PrCommand::Release { kind, key }
}

#[test]
fn registrants_only(rt: HostRuntime) {
    let mut device = shared();
    let d = &mut device;
    good(&rt, d, 1, PrCommand::Register { key: 0, new: 0xa1 });
    conflict(&rt, d, 2, PrCommand::Register { key: 5, new: 6 });
    good(&rt, d, 1, reserve(REGISTRANTS, 0xa1));
    good(&rt, d, 1, PrCommand::Write { value: 7 });
    conflict(&rt, d, 2, PrCommand::Write { value: 8 });
    answer(&rt, d, 2, PrCommand::Read, PrAnswer::Value(7));
    let other = release(PrKind::ExclusiveAccessRegistrantsOnly, 0xa1);
    answer(&rt, d, 1, other, PrAnswer::InvalidRelease);
    good(&rt, d, 1, PrCommand::Register { key: 0xa1, new: 0 });
    good(&rt, d, 2, PrCommand::Write { value: 9 });
    answer(&rt, d, 2, PrCommand::Holder, PrAnswer::Holder(None));
    answer(&rt, d, 4, PrCommand::Keys, PrAnswer::NoPath);
}

#[test]
fn preempt(rt: HostRuntime) {
    let mut device = shared();
    let d = &mut device;
    good(&rt, d, 1, PrCommand::Ignore { new: 0xa1 });
    good(&rt, d, 2, PrCommand::Ignore { new: 0xb2 });
    good(&rt, d, 1, reserve(REGISTRANTS, 0xa1));
    // a registrant that is not the holder goes, and the reservation stays
    good(&rt, d, 3, PrCommand::Ignore { new: 0xc3 });
    let (kind, key) = (REGISTRANTS, 0xb2);
    let victim = 0xc3;
    good(&rt, d, 2, PrCommand::Preempt { kind, key, victim });
    holder(&rt, d, 0xa1);
    keys(&rt, d, KeyList::new(&[0xa1, 0xb2]));
    let victim = 0xa1;
    good(&rt, d, 2, PrCommand::Preempt { kind, key, victim });
    conflict(&rt, d, 1, PrCommand::Write { value: 3 });
    keys(&rt, d, KeyList::new(&[0xb2]));
    holder(&rt, d, 0xb2);
    conflict(&rt, d, 2, PrCommand::Preempt { kind, key, victim });
    good(&rt, d, 2, PrCommand::Clear { key });
    keys(&rt, d, KeyList::new(&[]));
}

#[test]
fn exclusive_access(rt: HostRuntime) {
    let mut device = shared();
    let d = &mut device;
    let exclusive = PrKind::ExclusiveAccess;
    good(&rt, d, 1, PrCommand::Ignore { new: 1 });
    good(&rt, d, 2, PrCommand::Ignore { new: 2 });
    good(&rt, d, 1, reserve(exclusive, 1));
    conflict(&rt, d, 2, reserve(exclusive, 2));
    conflict(&rt, d, 2, PrCommand::Word);
    good(&rt, d, 1, PrCommand::Swap { expect: 0, new: 65 });
    let swap = PrCommand::Swap { expect: 0, new: 66 };
    answer(&rt, d, 1, swap, PrAnswer::Miscompare(65));
    good(&rt, d, 2, release(exclusive, 2));
    good(&rt, d, 1, release(exclusive, 1));
    answer(&rt, d, 2, PrCommand::Word, PrAnswer::Word(65));
}

/// Of the nodes 2 and 3, which are to be registered in cluster 42, node 3 alone has a path.
#[test]
fn keys_through_power_loss(rt: HostRuntime) {
    let (paths, nodes) = (NodeSet::from_bits(0b101), NodeSet::from_bits(0b110));
    let mut device = Pgr::with_keys(paths, nodes, 42);
    let node = NodeId::new(1).expect(&rt, "a node's number");
    let steps = [
        Step::Command {
            node,
            command: PrCommand::Ignore { new: 0xa1 },
        },
        Step::PowerLoss,
        Step::Command {
            node,
            command: PrCommand::Keys,
        },
    ];
    let answers = device.run(rt.alloc(), &steps).expect(&rt, "memory");
    assert!(rt;
        answers.as_slice()
            == [
                PrAnswer::Good,
                PrAnswer::Keys(KeyList::new(&[(42 << 32) + 3, 0xa1]))
            ]
            .as_slice()
    );
}
