//! A node seizes a device without votes and joins another, command by command.
ghost use Rattle.std.specs.Prelude.{IfOk};
ghost use Rattle.pgr_device.specs.Keys.{HasNoZeroKey};

use cl_base::{DevId, Epoch, NodeId, NodeSet};
use device_queue::{Asked, DeviceQueue, Progress};
use pgr_device::{Failed, PrAnswer, PrCommand};
use seize::{Join, JoinResult, Seize, SeizeKind, SeizeResult};
use std::process::Abort;
use std::test::Fail;

const CLUSTER: u32 = 0x2a;

const EPOCH: u64 = 65;

const OWN: PrCommand = PrCommand::Ignore {
    new: 0x2a_0000_0001,
};

/// How the seizing ends.
const RESULT: SeizeResult = SeizeResult::Greater(129);

/// This command is due, and is answered so.
fn step(
    rt: &impl Abort,
    queue: &mut DeviceQueue,
    command: PrCommand,
    answer: Result<PrAnswer, Failed>,
    wanted: Progress,
)
    requires { IfOk answer HasNoZeroKey }
{
    assert!(rt; queue.next_command() == Some(command));
    assert!(rt; queue.take_answer(answer) == wanted);
}

/// Seizing the device is asked for.
fn ask(
    rt: &impl Abort,
    queue: &mut DeviceQueue,
    device: DevId,
    me: NodeId,
    wanted: Asked,
) -> Result<(), Fail> {
    let (epoch, members) = (Epoch::from_number(EPOCH), NodeSet::empty().with(me));
    let seizing = Seize::begin(SeizeKind::Plain, epoch, members, me, CLUSTER, false);
    assert!(rt; queue.seize(device, seizing)? == wanted);
    Ok(())
}

/// Joining the device is asked for; it is under way already, or begins.
fn ask_to_join(
    rt: &impl Abort,
    queue: &mut DeviceQueue,
    device: DevId,
    me: NodeId,
    begins: bool,
) -> Result<(), Fail> {
    let joining = Join::begin(Epoch::from_number(EPOCH), me, CLUSTER);
    assert!(rt; queue.join(device, joining)? == begins);
    Ok(())
}

fn ask_for_both(
    rt: &impl Abort,
    queue: &mut DeviceQueue,
    two: DevId,
    three: DevId,
    me: NodeId,
) -> Result<(), Fail> {
    assert!(rt; queue.is_empty());
    assert!(rt; queue.next_command().is_none());
    ask(rt, queue, two, me, Asked::Begun)?;
    ask_to_join(rt, queue, three, me, true)?;
    ask_to_join(rt, queue, three, me, false)?;
    ask(rt, queue, two, me, Asked::UnderWay)
}

fn seize(rt: &impl Abort, queue: &mut DeviceQueue, two: DevId) {
    assert!(rt; queue.begins_plainly() == Some(two));
    assert!(rt; queue.joins());
    step(rt, queue, OWN, Ok(PrAnswer::Good), Progress::GoesOn);
    assert!(rt; queue.begins_plainly().is_none());
    assert!(rt; queue.seized(two).is_none());
    let over = Progress::Seized {
        device: two,
        result: RESULT,
    };
    step(rt, queue, PrCommand::Word, Ok(PrAnswer::Word(129)), over);
}

fn join(rt: &impl Abort, queue: &mut DeviceQueue, two: DevId, three: DevId) {
    step(rt, queue, OWN, Ok(PrAnswer::Good), Progress::GoesOn);
    let over = Progress::Joined {
        device: three,
        result: JoinResult::Joined,
    };
    step(rt, queue, PrCommand::Word, Ok(PrAnswer::Word(65)), over);
    assert!(rt; queue.is_empty());
    assert!(rt; !queue.joins());
    assert!(rt; queue.seized(two) == Some(RESULT));
    queue.clear();
    assert!(rt; queue.seized(two).is_none());
}

fn play(
    rt: &impl Abort,
    queue: &mut DeviceQueue,
    two: DevId,
    three: DevId,
    me: NodeId,
) -> Result<(), Fail> {
    ask_for_both(rt, queue, two, three, me)?;
    seize(rt, queue, two);
    ask(rt, queue, two, me, Asked::Kept(RESULT))?;
    join(rt, queue, two, three);
    Ok(())
}

#[test]
fn seizing_then_joining(rt: HostRuntime) -> Result<(), Fail> {
    let (two, three, me) = (DevId::new(2)?, DevId::new(3)?, NodeId::new(1)?);
    let mut queue = DeviceQueue::new(rt.alloc());
    play(&rt, &mut queue, two, three, me)
}
