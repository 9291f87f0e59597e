// A record through saves, mountings and stops.
use crate::check::check;
use Step::{Elsewhere, Mount, Promise, Promised, Save, Session, Stop, Valid};
use cl_base::{DevSet, Epoch, NodeId};
use cmm_member::{DownNode, FormingNode};
use local_disk::Choice;
use record_disk::{DiskError, Loss, RecordDisk, SimulatedDisk};
use std::alloc::Global;
use std::process::Abort;
use std::test::Fail;

/// What is done with a disk and the node that was mounted from it, or holds of the node.
#[derive(Clone, Copy)]
enum Step {
    /// Another node is mounted.
    Mount,
    Promise(u64),
    Promised(u64),
    Session(u64),
    /// The devices that are valid to it, in bits.
    Valid(u16),
    /// Its record is saved, or lost.
    Save(Option<Loss>),
    /// After so many calls the next one is stopped.
    Stop(u8, Choice),
    /// No other disk, which is not mounted, saves it.
    Elsewhere,
}

fn mounted<D: RecordDisk>(alloc: Global, disk: &mut D) -> Option<FormingNode> {
    let me = NodeId::new(2).ok()?;
    disk.mount(alloc, DownNode::new(me, DevSet::empty())).ok()
}

/// How the save of the node's record ends.
fn saves<D: RecordDisk>(
    alloc: Global,
    disk: &mut D,
    node: &FormingNode,
    wanted: Option<Loss>,
) -> bool {
    match disk.save(alloc, node.record()) {
        Ok(()) => wanted.is_none(),
        Err(DiskError::Lost(loss)) => wanted == Some(loss),
        Err(DiskError::NoMemory) => false,
    }
}

fn mounts_first(alloc: Global, disk: &mut SimulatedDisk) -> bool {
    match mounted(alloc, disk) {
        Some(node) => node.promised().number() == 0,
        None => false,
    }
}

/// The other disk keeps its first record.
fn fails_on(alloc: Global, other: &mut SimulatedDisk, node: &FormingNode) -> bool {
    saves(alloc, other, node, Some(Loss::Fault)) && mounts_first(alloc, other)
}

fn fails_elsewhere(alloc: Global, node: &FormingNode) -> bool {
    match SimulatedDisk::new(alloc, DevSet::empty()) {
        Ok(mut other) => fails_on(alloc, &mut other, node),
        Err(_) => false,
    }
}

fn stop(disk: &mut SimulatedDisk, before: u8, choice: Choice) -> bool {
    disk.stop_after(u64::from(before) + 1, choice);
    true
}

fn holds(alloc: Global, disk: &mut SimulatedDisk, node: &FormingNode, step: Step) -> bool {
    match step {
        Step::Promised(p) => node.promised().number() == p,
        Step::Session(p) => node.session().number() == p,
        Step::Valid(bits) => node.valid().bits() == bits,
        Step::Save(wanted) => saves(alloc, disk, node, wanted),
        Step::Stop(before, choice) => stop(disk, before, choice),
        Step::Elsewhere => fails_elsewhere(alloc, node),
        _ => false,
    }
}

fn promised(node: FormingNode, p: u64) -> Option<FormingNode> {
    match node.promise(Epoch::from_number(p)) {
        Ok(node) => Some(node),
        Err(_) => None,
    }
}

fn mounted_again(
    alloc: Global,
    disk: &mut SimulatedDisk,
    node: FormingNode,
) -> Option<FormingNode> {
    drop(node);
    mounted(alloc, disk)
}

/// The node then, and whether what the step says holds.
fn take(
    alloc: Global,
    disk: &mut SimulatedDisk,
    node: FormingNode,
    step: Step,
) -> Option<(FormingNode, bool)> {
    match step {
        Step::Mount => Some((mounted_again(alloc, disk, node)?, true)),
        Step::Promise(p) => Some((promised(node, p)?, true)),
        _ => {
            let holds = holds(alloc, disk, &node, step);
            Some((node, holds))
        }
    }
}

fn take_all(
    rt: &impl Abort,
    alloc: Global,
    disk: &mut SimulatedDisk,
    list: usize,
    steps: &[Step],
) -> Option<()> {
    let mut node = mounted(alloc, disk)?;
    for place in 0..steps.len() {
        let (next, holds) = take(alloc, disk, node, steps[place])?;
        check(rt, holds, list, place);
        node = next;
    }
    Some(())
}

fn expect(rt: &impl Abort, alloc: Global, list: usize, steps: &[Step]) -> Result<(), Fail> {
    let mut disk = SimulatedDisk::new(alloc, DevSet::from_bits(5))?;
    let ended = take_all(rt, alloc, &mut disk, list, steps);
    check(rt, ended.is_some(), list, steps.len());
    Ok(())
}

/// The steps of each list hold, one after the other, of a new disk, which is mounted.
fn expect_each(rt: &impl Abort, alloc: Global, lists: &[&[Step]]) -> Result<(), Fail> {
    for list in 0..lists.len() {
        expect(rt, alloc, list, lists[list])?;
    }
    Ok(())
}

const SAVES: &[Step] = &[
    Promise(65),
    Save(None),
    Valid(5),
    Mount,
    Promised(65),
    Session(0),
    Valid(5),
    Promise(129),
    Save(None),
    Mount,
    Promised(129),
];

const ELSEWHERE: &[Step] = &[Promise(65), Save(None), Promise(129), Elsewhere];

// A stop in each call of saving the promise 129 over the promise 65. The next promise is saved then.
const IN_THE_FIRST: &[Step] = &[
    Promise(65),
    Save(None),
    Promise(129),
    Stop(0, Choice::New),
    Save(Some(Loss::Stopped)),
    Mount,
    Promised(65),
    Promise(193),
    Save(None),
];

const IN_THE_SECOND: &[Step] = &[
    Promise(65),
    Save(None),
    Promise(129),
    Stop(1, Choice::Zero),
    Save(Some(Loss::Stopped)),
    Mount,
    Promised(65),
    Promise(193),
    Save(None),
];

const IN_THE_THIRD: &[Step] = &[
    Promise(65),
    Save(None),
    Promise(129),
    Stop(2, Choice::Old),
    Save(Some(Loss::Stopped)),
    Mount,
    Promised(65),
    Promise(193),
    Save(None),
];

const ZEROS_IN_THE_THIRD: &[Step] = &[
    Promise(65),
    Save(None),
    Promise(129),
    Stop(2, Choice::Zero),
    Save(Some(Loss::Stopped)),
    Mount,
    Promised(129),
    Promise(193),
    Save(None),
];

const IN_THE_LAST: &[Step] = &[
    Promise(65),
    Save(None),
    Promise(129),
    Stop(3, Choice::New),
    Save(Some(Loss::Stopped)),
    Mount,
    Promised(129),
    Promise(193),
    Save(None),
];

// Zeros name the first slot, and the save that is stopped is to the second.
const ZEROS_NAME_THE_FIRST: &[Step] = &[
    Promise(65),
    Save(None),
    Promise(129),
    Save(None),
    Promise(193),
    Stop(2, Choice::Zero),
    Save(Some(Loss::Stopped)),
    Mount,
    Promised(129),
];

// An armed stop stays through a mounting.
const STOP_AFTER_A_MOUNTING: &[Step] = &[
    Promise(65),
    Save(None),
    Stop(4, Choice::Old),
    Mount,
    Promise(129),
    Save(Some(Loss::Stopped)),
    Mount,
    Promised(65),
];

const LISTS: &[&[Step]] = &[
    SAVES,
    ELSEWHERE,
    IN_THE_FIRST,
    IN_THE_SECOND,
    IN_THE_THIRD,
    ZEROS_IN_THE_THIRD,
    IN_THE_LAST,
    ZEROS_NAME_THE_FIRST,
    STOP_AFTER_A_MOUNTING,
];

#[test]
fn saves_mountings_and_stops(rt: HostRuntime) -> Result<(), Fail> {
    expect_each(&rt, rt.alloc(), LISTS)
}
