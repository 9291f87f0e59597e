//! What passes between a task and a device, command by command.
ghost use Rattle.std.specs.Prelude.{◌≢◌, All, IfOk};
ghost use Rattle.pgr_device.specs.Keys.{HasNoZeroKey};

use cl_base::{Epoch, NodeId, NodeSet};
use pgr_device::{Failed, KeyList, PrAnswer, PrCommand, PrKind};
use seize::{Join, JoinResult, Seize, SeizeKind, SeizeResult};
use std::process::Abort;

type Answer = Result<PrAnswer, Failed>;

const CLUSTER: u32 = 0x2a;

const OWN: u64 = 0x2a_0000_0001;

const OTHER: u64 = 0x2a_0000_0002;

const REGISTRANTS: PrKind = PrKind::WriteExclusiveRegistrantsOnly;

const RESERVE: PrCommand = PrCommand::Reserve {
    kind: REGISTRANTS,
    key: OWN,
};

const fn preempt(victim: u64) -> PrCommand {
    PrCommand::Preempt {
        kind: REGISTRANTS,
        key: OWN,
        victim,
    }
}

/// Node 1 alone begins to seize.
fn begin(kind: SeizeKind, epoch: u64, valid: bool) -> Seize {
    let me = NodeId::new(1).unwrap();
    let members = NodeSet::empty().with(me);
    Seize::begin(kind, Epoch::from_number(epoch), members, me, CLUSTER, valid)
}

fn key_list(rt: &impl Abort, keys: &[u64]) -> KeyList
    ensures { All (λ key. key ≢ 0) result }
{
    assert!(rt; keys.len() <= 32);
    assert!(rt; keys.iter().all(|key| *key != 0));
    KeyList::new(keys)
}

/// This command is due, and is answered so.
fn seize(rt: &impl Abort, task: &mut Seize, command: PrCommand, answer: Answer)
    requires { IfOk answer HasNoZeroKey }
{
    assert!(rt; task.result().is_none());
    assert!(rt; task.next_command() == Some(command));
    task.take_answer(answer);
}

fn good(rt: &impl Abort, task: &mut Seize, command: PrCommand) {
    seize(rt, task, command, Ok(PrAnswer::Good));
}

fn word(rt: &impl Abort, task: &mut Seize, word: u64) {
    seize(rt, task, PrCommand::Word, Ok(PrAnswer::Word(word)));
}

fn keys(rt: &impl Abort, task: &mut Seize, keys: &[u64]) {
    let keys = key_list(rt, keys);
    seize(rt, task, PrCommand::Keys, Ok(PrAnswer::Keys(keys)));
}

/// The task has ended so.
fn ended(rt: &impl Abort, task: &Seize, how: SeizeResult) {
    assert!(rt; task.next_command().is_none());
    assert!(rt; task.result() == Some(how));
}

#[test]
fn device_without_votes(rt: HostRuntime) {
    let mut task = begin(SeizeKind::Plain, 65, true);
    good(&rt, &mut task, PrCommand::Ignore { new: OWN });
    word(&rt, &mut task, 0);
    good(&rt, &mut task, PrCommand::Swap { expect: 0, new: 65 });
    good(&rt, &mut task, RESERVE);
    keys(&rt, &mut task, &[OWN]);
    word(&rt, &mut task, 65);
    ended(&rt, &task, SeizeResult::Held(key_list(&rt, &[OWN])));
}

/// Node 1 seizes the quorum device from node 2, up to the preemption.
fn up_to_the_preemption(rt: &impl Abort) -> Seize {
    let mut task = begin(SeizeKind::Vote, 129, true);
    keys(rt, &mut task, &[OWN, OTHER]);
    word(rt, &mut task, 65);
    good(
        rt,
        &mut task,
        PrCommand::Swap {
            expect: 65,
            new: 129,
        },
    );
    good(rt, &mut task, RESERVE);
    keys(rt, &mut task, &[OWN, OTHER]);
    task
}

#[test]
fn preemption_that_fails(rt: HostRuntime) {
    let mut task = up_to_the_preemption(&rt);
    seize(&rt, &mut task, preempt(OTHER), Err(Failed));
    ended(&rt, &task, SeizeResult::Fault);
}

#[test]
fn another_preempts_first(rt: HostRuntime) {
    let mut task = up_to_the_preemption(&rt);
    seize(&rt, &mut task, preempt(OTHER), Ok(PrAnswer::Conflict));
    keys(&rt, &mut task, &[OWN]);
    word(&rt, &mut task, 193);
    ended(&rt, &task, SeizeResult::Greater(193));
    let mut task = up_to_the_preemption(&rt);
    good(&rt, &mut task, preempt(OTHER));
    keys(&rt, &mut task, &[0x1b, OTHER]);
    ended(&rt, &task, SeizeResult::Expelled);
}

#[test]
fn key_that_comes_again(rt: HostRuntime) {
    let mut task = up_to_the_preemption(&rt);
    for _ in 0..63 {
        good(&rt, &mut task, preempt(OTHER));
        keys(&rt, &mut task, &[OWN, OTHER, 0x1b]);
    }
    ended(&rt, &task, SeizeResult::Contended(OTHER));
}

#[test]
fn key_that_is_not_valid(rt: HostRuntime) {
    let mut task = begin(SeizeKind::Vote, 130, true);
    keys(&rt, &mut task, &[OTHER]);
    let read = key_list(&rt, &[OTHER]);
    ended(&rt, &task, SeizeResult::NotRegistered(read));
    let mut task = begin(SeizeKind::Vote, 130, false);
    keys(&rt, &mut task, &[OWN]);
    let read = key_list(&rt, &[OWN]);
    ended(&rt, &task, SeizeResult::NotRegistered(read));
}

#[test]
fn word_that_moves(rt: HostRuntime) {
    let swap = |expect| PrCommand::Swap { expect, new: 129 };
    let mut task = begin(SeizeKind::Plain, 129, false);
    good(&rt, &mut task, PrCommand::Ignore { new: OWN });
    word(&rt, &mut task, 0);
    seize(&rt, &mut task, swap(0), Ok(PrAnswer::Miscompare(65)));
    seize(&rt, &mut task, swap(65), Ok(PrAnswer::Miscompare(129)));
    seize(&rt, &mut task, RESERVE, Ok(PrAnswer::Conflict));
    seize(&rt, &mut task, PrCommand::Keys, Ok(PrAnswer::NoPath));
    ended(&rt, &task, SeizeResult::Fault);
    let mut task = begin(SeizeKind::Plain, 129, false);
    good(&rt, &mut task, PrCommand::Ignore { new: OWN });
    word(&rt, &mut task, 65);
    seize(&rt, &mut task, swap(65), Ok(PrAnswer::Conflict));
    ended(&rt, &task, SeizeResult::Expelled);
}

/// Node 3 joins, its own key registered as answered here, and reads this word.
fn join(rt: &impl Abort, epoch: u64, word: Answer) -> Option<JoinResult>
    requires { IfOk word HasNoZeroKey }
{
    let me = NodeId::new(3).unwrap();
    let mut task = Join::begin(Epoch::from_number(epoch), me, CLUSTER);
    let own = PrCommand::Ignore {
        new: 0x2a_0000_0003,
    };
    assert!(rt; task.next_command() == Some(own));
    task.take_answer(Ok(PrAnswer::Good));
    assert!(rt; task.result().is_none());
    assert!(rt; task.next_command() == Some(PrCommand::Word));
    task.take_answer(word);
    assert!(rt; task.next_command().is_none());
    task.result()
}

#[test]
fn joining(rt: HostRuntime) {
    let joined = join(&rt, 65, Ok(PrAnswer::Word(65)));
    assert!(rt; joined == Some(JoinResult::Joined));
    let late = join(&rt, 65, Ok(PrAnswer::Word(129)));
    assert!(rt; late == Some(JoinResult::Late(129)));
    let conflict = join(&rt, 65, Ok(PrAnswer::Conflict));
    assert!(rt; conflict == Some(JoinResult::Fault));
}
