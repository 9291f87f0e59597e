// A node that promises, installs and becomes a member, through panics and crashes, and its record as text.
ghost use Rattle.std.specs.Prelude.{IsTrue, ◌↔◌, All};
ghost use Rattle.ccr_commit.specs.Entries.{texts_of};
ghost use Rattle.cmm_member.specs.Records.{IsRowText};

use crate::check::check;
use Step::{
    Boot, Commit, Crash, Halt, Install, Invalidate, Is, Join, MayWrite, Prepare, Promise, RowCount,
    Start,
};
use ccr_commit::{Entries, Prepared};
use ccr_text::print_table;
use cl_base::{BadNumber, Bytes, DevId, DevSet, Epoch, NodeId, NodeSet, Panic};
use cmm_member::{DownNode, FormingNode, HaltedNode, InstallError, MemberNode, NotHeld};
use std::alloc::{AllocError, Global};
use std::process::Abort;
use std::test::Fail;
use wire::{Keys, Reading, Readings, Texts};

// Devices 1, 2, 4 and 5.
const VALID: u16 = 0b11011;

/// What a node shows of itself: its epochs, its sets as bits, and how many updates are committed and
/// pending.
#[derive(Clone, Copy, PartialEq, Eq)]
struct Shown {
    promised: u64,
    session: u64,
    installed: u64,
    members: u32,
    valid: u16,
    joined: u16,
    committed: usize,
    pending: usize,
}

/// A node that has come up with its first record.
const FIRST: Shown = Shown {
    promised: 0,
    session: 0,
    installed: 0,
    members: 0,
    valid: VALID,
    joined: 0,
    committed: 0,
    pending: 0,
};

/// A node that has promised 65, and installed nothing.
const PROMISED: Shown = Shown {
    promised: 65,
    session: 65,
    ..FIRST
};

/// A node that has installed in session 65.
const INSTALLED: Shown = Shown {
    installed: 65,
    members: 7,
    valid: 0b1111,
    joined: 0b1101,
    committed: 2,
    pending: 1,
    ..PROMISED
};

/// A node that has started in session 65.
const STARTED: Shown = Shown {
    committed: 3,
    pending: 0,
    ..INSTALLED
};

/// A node that has promised 66 since, and is no member.
const OUTSIDE: Shown = Shown {
    promised: 66,
    session: 66,
    joined: 0,
    ..STARTED
};

/// The device 5 has joined since.
const REPEATED: Shown = Shown {
    valid: 0b11111,
    joined: 0b11101,
    ..INSTALLED
};

/// In session 129, where the device 2 is not valid.
const MOVED_ON: Shown = Shown {
    promised: 129,
    session: 129,
    valid: 0b11101,
    joined: 0,
    ..INSTALLED
};

/// An update is pending since.
const PREPARED: Shown = Shown {
    pending: 1,
    ..STARTED
};

/// It is committed since.
const COMMITTED: Shown = Shown {
    committed: 4,
    ..STARTED
};

fn seen(node: &FormingNode) -> Shown {
    Shown {
        promised: node.promised().number(),
        session: node.session().number(),
        installed: node.installed().number(),
        members: node.members().bits(),
        valid: node.valid().bits(),
        joined: node.joined_devices().bits(),
        committed: node.entries().committed().len(),
        pending: pending(node.entries()),
    }
}

fn seen_member(node: &MemberNode) -> Shown {
    Shown {
        promised: node.promised().number(),
        session: node.session().number(),
        installed: node.installed().number(),
        members: node.members().bits(),
        valid: node.valid().bits(),
        joined: node.joined_devices().bits(),
        committed: node.entries().committed().len(),
        pending: pending(node.entries()),
    }
}

fn pending(entries: &Entries) -> usize {
    entries.pending().is_some() as usize
}

/// What is done with a node, or is so. A promise that is asked for is kept, or refused, and then the promise that
/// the node has is told.
#[derive(Clone, Copy)]
enum Step {
    /// It comes up from an empty disk.
    Boot,
    Promise(u64, Option<u64>),
    /// It installs what came with this epoch, or refuses as a promise.
    Install(u64, Option<u64>),
    /// It starts in this epoch, or does not.
    Start(u64, bool),
    /// It has joined the device.
    Join(u64),
    /// The device is not valid to it.
    Invalidate(u64),
    /// The epoch in which it may write to the device, 0 for none.
    MayWrite(u64, u64),
    /// An update is prepared for the place.
    Prepare(u64, Prepared),
    /// The update at the place is committed, or not.
    Commit(u64, bool),
    /// How many rows its record has.
    RowCount(usize),
    /// It halts, and comes down.
    Halt,
    Crash,
    Is(Shown),
}

/// A node, however it stands.
#[derive(Drop)]
enum Node {
    Down(DownNode),
    Forming(FormingNode),
    Member(MemberNode),
}

fn down(valid: u16) -> Result<DownNode, BadNumber> {
    Ok(DownNode::new(NodeId::new(2)?, DevSet::from_bits(valid)))
}

fn promise(node: FormingNode, p: u64, wanted: Option<u64>) -> (FormingNode, bool) {
    match node.promise(Epoch::from_number(p)) {
        Ok(node) => (node, wanted.is_none()),
        Err((node, promised)) => (node, wanted == Some(promised.number())),
    }
}

fn promise_forming(node: FormingNode, p: u64, wanted: Option<u64>) -> (Node, bool) {
    let (node, holds) = promise(node, p, wanted);
    (Node::Forming(node), holds)
}

fn promise_member(node: MemberNode, p: u64, wanted: Option<u64>) -> (Node, bool) {
    match node.promise(Epoch::from_number(p)) {
        Ok(node) => (Node::Forming(node), wanted.is_none()),
        Err((node, promised)) => (Node::Member(node), wanted == Some(promised.number())),
    }
}

/// A device, who seized it, and the key of another node than node 1 on it.
type Read = (u64, u64, u64);

/// Node 2 seized devices 1 and 3; its key was seen on devices 4 and 6, and not on device 5.
const READINGS: &[Read] = &[
    (1, 2, 0x2a_0000_0002),
    (3, 2, 0x2a_0000_0002),
    (4, 1, 0x2a_0000_0002),
    (5, 1, 0x2a_0000_0003),
    (6, 1, 0x2a_0000_0002),
];

/// The keys of node 1 and of another node were read.
fn reading(alloc: Global, read: Read) -> Result<Reading, Fail> {
    let (device, seizer) = (DevId::new(read.0)?, NodeId::new(read.1)?);
    let keys = Keys::new(vec![in alloc; 0x2a_0000_0001, read.2]?);
    Ok(Reading {
        device,
        seizer,
        keys,
    })
}

fn readings(alloc: Global, reads: &[Read]) -> Result<Readings, Fail> {
    let mut readings = Vec::new(alloc);
    for read in reads {
        readings.push(reading(alloc, *read)?)?;
    }
    Ok(Readings::new(readings))
}

/// The words are cut at each semicolon, and none stand for no text.
fn texts(alloc: Global, words: &[u8]) -> Result<Texts, AllocError> {
    let mut texts = Vec::new(alloc);
    for word in words.split(|b| *b == b';') {
        if !word.is_empty() {
            texts.push(Bytes::new(word.to_vec(alloc)?))?;
        }
    }
    Ok(Texts::new(texts))
}

/// No word stands for no text.
fn last_text(alloc: Global, word: &[u8]) -> Result<Option<Bytes>, AllocError> {
    if word.is_empty() {
        return Ok(None);
    }
    Ok(Some(Bytes::new(word.to_vec(alloc)?)))
}

/// The epoch and the members, in bits, of an install.
#[derive(Clone, Copy)]
struct Attempt {
    epoch: u64,
    members: u32,
}

fn install_of(
    alloc: Global,
    attempt: Attempt,
    words: &[u8],
    last: &[u8],
    reads: &[Read],
) -> Result<wire::Install, Fail> {
    let committed = texts(alloc, words)?;
    let pending = last_text(alloc, last)?;
    let readings = readings(alloc, reads)?;
    Ok(wire::Install {
        epoch: Epoch::from_number(attempt.epoch),
        members: NodeSet::from_bits(attempt.members),
        committed,
        pending,
        readings,
    })
}

fn installed(
    alloc: Global,
    node: FormingNode,
    i: &wire::Install,
    wanted: Option<u64>,
) -> Result<(FormingNode, bool), Fail> {
    match node.install(alloc, i) {
        Ok(done) => Ok((done.node, wanted.is_none())),
        Err(InstallError::Refused(node, p)) => Ok((node, wanted == Some(p.number()))),
        Err(InstallError::NoMemory) => Err(Fail::new("no memory")),
    }
}

/// It installs what came, with this epoch.
fn install(
    alloc: Global,
    node: FormingNode,
    i: &mut wire::Install,
    epoch: u64,
    wanted: Option<u64>,
) -> Result<(Node, bool), Fail> {
    i.epoch = Epoch::from_number(epoch);
    let (node, holds) = installed(alloc, node, i, wanted)?;
    Ok((Node::Forming(node), holds))
}

fn start(node: FormingNode, p: u64, wanted: bool) -> (Node, bool) {
    match node.start(Epoch::from_number(p)) {
        Ok(done) => (Node::Member(done.node), wanted),
        Err(node) => (Node::Forming(node), !wanted),
    }
}

/// It comes down.
fn halted(node: HaltedNode) -> (Node, bool) {
    let holds = node.cause() == Panic::Disk;
    (Node::Down(node.down()), holds)
}

fn boot(alloc: Global, node: DownNode) -> Result<(Node, bool), Fail> {
    let (node, saves) = node.boot(alloc, b"")?;
    Ok((Node::Forming(node), saves == 0))
}

fn take_down(alloc: Global, node: DownNode, step: Step) -> Result<(Node, bool), Fail> {
    match step {
        Step::Boot => boot(alloc, node),
        Step::Halt => Ok(halted(node.halt(Panic::Disk))),
        _ => Ok((Node::Down(node), false)),
    }
}

fn join(node: &mut FormingNode, device: u64) -> bool {
    let Ok(device) = DevId::new(device) else {
        return false;
    };
    node.joined(device);
    true
}

fn invalidate(node: &mut FormingNode, device: u64) -> bool {
    let Ok(device) = DevId::new(device) else {
        return false;
    };
    node.invalidate(device);
    true
}

fn change(node: &mut FormingNode, step: Step) -> bool {
    match step {
        Step::Join(device) => join(node, device),
        Step::Invalidate(device) => invalidate(node, device),
        Step::Is(wanted) => seen(node) == wanted,
        _ => false,
    }
}

fn change_forming(mut node: FormingNode, step: Step) -> (Node, bool) {
    let holds = change(&mut node, step);
    (Node::Forming(node), holds)
}

fn take_forming(
    alloc: Global,
    node: FormingNode,
    i: &mut wire::Install,
    step: Step,
) -> Result<(Node, bool), Fail> {
    match step {
        Step::Promise(p, wanted) => Ok(promise_forming(node, p, wanted)),
        Step::Install(p, wanted) => install(alloc, node, i, p, wanted),
        Step::Start(p, wanted) => Ok(start(node, p, wanted)),
        Step::Halt => Ok(halted(node.halt(Panic::Disk))),
        _ => Ok(change_forming(node, step)),
    }
}

fn may_write(node: &MemberNode, device: u64, wanted: u64) -> bool {
    let Ok(device) = DevId::new(device) else {
        return false;
    };
    match node.may_write(device) {
        Ok(e) => e.number() == wanted,
        Err(NotHeld) => wanted == 0,
    }
}

fn prepares(node: &mut MemberNode, place: u64, wanted: Prepared) -> bool {
    match node.prepare(place, b"words") {
        Ok(answer) => answer == wanted,
        Err(_) => false,
    }
}

fn has_rows(alloc: Global, node: &MemberNode, wanted: usize) -> bool {
    match node.record_rows(alloc) {
        Ok(rows) => rows.items().len() == wanted,
        Err(_) => false,
    }
}

fn update(alloc: Global, node: &mut MemberNode, step: Step) -> bool {
    match step {
        Step::MayWrite(device, wanted) => may_write(node, device, wanted),
        Step::Prepare(place, wanted) => prepares(node, place, wanted),
        Step::Commit(place, wanted) => node.commit(place) == wanted,
        Step::RowCount(wanted) => has_rows(alloc, node, wanted),
        Step::Is(wanted) => seen_member(node) == wanted,
        _ => false,
    }
}

fn update_member(alloc: Global, mut node: MemberNode, step: Step) -> (Node, bool) {
    let holds = update(alloc, &mut node, step);
    (Node::Member(node), holds)
}

fn take_member(alloc: Global, node: MemberNode, step: Step) -> (Node, bool) {
    match step {
        Step::Promise(p, wanted) => promise_member(node, p, wanted),
        Step::Crash => (Node::Down(node.crash()), true),
        _ => update_member(alloc, node, step),
    }
}

/// The node then, and whether what the step says holds.
fn take(
    alloc: Global,
    node: Node,
    i: &mut wire::Install,
    step: Step,
) -> Result<(Node, bool), Fail> {
    match node {
        Node::Down(node) => take_down(alloc, node, step),
        Node::Forming(node) => take_forming(alloc, node, i, step),
        Node::Member(node) => Ok(take_member(alloc, node, step)),
    }
}

fn expect(
    rt: &impl Abort,
    alloc: Global,
    i: &mut wire::Install,
    list: usize,
    steps: &[Step],
) -> Result<(), Fail> {
    let mut node = Node::Down(down(VALID)?);
    for place in 0..steps.len() {
        let (next, holds) = take(alloc, node, i, steps[place])?;
        check(rt, holds, list, place);
        node = next;
    }
    Ok(())
}

/// The steps of each list hold, one after the other, of node 2, which is down, where this is what comes with epochs.
fn expect_each(
    rt: &impl Abort,
    alloc: Global,
    i: &mut wire::Install,
    lists: &[&[Step]],
) -> Result<(), Fail> {
    for list in 0..lists.len() {
        expect(rt, alloc, i, list, lists[list])?;
    }
    Ok(())
}

const PROMISES: &[Step] = &[
    Boot,
    Is(FIRST),
    Promise(0, Some(0)),
    Promise(65, None),
    Promise(65, Some(65)),
    Is(PROMISED),
];

// Installs outside the session.
const OUTSIDE_THE_SESSION: &[Step] = &[
    Boot,
    Install(0, Some(0)),
    Install(65, Some(0)),
    Promise(65, None),
    Install(1, Some(65)),
    Is(PROMISED),
];

// The device 5 joins, and the install is repeated. Another session begins, and the device 2 is not valid any more.
const REPEAT: &[Step] = &[
    Boot,
    Promise(65, None),
    Install(65, None),
    Is(INSTALLED),
    Join(5),
    Install(65, None),
    Is(REPEATED),
    Promise(129, None),
    Invalidate(2),
    Is(MOVED_ON),
];

// No start before the install, and none of another session.
const STARTS: &[Step] = &[
    Boot,
    Promise(65, None),
    Start(65, false),
    Start(0, false),
    Is(PROMISED),
    Install(65, None),
    Start(129, false),
    Is(INSTALLED),
    Start(65, true),
    Is(STARTED),
];

const UPDATES: &[Step] = &[
    Boot,
    Promise(65, None),
    Install(65, None),
    Start(65, true),
    MayWrite(4, 65),
    MayWrite(2, 0),
    Prepare(5, Prepared::Gap(4)),
    Is(STARTED),
    Prepare(4, Prepared::Taken),
    Is(PREPARED),
    Prepare(4, Prepared::Already),
    Is(PREPARED),
    Commit(3, false),
    Commit(4, true),
    Is(COMMITTED),
];

// A member promises.
const LEAVE: &[Step] = &[
    Boot,
    Promise(65, None),
    Install(65, None),
    Start(65, true),
    Promise(65, Some(65)),
    Is(STARTED),
    RowCount(7),
    Promise(66, None),
    Is(OUTSIDE),
];

// It comes up from an empty disk with its first record.
const PANICS: &[Step] = &[
    Halt,
    Boot,
    Is(FIRST),
    Promise(65, None),
    Install(65, None),
    Halt,
    Boot,
    Is(FIRST),
];

const CRASHES: &[Step] = &[
    Boot,
    Promise(65, None),
    Install(65, None),
    Start(65, true),
    Crash,
    Boot,
    Is(FIRST),
];

const LISTS: &[&[Step]] = &[
    PROMISES,
    OUTSIDE_THE_SESSION,
    REPEAT,
    STARTS,
    UPDATES,
    LEAVE,
    PANICS,
    CRASHES,
];

#[test]
fn nodes(rt: HostRuntime) -> Result<(), Fail> {
    let attempt = Attempt {
        epoch: 65,
        members: 0b111,
    };
    let mut i = install_of(rt.alloc(), attempt, b"a;b", b"c", READINGS)?;
    expect_each(&rt, rt.alloc(), &mut i, LISTS)
}

/// Whether each update fits a row.
fn all_fit(entries: &Entries) -> bool
    ensures { IsTrue result → All IsRowText (texts_of entries.now) }
{
    let Some(last) = entries.pending() else {
        return entries.committed().iter().all(|text| fits(text.items()));
    };
    fits(last.items()) && entries.committed().iter().all(|text| fits(text.items()))
}

fn fits(text: &[u8]) -> bool
    ensures { IsTrue result ↔ IsRowText text.now }
{
    text.len() <= 65535 && text.iter().all(|b| *b != b'\t' && *b != b'\n')
}

/// Prints the node's record as a table, and boots the node from it; whether the text is this one.
fn rebooted(
    alloc: Global,
    node: &FormingNode,
    saves: u64,
    wanted: &[u8],
) -> Result<(FormingNode, bool), Fail> {
    if !all_fit(node.entries()) {
        return Err(Fail::new("an update does not fit"));
    }
    let rows = node.record_rows(alloc)?;
    let text = print_table(alloc, saves, &rows)?;
    let is_wanted = text.as_slice() == wanted;
    let (node, told) = down(0)?.boot(alloc, text.as_slice())?;
    Ok((node, is_wanted && told == saves))
}

/// The node keeps the promise, and is in no session.
fn is_again(again: &FormingNode, node: &FormingNode) -> bool {
    again.promised().number() == node.promised().number()
        && again.session().number() == 0
        && again.joined_devices() == DevSet::empty()
}

fn has_text_again(
    alloc: Global,
    again: &FormingNode,
    saves: u64,
    wanted: &[u8],
) -> Result<bool, Fail> {
    let (_, holds) = rebooted(alloc, again, saves, wanted)?;
    Ok(holds)
}

/// So it is for a node that has booted from the text too.
fn has_text(alloc: Global, node: &FormingNode, saves: u64, wanted: &[u8]) -> Result<bool, Fail> {
    let (again, holds) = rebooted(alloc, node, saves, wanted)?;
    if !(holds && is_again(&again, node)) {
        return Ok(false);
    }
    has_text_again(alloc, &again, saves, wanted)
}

/// How a node came to its record: the devices that are valid to it at first, in bits, the install, if there is one,
/// with its updates, and the promise after it.
#[derive(Clone, Copy)]
struct Life {
    valid: u16,
    attempt: Option<Attempt>,
    promise: u64,
}

fn up(alloc: Global, valid: u16) -> Result<FormingNode, Fail> {
    Ok(down(valid)?.boot(alloc, b"")?.0)
}

fn with_install(alloc: Global, valid: u16, i: &wire::Install) -> Result<FormingNode, Fail> {
    let (node, _) = promise(up(alloc, valid)?, i.epoch.number(), None);
    Ok(installed(alloc, node, i, None)?.0)
}

/// The node has installed these updates, which are committed but for the last.
fn with_updates(
    alloc: Global,
    valid: u16,
    attempt: Attempt,
    words: &[u8],
    last: &[u8],
) -> Result<FormingNode, Fail> {
    let i = install_of(alloc, attempt, words, last, &[])?;
    with_install(alloc, valid, &i)
}

fn lived(alloc: Global, life: Life, words: &[u8], last: &[u8]) -> Result<FormingNode, Fail> {
    let node = match life.attempt {
        Some(attempt) => with_updates(alloc, life.valid, attempt, words, last)?,
        None => up(alloc, life.valid)?,
    };
    Ok(promise(node, life.promise, None).0)
}

fn check_text(
    rt: &impl Abort,
    alloc: Global,
    node: &FormingNode,
    saves: u64,
    wanted: &[u8],
) -> Result<(), Fail> {
    check(rt, has_text(alloc, node, saves, wanted)?, 0, 0);
    Ok(())
}

/// The text of the record of a node with this life, after so many saves.
fn expect_text(
    rt: &impl Abort,
    alloc: Global,
    life: Life,
    words: &[u8],
    last: &[u8],
    saves: u64,
    wanted: &[u8],
) -> Result<(), Fail> {
    let node = lived(alloc, life, words, last)?;
    check_text(rt, alloc, &node, saves, wanted)
}

// Two updates are committed, and one is pending; a greater epoch was promised since.
const PENDING: &[u8] = b"ccr_gennum 3
ccr_checksum b5f35f359e0bb380805a982fdb51c8abd8c1853d1005972d935f8179ecd897cf
promised\t130
installed\t66
members\t1,2
valid\t1,16
update.1\tclrt register t a START,STOP
update.2\tclrg create g 1,2
pending\tclrs create r g t
";

const WITH_PENDING: Life = Life {
    valid: 0x8001,
    attempt: Some(Attempt {
        epoch: 66,
        members: 0b11,
    }),
    promise: 130,
};

// The first update is pending.
const FIRST_PENDING: &[u8] = b"ccr_gennum 1
ccr_checksum e811ac93f17000bdf5ec21a78545ca2468fd9a56f228245114590de2aaa1c116
promised\t65
installed\t65
members\t2
valid\t3
pending\tx
";

const WITH_FIRST: Life = Life {
    valid: 4,
    attempt: Some(Attempt {
        epoch: 65,
        members: 0b10,
    }),
    promise: 65,
};

const GREATEST: &[u8] = b"ccr_gennum 0
ccr_checksum 9d516626d891253250a884149250bb852d8bfbc7e3e7e5575a7e406d364733fb
promised\t18446744073709551615
installed\t0
members\tnone
valid\tnone
";

const WITH_NOTHING: Life = Life {
    valid: 0,
    attempt: None,
    promise: u64::MAX,
};

const TEN: &[u8] = b"ccr_gennum 12
ccr_checksum 0e62cc0b3b6c93ffb55db36d5a323ca279b878f25abce9b3bfaba27986430492
promised\t66
installed\t65
members\t2,32
valid\t1,2,3,4,5,6,7,8,9,10,11,12,13,14,15,16
update.1\tu1
update.2\tu2
update.3\tu3
update.4\tu4
update.5\tu5
update.6\tu6
update.7\tu7
update.8\tu8
update.9\tu9
update.10\tu10
";

const WITH_TEN: Life = Life {
    valid: u16::MAX,
    attempt: Some(Attempt {
        epoch: 65,
        members: 0x8000_0002,
    }),
    promise: 66,
};

#[test]
fn records(rt: HostRuntime) -> Result<(), Fail> {
    let (words, last) = (
        b"clrt register t a START,STOP;clrg create g 1,2".as_slice(),
        b"clrs create r g t".as_slice(),
    );
    expect_text(&rt, rt.alloc(), WITH_PENDING, words, last, 3, PENDING)?;
    expect_text(&rt, rt.alloc(), WITH_FIRST, b"", b"x", 1, FIRST_PENDING)?;
    expect_text(&rt, rt.alloc(), WITH_NOTHING, b"", b"", 0, GREATEST)?;
    let ten = b"u1;u2;u3;u4;u5;u6;u7;u8;u9;u10".as_slice();
    expect_text(&rt, rt.alloc(), WITH_TEN, ten, b"", 12, TEN)
}
