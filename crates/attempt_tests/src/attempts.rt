ghost use Rattle.std.specs.Prelude.{◌≡◌, true, IfOk};
ghost use Rattle.wire.specs.Kinds.{is_promise};
ghost use Rattle.cmm_attempt.specs.Attempts.{is_of, HasFewKeys};

use Given::{Comes, OwnHeld, OwnReady, OwnUnregistered, Tick, WithVotes};
use Sent::{Flagged, Nack, Promise, Ready, Seized};
use cl_base::{
    DevId, DevSet, DeviceKind, Epoch, Header, HeaderDevice, HeaderDevices, MessageKind, NodeId,
    NodeSet, SeizeEnd, Version,
};
use cmm_attempt::{AttachedDevice, AttachedDevices, Attempt, AttemptEnd, Step, Steps};
use pgr_device::KeyList;
use quorum_votes::Votes;
use std::alloc::Global;
use std::process::Abort;
use std::test::Fail;
use wire::{Body, GroupReports, Keys, Message, Report, ResourceReports, SeizedResult, Texts};

/// A message that comes, of this epoch where it is told.
#[derive(Clone, Copy)]
enum Sent {
    Promise(u64),
    /// A Promise with resource flags, of a record that was installed under epoch 1.
    Flagged,
    Nack(u64),
    /// Of this device.
    Seized(u64),
    Ready,
}

/// What happens to an attempt 65 of node 1.
#[derive(Clone, Copy)]
enum Given {
    /// The node's message comes.
    Comes(u64, Sent),
    /// The votes, where these nodes are configured.
    WithVotes(u32),
    OwnHeld(u64),
    OwnUnregistered(u64),
    OwnReady,
    Tick,
}

/// A step in short: a word, and the number that goes with it.
type Short = (&'static str, Option<u64>);

fn in_short(step: &Step) -> Short {
    match step {
        Step::Send { to, message } => (kind_word(message.body.kind()), Some(to.number())),
        Step::SeizeHere { dev, .. } => ("seize", Some(dev.number())),
        Step::NeedVotes { newest } => ("votes of", Some(newest.number())),
        Step::InstallHere(_) => ("install", None),
        Step::StartHere => ("start", None),
        Step::Ended(end) => end_in_short(end),
    }
}

/// Of votes, how many there are.
fn end_in_short(end: &AttemptEnd) -> Short {
    match end {
        AttemptEnd::Votes { have, .. } => ("too few", Some(*have)),
        AttemptEnd::Superseded(p) => ("superseded", Some(p.number())),
        AttemptEnd::Silent(n) => ("silent", Some(n.number())),
        AttemptEnd::Foreign(n) => ("foreign", Some(n.number())),
        AttemptEnd::Excluded(n) => ("excluded", Some(n.number())),
    }
}

/// How many votes are needed, where that is why the attempt ends.
fn needed(step: &Step) -> Option<u64> {
    match step {
        Step::Ended(AttemptEnd::Votes { need, .. }) => Some(*need),
        _ => None,
    }
}

fn tell_number(text: &mut String, number: Option<u64>) -> Result<(), Fail> {
    if let Some(number) = number {
        write!(text, " {number}")?;
    }
    Ok(())
}

fn tell(text: &mut String, step: &Step) -> Result<(), Fail> {
    let (word, number) = in_short(step);
    text.push_str(word)?;
    tell_number(text, number)?;
    tell_number(text, needed(step))?;
    Ok(text.push(';')?)
}

/// The steps in short, in a line.
fn tell_all(text: &mut String, steps: &Steps) -> Result<(), Fail> {
    for step in steps.items() {
        tell(text, step)?;
    }
    Ok(text.push('\n')?)
}

fn kind_word(kind: MessageKind) -> &'static str {
    match kind {
        MessageKind::Collect => "collect",
        MessageKind::SeizeQuorum => "quorum",
        MessageKind::SeizeData => "data",
        MessageKind::Install => "install",
        MessageKind::Start => "start",
        _ => "other",
    }
}

/// A Promise of an empty record.
fn promise(
    alloc: Global,
    from: u64,
    epoch: u64,
    installed: u64,
    flagged: bool,
) -> Result<Message, Fail>
    ensures sender { IfOk result (λ m. m.sender ≡ from) }
    ensures kind { IfOk result (λ m. is_promise m.body ≡ true) }
    ensures of { IfOk result (λ m. is_of epoch m.body ≡ true) }
    ensures few { IfOk result (λ m. HasFewKeys m.body) }
{
    Ok(Message {
        sender: NodeId::new(from)?,
        body: Body::Promise {
            epoch: Epoch::from_number(epoch),
            installed: Epoch::from_number(installed),
            members: NodeSet::from_bits(0b01),
            valid: DevSet::from_bits(1),
            flagged,
            committed: Texts::new(Vec::new(alloc)),
            pending: None,
        },
    })
}

fn seized(alloc: Global, from: u64, device: u64) -> Result<Message, Fail>
    ensures { IfOk result (λ m. HasFewKeys m.body) }
{
    let keys = Keys::new(vec![in alloc; 0x2a_0000_0002]?);
    Ok(Message {
        sender: NodeId::new(from)?,
        body: Body::Seized {
            epoch: Epoch::from_number(65),
            device: DevId::new(device)?,
            outcome: SeizedResult::Held(keys),
        },
    })
}

fn ready(alloc: Global, from: u64) -> Result<Message, Fail>
    ensures { IfOk result (λ m. HasFewKeys m.body) }
{
    let report = Report {
        resources: ResourceReports::new(Vec::new(alloc)),
        groups: GroupReports::new(Vec::new(alloc)),
    };
    Ok(Message {
        sender: NodeId::new(from)?,
        body: Body::Ready {
            epoch: Epoch::from_number(65),
            joined: DevSet::from_bits(0),
            report,
        },
    })
}

fn nack(from: u64, epoch: u64) -> Result<Message, Fail>
    ensures { IfOk result (λ m. HasFewKeys m.body) }
{
    Ok(Message {
        sender: NodeId::new(from)?,
        body: Body::Nack {
            epoch: Epoch::from_number(epoch),
            promised: Epoch::from_number(130),
        },
    })
}

/// Device 1 is a quorum device of nodes 1 and 2, device 2 a data device of nodes 1 and 3.
fn devices(alloc: Global) -> Result<AttachedDevices, Fail> {
    let one = AttachedDevice {
        device: DevId::new(1)?,
        nodes: NodeSet::from_bits(0b011),
    };
    let two = AttachedDevice {
        device: DevId::new(2)?,
        nodes: NodeSet::from_bits(0b101),
    };
    Ok(AttachedDevices::new(vec![in alloc; one, two]?))
}

/// The votes of these nodes with these devices.
fn votes(alloc: Global, configured: u32) -> Result<Votes, Fail> {
    let one = HeaderDevice {
        kind: DeviceKind::Quorum,
        attached: NodeSet::from_bits(0b011),
    };
    let two = HeaderDevice {
        kind: DeviceKind::Data,
        attached: NodeSet::from_bits(0b101),
    };
    let header = Header {
        version: Version::Two,
        cluster: 42,
        nodes: 3,
        configured: NodeSet::from_bits(configured),
        devices: HeaderDevices::new(vec![in alloc; one, two]?),
    };
    Ok(Votes::first(&header))
}

fn message(alloc: Global, from: u64, sent: Sent) -> Result<Message, Fail>
    ensures { IfOk result (λ m. HasFewKeys m.body) }
{
    match sent {
        Sent::Promise(epoch) => promise(alloc, from, epoch, 0, false),
        Sent::Flagged => promise(alloc, from, 65, 1, true),
        Sent::Nack(epoch) => nack(from, epoch),
        Sent::Seized(device) => seized(alloc, from, device),
        Sent::Ready => ready(alloc, from),
    }
}

fn take(alloc: Global, a: &mut Attempt, from: u64, sent: Sent) -> Result<Steps, Fail> {
    let node = NodeId::new(from)?;
    let message = message(alloc, from, sent)?;
    Ok(a.take(node, &message)?)
}

fn own(a: &mut Attempt, device: u64, r: SeizeEnd<KeyList>) -> Result<Steps, Fail> {
    Ok(a.own_seized(DevId::new(device)?, r)?)
}

/// The votes are given where they are wanted.
fn give(alloc: Global, a: &mut Attempt, configured: u32) -> Result<Steps, Fail> {
    if !a.needs_votes() {
        return Err("no votes are wanted".into());
    }
    Ok(a.with_votes(votes(alloc, configured)?, None)?)
}

fn call(alloc: Global, a: &mut Attempt, given: Given) -> Result<Steps, Fail> {
    let no_keys = KeyList::new(&[]);
    match given {
        Given::Comes(n, sent) => take(alloc, a, n, sent),
        Given::WithVotes(configured) => give(alloc, a, configured),
        Given::OwnHeld(device) => own(a, device, SeizeEnd::Held(no_keys)),
        Given::OwnUnregistered(device) => own(a, device, SeizeEnd::NotRegistered(no_keys)),
        Given::OwnReady => Ok(a.own_ready()?),
        Given::Tick => Ok(a.tick()?),
    }
}

fn call_and_tell(
    alloc: Global,
    text: &mut String,
    a: &mut Attempt,
    given: Given,
) -> Result<(), Fail> {
    let steps = call(alloc, a, given)?;
    tell_all(text, &steps)
}

/// The steps that come of each, and whether the attempt is over then.
fn take_all(alloc: Global, text: &mut String, a: &mut Attempt, list: &[Given]) -> Result<(), Fail> {
    for given in list {
        call_and_tell(alloc, text, a, *given)?;
    }
    if a.is_over() {
        text.push_str("over")?;
    }
    Ok(())
}

/// An attempt 65 of node 1, of these members, whose own record was installed under this epoch.
fn begin(alloc: Global, members: u32, installed: u64) -> Result<(Attempt, Steps), Fail> {
    let members = NodeSet::from_bits(members);
    if !members.has(NodeId::new(1)?) {
        return Err("no coordinator".into());
    }
    let devices = devices(alloc)?;
    let own = promise(alloc, 1, 65, installed, false)?;
    Ok(Attempt::begin(alloc, Epoch::from_number(65), members, own, devices, 42)?)
}

fn begin_and_take_all(
    alloc: Global,
    text: &mut String,
    members: u32,
    installed: u64,
    list: &[Given],
) -> Result<(), Fail> {
    let (mut a, steps) = begin(alloc, members, installed)?;
    tell_all(text, &steps)?;
    take_all(alloc, text, &mut a, list)
}

/// The first steps of such an attempt, and those that come of each of the list, a line each.
fn expect(
    rt: &impl Abort,
    alloc: Global,
    members: u32,
    installed: u64,
    list: &[Given],
    wanted: &str,
) -> Result<(), Fail> {
    let mut text = String::new(alloc);
    begin_and_take_all(alloc, &mut text, members, installed, list)?;
    assert!(rt; text.as_str() == wanted);
    Ok(())
}

const THREE: &[Given] = &[
    Comes(2, Promise(65)),
    Comes(3, Promise(129)),
    Comes(3, Promise(65)),
    WithVotes(0b111),
    Comes(2, Seized(1)),
    OwnHeld(1),
    OwnHeld(2),
    OwnReady,
    Comes(3, Ready),
    Comes(2, Ready),
];

const OF_THREE: &str = "collect 2;collect 3;


votes of 1;
seize 1;

seize 2;
install;install 2;install 3;


start;start 2;start 3;
over";

#[test]
fn three_nodes_start(rt: HostRuntime) -> Result<(), Fail> {
    expect(&rt, rt.alloc(), 0b111, 0, THREE, OF_THREE)
}

const REFUSED: &[Given] = &[Comes(2, Nack(129)), Comes(2, Nack(65))];

const OF_REFUSED: &str = "collect 2;

superseded 130;
over";

// Node 2 has resource flags of an older membership; all nodes are configured, or node 1 alone.
const EXCLUDED: &[Given] = &[Comes(2, Flagged), WithVotes(0b111)];

const OF_EXCLUDED: &str = "collect 2;
votes of 1;
excluded 2;
over";

const FOREIGN: &[Given] = &[Comes(2, Flagged), WithVotes(0b001)];

const OF_FOREIGN: &str = "collect 2;
votes of 1;
foreign 2;
over";

const TOO_FEW: &[Given] = &[WithVotes(0b011), OwnUnregistered(1)];

const OF_TOO_FEW: &str = "votes of 1;
seize 1;
too few 1 2;
over";

#[test]
fn ends(rt: HostRuntime) -> Result<(), Fail> {
    expect(&rt, rt.alloc(), 0b011, 0, REFUSED, OF_REFUSED)?;
    expect(&rt, rt.alloc(), 0b011, 2, EXCLUDED, OF_EXCLUDED)?;
    expect(&rt, rt.alloc(), 0b011, 2, FOREIGN, OF_FOREIGN)?;
    expect(&rt, rt.alloc(), 0b001, 0, TOO_FEW, OF_TOO_FEW)
}

const SILENCE: &[Given] = &[
    Comes(2, Promise(65)),
    Tick,
    Tick,
    Tick,
    Tick,
    Tick,
    Tick,
    Tick,
    Tick,
    Tick,
];

const OF_SILENCE: &str = "collect 2;collect 3;




collect 3;



silent 3;

over";

#[test]
fn silence_and_resends(rt: HostRuntime) -> Result<(), Fail> {
    expect(&rt, rt.alloc(), 0b111, 0, SILENCE, OF_SILENCE)
}
