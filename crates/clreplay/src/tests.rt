ghost use Rattle.std.specs.Prelude.{Some};
ghost use Rattle.world_model.specs.Lines.{IsPlayable};

use cl_base::{
    DevId, DevSet, DeviceKind, Header, HeaderDevice, HeaderDevices, NodeId, NodeSet, Outcome,
    Panic, Version,
};
use cl_io::{Failed, MemSink, MemSource, Sink, Source};
use cmm_attempt::AttachedDevices;
use node::{Input, step};
use node_model::{Cluster, FirstHeader, Node, Output};
use quorum_votes::Votes;
use record_disk::SimulatedDisk;
use replay::{Status, run_words};
use schedule_text::Event;
use status_report::{DownCause, Entry, NodeEntry};
use std::alloc::Global;
use std::process::Abort;
use std::test::Fail;
use world::{Agents, World};

/// A source that gives one byte at a time.
#[derive(Drop)]
struct Trickle {
    source: MemSource,
}

impl Source for Trickle {
    ghost left = { λ t. Some t.source.left };

    ghost faults = { λ t. t.source.faults };

    fn read_piece(&mut self, buf: &mut [u8]) -> Result<usize, Failed> {
        if buf.is_empty() {
            return self.source.read_piece(buf);
        }
        self.source.read_piece(&mut buf[..1])
    }
}

/// A sink that takes one byte at a time.
#[derive(Drop)]
struct Sip {
    sink: MemSink,
}

impl Sink for Sip {
    ghost held = { λ s. Some s.sink.held };

    ghost faults = { λ s. s.sink.faults };

    fn write_piece(&mut self, bytes: &[u8]) -> Result<usize, Failed> {
        if bytes.is_empty() {
            return self.sink.write_piece(bytes);
        }
        self.sink.write_piece(&bytes[..1])
    }
}

fn status_of<S: Source, K: Sink>(
    alloc: Global,
    word: &str,
    source: &mut S,
    sink: &mut K,
) -> Result<Status, Fail> {
    let words = vec![in alloc; String::from_str(alloc, word)?]?;
    Ok(run_words(alloc, &words, source, sink, Vec::new(alloc)))
}

fn source_of(alloc: Global, input: &[u8], fails: &[u64]) -> Result<MemSource, Fail> {
    Ok(MemSource::new(
        Vec::from_slice(alloc, input)?,
        Vec::from_slice(alloc, fails)?,
    ))
}

fn sink_of(alloc: Global, room: u64, fails: &[u64]) -> Result<MemSink, Fail> {
    Ok(MemSink::new(alloc, room, Vec::from_slice(alloc, fails)?)?)
}

/// The word over the input writes this output and ends so, whole and byte by byte.
fn expect(
    rt: &impl Abort,
    alloc: Global,
    word: &str,
    input: &[u8],
    output: &[u8],
    status: Status,
) -> Result<(), Fail> {
    let mut source = source_of(alloc, input, &[])?;
    let mut sink = sink_of(alloc, 65_536, &[])?;
    let ended = status_of(alloc, word, &mut source, &mut sink)?;
    assert_eq!(rt; sink.bytes(), output);
    assert_eq!(rt; ended, status);
    expect_slowly(rt, alloc, word, input, output, status)
}

fn expect_slowly(
    rt: &impl Abort,
    alloc: Global,
    word: &str,
    input: &[u8],
    output: &[u8],
    status: Status,
) -> Result<(), Fail> {
    let mut source = Trickle {
        source: source_of(alloc, input, &[])?,
    };
    let mut sink = Sip {
        sink: sink_of(alloc, 65_536, &[])?,
    };
    let ended = status_of(alloc, word, &mut source, &mut sink)?;
    assert_eq!(rt; sink.sink.bytes(), output);
    assert_eq!(rt; ended, status);
    Ok(())
}

/// `run` over the input, with calls that fail and a room.
fn expect_faults(
    rt: &impl Abort,
    alloc: Global,
    reads: &[u64],
    writes: &[u64],
    room: u64,
    output: &[u8],
    status: Status,
) -> Result<(), Fail> {
    let input =
        b"schedule pr 1\nsenders 1 2 3\n1 register 0 a1\n1 reserve 5 a1\n1 write 7\n2 write 8\n2 read\n";
    let mut source = source_of(alloc, input.as_slice(), reads)?;
    let mut sink = sink_of(alloc, room, writes)?;
    let ended = status_of(alloc, "run", &mut source, &mut sink)?;
    assert_eq!(rt; sink.bytes(), output);
    assert_eq!(rt; ended, status);
    Ok(())
}

#[test]
fn pieces_do_not_matter(rt: HostRuntime) -> Result<(), Fail> {
    let alloc = rt.alloc();
    expect(
        &rt,
        alloc,
        "run",
        b"schedule pr 1\nsenders 1 2\n1 ignore a1\n1 reserve 5 a1\npower\n\n# a comment\n2 write 1\n1 keys\n3 keys\n1 swap 0 65\n1 word",
        b"good\ngood\npowered\nconflict\nkeys a1\nno-path\ngood\nword 65\n",
        Status::Done,
    )?;
    expect(
        &rt,
        alloc,
        "run",
        b"schedule pr 1\nsenders 1 2\n1 keys\n1 frob\n1 keys\n",
        b"keys none\nrefused 4 line\n",
        Status::Refused,
    )?;
    expect(
        &rt,
        alloc,
        "check",
        b"schedule cluster 1\ncluster 2a\nnodes 2\nboot 1\nclock 60\nend\nboot 3\n",
        b"checked 6\n",
        Status::Done,
    )
}

#[test]
fn faults_are_told(rt: HostRuntime) -> Result<(), Fail> {
    let alloc = rt.alloc();
    let all = b"good\ngood\ngood\nconflict\ndata 7\n".as_slice();
    expect_faults(&rt, alloc, &[0], &[], 4096, b"", Status::ReadFault)?;
    expect_faults(&rt, alloc, &[3], &[], 4096, all, Status::ReadFault)?;
    expect_faults(&rt, alloc, &[], &[0], 4096, b"", Status::WriteFault)?;
    expect_faults(
        &rt,
        alloc,
        &[],
        &[],
        12,
        b"good\ngood\ngo",
        Status::WriteFault,
    )
}

/// One node forms a membership, and writes to its disk.
fn one_node() -> &'static [u8] {
    b"schedule cluster 1\ncluster 2a\nnodes 1\ndevice 1 data 1\nboot 1\ntick 1\ntick 1\ntick 1\n\
        disk 1\ndisk 1\ndisk 1\ndisk 1\ndisk 1\ndisk 1\nwrite 1 1 7\n"
}

/// What that writes.
fn one_node_text() -> &'static [u8] {
    b"up 1\nticked 1\nticked 1\nticked 1\nsaved 1\nattempt 65 1\n\
        device 1 1 ignore 2a00000001 = good\ndevice 1 1 word = word 0\n\
        device 1 1 swap 0 65 = good\ndevice 1 1 reserve 5 2a00000001 = good\n\
        device 1 1 keys = keys 2a00000001\ndevice 1 1 word = word 65\nsaved 1\ninstalled 1 65\n\
        start 65 1 held 1 base 0\nmember 1 65\ndevice 1 1 write 7 = good\n\
        write 65 1 1 7 accepted\n"
}

/// These calls of the source and of the sink fail, counted from 0: what is written is a beginning of
/// the text.
fn expect_refused(
    rt: &impl Abort,
    alloc: Global,
    reads: &[u64],
    writes: &[u64],
    room: u64,
    status: Status,
) -> Result<(), Fail> {
    let mut source = source_of(alloc, one_node(), reads)?;
    let mut sink = sink_of(alloc, room, writes)?;
    let ended = status_of(alloc, "run", &mut source, &mut sink)?;
    assert_eq!(rt; ended, status);
    assert!(rt; one_node_text().starts_with(sink.bytes()));
    Ok(())
}

/// The source fails at its first calls; the sink takes nothing, and fails at each of the four calls
/// that the text takes.
#[test]
fn refused_calls(rt: HostRuntime) -> Result<(), Fail> {
    let alloc = rt.alloc();
    expect_refused(&rt, alloc, &[0], &[], 4096, Status::ReadFault)?;
    expect_refused(&rt, alloc, &[1], &[], 4096, Status::ReadFault)?;
    expect_refused(&rt, alloc, &[], &[], 0, Status::WriteFault)?;
    for call in 0..4 {
        expect_refused(&rt, alloc, &[], &[call], 4096, Status::WriteFault)?;
    }
    let (input, text) = (one_node(), one_node_text());
    expect(&rt, alloc, "run", input, text, Status::Done)
}

/// `gen 7 0` over a sink with a room.
fn expect_made(
    rt: &impl Abort,
    alloc: Global,
    room: u64,
    output: &[u8],
    status: Status,
) -> Result<(), Fail> {
    let mut words = Vec::new(alloc);
    words.push(String::from_str(alloc, "gen")?)?;
    words.push(String::from_str(alloc, "7")?)?;
    words.push(String::from_str(alloc, "0")?)?;
    let mut source = source_of(alloc, b"end\n", &[])?;
    let mut sink = sink_of(alloc, room, &[])?;
    let ended = run_words(alloc, &words, &mut source, &mut sink, Vec::new(alloc));
    assert_eq!(rt; sink.bytes(), output);
    assert_eq!(rt; ended, status);
    Ok(())
}

#[test]
fn made_schedule(rt: HostRuntime) -> Result<(), Fail> {
    let alloc = rt.alloc();
    let summary = b"lines 10\nstarts 1\nacks 0\naccepted 0\nrefused 0\ncalls 0\n".as_slice();
    expect_made(&rt, alloc, 4096, summary, Status::Done)?;
    expect_made(&rt, alloc, 12, b"lines 10\nsta", Status::WriteFault)
}

/// With one cell of 256 bytes for all packets node 1, which ticks first, never hears node 2: its
/// heartbeats find no room. So it forms a membership alone.
#[test]
fn one_cell(rt: HostRuntime) -> Result<(), Fail> {
    let alloc = rt.alloc();
    let text = played_in_one_cell(alloc)?;
    assert!(rt; text.ends_with(b"rounds done\nwrite 2 1 5 refused not-member\n".as_slice()));
    Ok(())
}

fn played_in_one_cell(alloc: Global) -> Result<Vec<u8>, Fail> {
    let mut world = two_nodes(alloc)?;
    let mut text = Vec::new(alloc);
    match play(alloc, &mut world, &mut text) {
        Ok(()) => Ok(text),
        Err(fail) => Err(fail),
    }
}

/// Two nodes with a quorum device, and one cell for all packets.
fn two_nodes(alloc: Global) -> Result<World, Fail> {
    let nodes = NodeSet::first(2);
    let device = HeaderDevice {
        kind: DeviceKind::Quorum,
        attached: nodes,
    };
    let header = Header {
        version: Version::One,
        cluster: 0x2a,
        nodes: 2,
        configured: nodes,
        devices: HeaderDevices::new(vec![in alloc; device]?),
    };
    let agents = Agents::new(Vec::new(alloc));
    Ok(World::with_cells(alloc, &header, 1, agents)?)
}

/// Both come up and have rounds, and the second writes.
fn play(alloc: Global, world: &mut World, text: &mut Vec<u8>) -> Result<(), Fail> {
    let (one, two) = (NodeId::new(1)?, NodeId::new(2)?);
    let nodes = NodeSet::first(2);
    do_line(alloc, world, Event::Boot(one), text)?;
    do_line(alloc, world, Event::Boot(two), text)?;
    do_line(alloc, world, Event::Rounds { count: 60, nodes }, text)?;
    let write = Event::Write {
        node: two,
        device: DevId::new(1)?,
        value: 5,
    };
    do_line(alloc, world, write, text)
}

fn do_line(alloc: Global, world: &mut World, event: Event, text: &mut Vec<u8>) -> Result<(), Fail>
    requires playable { IsPlayable event }
{
    world.step(alloc, &event, text)?;
    Ok(())
}

/// What a cluster of this node alone knows, without a device.
fn cluster_of(alloc: Global, me: NodeId) -> Cluster {
    let nodes = NodeSet::empty().with(me);
    let header = Header {
        version: Version::One,
        cluster: 0x2a,
        nodes: 1,
        configured: nodes,
        devices: HeaderDevices::new(Vec::new(alloc)),
    };
    let votes = Votes::first(&header);
    Cluster {
        header: FirstHeader::new(header),
        id: 0x2a,
        nodes,
        configured: nodes,
        devices: DevSet::empty(),
        attached: AttachedDevices::new(Vec::new(alloc)),
        first_valid: DevSet::empty(),
        votes,
    }
}

fn is_disk_panic(output: &Output) -> bool {
    match output {
        Output::Tells(Entry::Node { entry, .. }) => {
            matches!(entry, NodeEntry::Down(DownCause::Panic(Panic::Disk)))
        }
        _ => false,
    }
}

fn tick(
    alloc: Global,
    cluster: &Cluster,
    me: NodeId,
    disk: &mut SimulatedDisk,
    node: &mut Node,
) -> Result<Vec<Output>, Fail> {
    let mut given = Vec::new(alloc);
    step(
        alloc,
        cluster,
        me,
        0,
        Outcome::Failure,
        disk,
        node,
        &Input::Tick,
        &mut given,
    )?;
    Ok(given)
}

fn come_up(alloc: Global, cluster: &Cluster, me: NodeId, node: &mut Node) -> Result<(), Fail> {
    let mut disk = SimulatedDisk::new(alloc, DevSet::empty())?;
    let mut given = Vec::new(alloc);
    step(
        alloc,
        cluster,
        me,
        0,
        Outcome::Failure,
        &mut disk,
        node,
        &Input::Boot,
        &mut given,
    )?;
    Ok(())
}

/// What the node gives at the third tick.
fn tick_thrice(
    alloc: Global,
    cluster: &Cluster,
    me: NodeId,
    disk: &mut SimulatedDisk,
    node: &mut Node,
) -> Result<Vec<Output>, Fail> {
    for _ in 0..2 {
        tick(alloc, cluster, me, disk, node)?;
    }
    tick(alloc, cluster, me, disk, node)
}

/// The first save of a node fails that came up with one disk and has another now, which was not mounted.
#[test]
fn failed_disk(rt: HostRuntime) -> Result<(), Fail> {
    let alloc = rt.alloc();
    let me = NodeId::new(1)?;
    let cluster = cluster_of(alloc, me);
    let falls = falls_by_its_disk(alloc, &cluster, me)?;
    assert!(rt; falls);
    Ok(())
}

fn falls_by_its_disk(alloc: Global, cluster: &Cluster, me: NodeId) -> Result<bool, Fail> {
    let mut node = Node::Down;
    lose_a_save(alloc, cluster, me, &mut node)
}

/// The node comes up with one disk, and has another from then on. Whether it is down then, and has told why.
fn lose_a_save(
    alloc: Global,
    cluster: &Cluster,
    me: NodeId,
    node: &mut Node,
) -> Result<bool, Fail> {
    come_up(alloc, cluster, me, node)?;
    let given = tick_elsewhere(alloc, cluster, me, node)?;
    Ok(matches!(node, Node::Down) && given.iter().any(is_disk_panic))
}

/// What the node gives at its third tick with an empty disk.
fn tick_elsewhere(
    alloc: Global,
    cluster: &Cluster,
    me: NodeId,
    node: &mut Node,
) -> Result<Vec<Output>, Fail> {
    let mut other = SimulatedDisk::new(alloc, DevSet::empty())?;
    tick_thrice(alloc, cluster, me, &mut other, node)
}
