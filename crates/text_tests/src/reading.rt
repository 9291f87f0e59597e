// Lines and what they are read as, worked from the rules alone.
use cl_base::{DeviceKind, Header, HeaderDevice, Method, Outcome};
use schedule_text::{
    ClusterLine, Event, Head, HeaderReader, Kind, PrLine, ReadError, SoFar, StopChoice,
    read_cluster_line, read_pr_line,
};
use std::alloc::Global;
use std::process::Abort;
use std::test::Fail;

fn kind_word(kind: Kind) -> &'static str {
    match kind {
        Kind::Header => "header",
        Kind::Line => "line",
        Kind::NotBuilt => "not-built",
        Kind::Number => "number",
        Kind::Unknown => "unknown",
    }
}

fn error_word(error: ReadError) -> &'static str {
    match error {
        ReadError::Refused(kind) => kind_word(kind),
        ReadError::NoMemory => "no memory",
    }
}

/// What the last of these lines, between semicolons, comes to, each before it being taken.
fn last_of(alloc: Global, reader: &mut HeaderReader, text: &[u8]) -> Result<bool, ReadError> {
    let mut last = Ok(true);
    for line in text.split(|b| *b == b';') {
        last = reader.take(alloc, line);
    }
    last
}

fn step_word(step: Result<bool, ReadError>) -> &'static str {
    match step {
        Ok(true) => "more",
        Ok(false) => "over",
        Err(error) => error_word(error),
    }
}

/// The lines of a header, and what the last of them comes to.
fn heads(rt: &impl Abort, alloc: Global, text: &[u8], wanted: &str) {
    let mut reader = HeaderReader::new();
    let step = last_of(alloc, &mut reader, text);
    assert_eq!(rt; step_word(step), wanted);
}

/// The header of these lines.
fn header(alloc: Global, text: &[u8]) -> Result<Header, Fail> {
    let mut reader = HeaderReader::new();
    let _last = last_of(alloc, &mut reader, text);
    match reader.finish() {
        Ok(Head::Cluster(header)) => Ok(header),
        _ => Err(Fail::new("no header of a cluster")),
    }
}

fn first_device(header: &Header) -> Result<HeaderDevice, Fail> {
    match header.devices.items() {
        [device, ..] => Ok(*device),
        [] => Err(Fail::new("no device")),
    }
}

/// A row is the lines of a header, a bar, and what the last of them comes to.
const HEADERS: &str = "schedule pr 1;senders 2 1|number
schedule pr 1;senders 17|number
schedule pr 1;# who;senders 1 2;|over
schedule cluster 1;cluster 123456789|header
schedule cluster 1;cluster 2a;end|header
schedule cluster 1;cluster 2a;nodes 3;device 2 data 1|number
schedule cluster 1;cluster 2a;nodes 3;device 1 data 3 3|number
schedule cluster 1;cluster 2a;nodes 3;device 1 data 4 17|number
schedule cluster 2;cluster 2a;nodes 32;configured 31 32|more
schedule cluster 2;cluster 2a;nodes 3;configured 1 4|unknown";

fn heads_all(rt: &impl Abort, alloc: Global, rows: &str) -> Result<(), Fail> {
    for row in rows.split('\n') {
        let (text, wanted) = row.split_once("|").ok_or("a row")?;
        heads(rt, alloc, text.as_bytes(), wanted);
    }
    Ok(())
}

const OF_THE_FIRST: &[u8] =
    b"schedule cluster 1;cluster 2a;nodes 3;device 1 quorum 1 3;device 2 server 1";

fn heads_the_first(rt: &impl Abort, header: &Header) {
    assert!(rt; header.configured.bits() == 0b111);
    assert!(rt; header.devices.items().len() == 1);
}

const OF_THE_SECOND: &[u8] =
    b"schedule cluster 2;cluster 2a;nodes 3;configured 1 3;device 1 data 2 3";

fn heads_the_second(rt: &impl Abort, header: &Header) -> Result<(), Fail> {
    assert!(rt; header.cluster == 42);
    assert!(rt; header.nodes == 3);
    assert!(rt; header.configured.bits() == 0b101);
    let device = first_device(header)?;
    assert!(rt; matches!(device.kind, DeviceKind::Data));
    assert!(rt; device.attached.bits() == 0b110);
    Ok(())
}

#[test]
fn headers(rt: HostRuntime) -> Result<(), Fail> {
    heads_all(&rt, rt.alloc(), HEADERS)?;
    heads_the_first(&rt, &header(rt.alloc(), OF_THE_FIRST)?);
    heads_the_second(&rt, &header(rt.alloc(), OF_THE_SECOND)?)
}

fn event_word(event: &Event) -> &'static str {
    match event {
        Event::Boot(_) => "boot",
        Event::Crash(_) => "crash",
        Event::CrashAt {
            choice: StopChoice::Zero,
            ..
        } => "crashat zero",
        Event::CrashAt { .. } => "crashat",
        Event::Tick(_) => "tick",
        Event::Deliver(_) => "deliver",
        Event::Lose(_) => "lose",
        Event::Repeat(_) => "repeat",
        Event::Next { .. } => "next",
        Event::Drop { .. } => "drop",
        Event::Again { .. } => "again",
        Event::Disk(_) => "disk",
        Event::Fault { done: true, .. } => "fault done",
        Event::Fault { .. } => "fault undone",
        Event::Write { .. } => "write",
        Event::Command { .. } => "cmd",
        Event::Outcome {
            method: Method::MonitorStop,
            outcome: Outcome::Timeout,
            ..
        } => "stop timeout",
        Event::Outcome { .. } => "outcome",
        Event::Probe { good: true, .. } => "probe ok",
        Event::Probe { .. } => "probe fail",
        Event::Clock(_) => "clock",
        Event::Rounds { .. } => "rounds",
        Event::Client { .. } => "client",
    }
}

/// The line is read as this, with the clock at 10 and 99,990 rounds.
fn reads(rt: &impl Abort, alloc: Global, header: &Header, line: &[u8], wanted: &str) {
    let so_far = SoFar {
        clock: 10,
        rounds: 99_990,
    };
    let found = match read_cluster_line(alloc, header, so_far, line) {
        Ok(ClusterLine::Blank) => "blank",
        Ok(ClusterLine::End) => "end",
        Ok(ClusterLine::Event(event)) => event_word(&event),
        Err(error) => error_word(error),
    };
    assert_eq!(rt; found, wanted);
}

const OLD: &[u8] = b"schedule cluster 1;cluster 2a;nodes 3;device 1 quorum 1 3";

const NEW: &[u8] = b"schedule cluster 2;cluster 2a;nodes 32;configured 1;device 1 quorum 1 3";

fn reads_all(rt: &impl Abort, alloc: Global, header: &Header, rows: &str) -> Result<(), Fail> {
    for row in rows.split('\n') {
        let (line, wanted) = row.split_once("|").ok_or("a row")?;
        reads(rt, alloc, header, line.as_bytes(), wanted);
    }
    Ok(())
}

/// A row is a line under this header, a bar, and what the line is read as.
fn expect(rt: &impl Abort, alloc: Global, of_header: &[u8], rows: &str) -> Result<(), Fail> {
    let header = header(alloc, of_header)?;
    reads_all(rt, alloc, &header, rows)
}

const EVENTS: &str = "boot 3|boot
crash 1|crash
crashat 1 1000 zero|crashat zero
tick 2|tick
deliver 0|deliver
lose 7|lose
repeat 8|repeat
next 2 2|next
drop 1 2|drop
again 1 2|again
disk 1|disk
fault 1 1 undone|fault undone
write 2 1 7|write
cmd 1 clrg create g 1,2|cmd
outcome 1 r1 MONITOR_STOP timeout|stop timeout
probe 1 r1 ok|probe ok
clock 10|clock
rounds 10 3 1 3|rounds
#|blank
end|end";

#[test]
fn events(rt: HostRuntime) -> Result<(), Fail> {
    expect(&rt, rt.alloc(), OLD, EVENTS)
}

const REFUSALS: &str = "boot  1|line
power|line
write 17 1 07|line
cmd 1 |line
cmd 1 clrg status |line
outcome 1 R START success|line
outcome 1 r start success|line
rounds 1|line
boot 17|number
boot 4|unknown
write 4 17 1|number
write 1 2 1|unknown
deliver 18446744073709551616|number
crashat 1 1001 old|number
clock 9|number
rounds 11 1|number
rounds 0 4|number
client 1 a 1 1|line";

#[test]
fn refusals(rt: HostRuntime) -> Result<(), Fail> {
    expect(&rt, rt.alloc(), OLD, REFUSALS)
}

const EVENTS_OF_VERSION_TWO: &str = "boot 32|boot
boot 33|number
client 1 a 4294967295 65535|client
client 1 a 1 65536|number
server 33 17 ok ask-twice|not-built
server 1 1|line
serverstop 1 0 old|not-built";

#[test]
fn events_of_version_two(rt: HostRuntime) -> Result<(), Fail> {
    expect(&rt, rt.alloc(), NEW, EVENTS_OF_VERSION_TWO)
}

/// The line of a reservation schedule is read as this.
fn reads_pr(rt: &impl Abort, line: &[u8], wanted: &str) {
    let found = match read_pr_line(line) {
        Ok(PrLine::Blank) => "blank",
        Ok(PrLine::End) => "end",
        Ok(PrLine::Power) => "power",
        Ok(PrLine::Command { .. }) => "command",
        Err(kind) => kind_word(kind),
    };
    assert_eq!(rt; found, wanted);
}

const RESERVATION_LINES: &str = "power|power
16 keys|command
1 preempt 5 b2 a1|command
# no more|blank
end|end
boot 1|line
1 preempt 5 b2 a1 c3|line
17 keys|number
1 reserve 2 a1|number";

#[test]
fn reservation_lines(rt: HostRuntime) -> Result<(), Fail> {
    for row in RESERVATION_LINES.split('\n') {
        let (line, wanted) = row.split_once("|").ok_or("a row")?;
        reads_pr(&rt, line.as_bytes(), wanted);
    }
    Ok(())
}
