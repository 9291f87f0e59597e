// A cluster's configuration, commands that change it, and what becomes of each.
use admin_words::parse;
use ccr_tables::{AdminCommand, ApplyError, Config};
use cl_base::{DeviceKind, Header, HeaderDevice, HeaderDevices, NodeSet, Version};
use status_report::{Answer, answer_text};
use std::alloc::Global;
use std::process::Abort;
use std::test::Fail;

/// Four nodes, of which three are configured, a data device and a quorum device.
pub fn first(alloc: Global) -> Result<Config, Fail> {
    let attached = NodeSet::first(2);
    let data = HeaderDevice {
        kind: DeviceKind::Data,
        attached,
    };
    let quorum = HeaderDevice {
        kind: DeviceKind::Quorum,
        attached,
    };
    let header = Header {
        version: Version::Two,
        cluster: 42,
        nodes: 4,
        configured: NodeSet::first(3),
        devices: HeaderDevices::new(vec![in alloc; data, quorum]?),
    };
    Ok(Config::first(alloc, &header)?)
}

/// `ok` where the update is applied, and else the answer's words.
fn told(alloc: Global, found: Result<(), ApplyError>) -> Result<Vec<u8>, Fail> {
    match found {
        Ok(()) => Ok(answer_text(alloc, &Answer::Ok)?),
        Err(ApplyError::Refused(refusal)) => Ok(answer_text(alloc, &Answer::Refused(refusal))?),
        Err(ApplyError::NoMemory) => Err(Fail::new("no memory")),
    }
}

/// The update of these words is applied, or refused.
fn applied(alloc: Global, config: &mut Config, words: &[u8]) -> Result<Vec<u8>, Fail> {
    match parse(alloc, config.version(), words)? {
        AdminCommand::Change(u) => told(alloc, config.apply(&u)),
        _ => Err(Fail::new("not an update")),
    }
}

/// A row: the words of a command, a bar, its answer.
fn answered(rt: &impl Abort, alloc: Global, config: &mut Config, row: &[u8]) -> Result<(), Fail> {
    let parts: Vec<&[u8]> = row.split(|b| *b == b'|').collect(alloc)?;
    let [words, wanted] = parts.as_slice() else {
        return Err(Fail::new("a row has two parts"));
    };
    let found = applied(alloc, config, words)?;
    assert_eq!(rt; found.as_slice(), *wanted);
    Ok(())
}

/// The rows hold, one after the other.
pub fn play(rt: &impl Abort, alloc: Global, config: &mut Config, rows: &[u8]) -> Result<(), Fail> {
    for row in rows.split(|b| *b == b'\n') {
        answered(rt, alloc, config, row)?;
    }
    Ok(())
}
