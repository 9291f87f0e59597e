ghost use Rattle.std.specs.Prelude.{◌≡◌, ◌≤◌, ◌<◌, ◌++◌, ◌∷◌, [], ◌==◌, ◌&&◌, not, if◌then◌else◌, length, map, Ok, None, Some, IfOk, IfSome, Result, Option};
ghost use Rattle.std.specs.List.{list_all};
ghost use Rattle.cl_base.specs.declared.header.HeaderDevice.{HeaderDevice};
ghost use Rattle.schedule_text.specs.Allowed.{IsAllowedState, IsHeader, IsAttached};
ghost use Rattle.schedule_text.specs.Headers.{cluster_line, nodes_line, counted, configured_line, device_line, described, attached, ascending, is_next, is_server};
ghost use Rattle.schedule_text.specs.Choices.{device_kind_in};
ghost use Rattle.schedule_text.specs.HeaderAnswers.{Steps};
ghost use Rattle.schedule_text.specs.Versions.{most_nodes_of};
ghost use Rattle.schedule_text.specs.Words.{is_decimal, decimal_in};
ghost use Rattle.schedule_text.specs.declared.kind.Kind.{Kind};

use crate::choice::device_kind;
use crate::header::HeaderState;
use crate::kind::Kind;
use crate::number::{Numeral, cluster_id, decimal};
use crate::numbers::{all_decimal, ascending, listed_nodes};
use crate::version::most_nodes;
use cl_base::{DevId, DeviceKind, Header, HeaderDevice, HeaderDevices, NodeId, NodeSet, Version};
use std::alloc::{AllocError, Global};

/// What the line that names the cluster comes to.
pub fn cluster_line(version: Version, words: &[&[u8]]) -> Result<HeaderState, Kind>
    ensures step { Steps result (cluster_line version (map (λ w. w.now) words.now)) }
    ensures allowed { IfOk result IsAllowedState }
{
    let [name, id] = words else {
        return Err(Kind::Header);
    };
    if *name != b"cluster".as_slice() {
        return Err(Kind::Header);
    }
    match cluster_id(id) {
        Some(cluster) => Ok(HeaderState::Nodes { version, cluster }),
        None => Err(Kind::Header),
    }
}

/// What the line that counts the nodes comes to.
pub fn nodes_line(
    alloc: Global,
    version: Version,
    cluster: u32,
    words: &[&[u8]],
) -> Result<HeaderState, Kind>
    requires { 1 ≤ cluster }
    ensures step { Steps result (nodes_line version cluster (map (λ w. w.now) words.now)) }
    ensures allowed { IfOk result IsAllowedState }
{
    let [name, count] = words else {
        return Err(Kind::Header);
    };
    if *name != b"nodes".as_slice() {
        return Err(Kind::Header);
    }
    match decimal(count) {
        Some(Numeral::Within(nodes)) if 1 <= nodes && nodes <= most_nodes(version) => {
            Ok(counted(alloc, version, cluster, nodes))
        }
        Some(_) => Err(Kind::Number),
        None => Err(Kind::Header),
    }
}

/// What was read where so many nodes were counted.
fn counted(alloc: Global, version: Version, cluster: u32, nodes: u64) -> HeaderState
    requires cluster { 1 ≤ cluster }
    requires low { 1 ≤ nodes }
    requires high { nodes ≤ most_nodes_of version }
    ensures value { result ≡ counted version cluster nodes }
    ensures allowed { IsAllowedState result }
{
    match version {
        Version::One => HeaderState::Devices(Header {
            version,
            cluster,
            nodes,
            configured: NodeSet::first(nodes),
            devices: HeaderDevices::new(Vec::new(alloc)),
        }),
        Version::Two => HeaderState::Configured { cluster, nodes },
    }
}

/// What the line that tells the configured nodes comes to.
pub fn configured_line(
    alloc: Global,
    cluster: u32,
    nodes: u64,
    words: &[&[u8]],
) -> Result<HeaderState, Kind>
    requires cluster { 1 ≤ cluster }
    requires low { 1 ≤ nodes }
    requires high { nodes ≤ most_nodes_of Version.Two }
    ensures step { Steps result (configured_line cluster nodes (map (λ w. w.now) words.now)) }
    ensures allowed { IfOk result IsAllowedState }
{
    let listed = listed_nodes(b"configured", NodeId::MOST, words)?;
    if listed.greatest > nodes {
        return Err(Kind::Unknown);
    }
    Ok(HeaderState::Devices(Header {
        version: Version::Two,
        cluster,
        nodes,
        configured: listed.nodes,
        devices: HeaderDevices::new(Vec::new(alloc)),
    }))
}

/// The device that a line adds to the header, or none where the line has not the form of a device
/// line.
pub fn device_line(header: &Header, words: &[&[u8]]) -> Result<Option<HeaderDevice>, Kind>
    ensures value { result ≡ device_line header.now (map (λ w. w.now) words.now) }
    ensures attached { IfOk result (λ device. IfSome device (IsAttached header.now.nodes)) }
    ensures room { IfOk result (λ device. IfSome device (λ _. length header.now.devices < 16)) }
{
    match words {
        [name, number, purpose, nodes @ ..] => named_device(header, name, number, purpose, nodes),
        _ => Ok(None),
    }
}

fn named_device(
    header: &Header,
    name: &[u8],
    number: &[u8],
    purpose: &[u8],
    nodes: &[&[u8]],
) -> Result<Option<HeaderDevice>, Kind>
    ensures value { result ≡ device_line header.now (name.now ∷ number.now ∷ purpose.now ∷ map (λ w. w.now) nodes.now) }
    ensures attached { IfOk result (λ device. IfSome device (IsAttached header.now.nodes)) }
    ensures room { IfOk result (λ device. IfSome device (λ _. length header.now.devices < 16)) }
{
    if name == b"device".as_slice() {
        listed_device(header, number, purpose, nodes)
    } else {
        Ok(None)
    }
}

fn listed_device(
    header: &Header,
    number: &[u8],
    purpose: &[u8],
    nodes: &[&[u8]],
) -> Result<Option<HeaderDevice>, Kind>
    ensures value { result ≡ described header.now (decimal_in number.now) (device_kind_in header.now.version purpose.now) (map (λ w. w.now) nodes.now) }
    ensures attached { IfOk result (λ device. IfSome device (IsAttached header.now.nodes)) }
    ensures room { IfOk result (λ device. IfSome device (λ _. length header.now.devices < 16)) }
{
    let (Some(number), Some(kind)) = (decimal(number), device_kind(header.version, purpose)) else {
        return Ok(None);
    };
    described(header, number, kind, nodes)
}

/// The device of this number and kind with these nodes.
fn described(
    header: &Header,
    number: Numeral,
    kind: DeviceKind,
    nodes: &[&[u8]],
) -> Result<Option<HeaderDevice>, Kind>
    ensures value { result ≡ described header.now (Some number) (Some kind) (map (λ w. w.now) nodes.now) }
    ensures attached { IfOk result (λ device. IfSome device (IsAttached header.now.nodes)) }
    ensures room { IfOk result (λ device. IfSome device (λ _. length header.now.devices < 16)) }
{
    numbered(header, number, kind, nodes)
}

fn numbered(
    header: &Header,
    number: Numeral,
    kind: DeviceKind,
    nodes: &[&[u8]],
) -> Result<Option<HeaderDevice>, Kind>
    ensures value { result ≡ (if not (length nodes.now == 0) && list_all (λ w. is_decimal w.now) nodes.now
        then (if is_server kind then Err Kind.NotBuilt
        else if is_next header.now number
        then attached header.now kind (ascending (most_nodes_of header.now.version) 0 0 (map (λ w. decimal_in w.now) nodes.now))
        else Err Kind.Number)
        else Ok None) }
    ensures attached { IfOk result (λ device. IfSome device (IsAttached header.now.nodes)) }
    ensures room { IfOk result (λ device. IfSome device (λ _. length header.now.devices < 16)) }
{
    if nodes.is_empty() || !all_decimal(nodes) {
        return Ok(None);
    }
    if is_server(kind) {
        return Err(Kind::NotBuilt);
    }
    if !is_next(header, number) {
        return Err(Kind::Number);
    }
    let Some(listed) = ascending(most_nodes(header.version), nodes) else {
        return Err(Kind::Number);
    };
    if listed.greatest > header.nodes {
        return Err(Kind::Unknown);
    }
    Ok(Some(HeaderDevice {
        kind,
        attached: listed.nodes,
    }))
}

/// Whether such a device is a server, which is not built.
fn is_server(kind: DeviceKind) -> bool
    ensures { result ≡ is_server kind }
{
    match kind {
        DeviceKind::Server => true,
        DeviceKind::Data | DeviceKind::Quorum => false,
    }
}

/// Whether the number is that of the next device.
fn is_next(header: &Header, number: Numeral) -> bool
    ensures { result ≡ is_next header.now number }
{
    match number {
        Numeral::Within(number) => {
            number <= DevId::MOST && number == header.devices.items().len() as u64 + 1
        }
        Numeral::Beyond => false,
    }
}

/// The header and this device.
pub fn with_device(
    alloc: Global,
    header: &Header,
    device: HeaderDevice,
) -> Result<Header, AllocError>
    requires before { IsHeader header.now }
    requires room { length header.now.devices < 16 }
    requires attached { IsAttached header.now.nodes device }
    ensures value { IfOk result (λ h. h ≡ record header.now { devices = header.now.devices ++ (device ∷ []) }) }
    ensures allowed { IfOk result IsHeader }
{
    let mut devices = Vec::new(alloc);
    devices.extend_from_slice(header.devices.items())?;
    devices.push(device)?;
    Ok(Header {
        version: header.version,
        cluster: header.cluster,
        nodes: header.nodes,
        configured: header.configured,
        devices: HeaderDevices::new(devices),
    })
}
