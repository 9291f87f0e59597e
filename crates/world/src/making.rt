// The world before the first line.
ghost use Rattle.std.specs.Prelude.{◌≡◌, ◌≤◌, ◌<◌, ◌+◌, ◌*◌, length, map, replicate, None, IfOk};
ghost use Rattle.cl_base.specs.Limits.{most_devices, most_nodes};
ghost use Rattle.cl_base.specs.Numbers.{first_numbers};
ghost use Rattle.node_model.specs.declared.node.Node.TheVariants.{Down};
ghost use Rattle.world_model.specs.First.{attached_from, first_cluster, first_device, first_disks, first_world, quorum_devices, with_quorum};

use crate::agent_list::Agents;
use crate::world::World;
use cl_base::{DevId, DevSet, DeviceKind, Header, HeaderDevice, HeaderDevices, NodeId, NodeSet};
use cmm_attempt::{AttachedDevice, AttachedDevices};
use interconnect::Net;
use node_model::{Cluster, FirstHeader, Node};
use pgr_device::Pgr;
use quorum_votes::Votes;
use record_disk::SimulatedDisk;
use std::alloc::{AllocError, Global};

/// How many cells of 256 bytes the packets have.
const CELLS: u64 = 65_536;

/// The most bytes of a packet.
const MOST: usize = 131_072;

impl World {
    /// The world that the header tells of: all nodes are down with empty disks, and each quorum device
    /// has the keys of its attached nodes registered. These agents carry out the methods of resource
    /// types. All memory that the links ever need is taken.
    pub fn new(alloc: Global, header: &Header, agents: Agents) -> Result<World, AllocError>
        requires nodes { header.now.nodes ≤ most_nodes }
        requires devices { length header.now.devices ≤ most_devices }
        ensures first { IfOk result (λ world. world ≡ first_world header.now 65536 agents) }
    {
        World::with_cells(alloc, header, CELLS, agents)
    }

    /// The same, with so many cells for packets.
    pub fn with_cells(
        alloc: Global,
        header: &Header,
        cells: u64,
        agents: Agents,
    ) -> Result<World, AllocError>
        requires nodes { header.now.nodes ≤ most_nodes }
        requires devices { length header.now.devices ≤ most_devices }
        ensures first { IfOk result (λ world. world ≡ first_world header.now cells agents) }
    {
        let cluster = first_cluster(alloc, header)?;
        Ok(World {
            nodes: down_nodes(alloc, header.nodes)?,
            disks: first_disks(alloc, &cluster, header.nodes)?,
            cluster,
            devices: first_devices(alloc, header)?,
            faults: no_faults(alloc, header.nodes, header.devices.items().len())?,
            links: Net::new(alloc, cells)?,
            clock: 0,
            script: Vec::new(alloc),
            agents,
            bytes: vec![in alloc; 0; MOST]?,
            outputs: Vec::new(alloc),
        })
    }
}

/// What the nodes know of the cluster.
fn first_cluster(alloc: Global, header: &Header) -> Result<Cluster, AllocError>
    requires nodes { header.now.nodes ≤ most_nodes }
    requires devices { length header.now.devices ≤ most_devices }
    ensures { IfOk result (λ cluster. cluster ≡ first_cluster header.now) }
{
    let devices = header.devices.items();
    let attached = attached_devices(alloc, devices)?;
    Ok(Cluster {
        header: FirstHeader::new(copy_header(alloc, header)?),
        id: header.cluster,
        nodes: NodeSet::first(header.nodes),
        configured: header.configured,
        devices: all_devices(devices.len()),
        attached: AttachedDevices::new(attached),
        first_valid: quorum_devices(devices),
        votes: Votes::first(header),
    })
}

fn copy_header(alloc: Global, header: &Header) -> Result<Header, AllocError>
    ensures { IfOk result (λ copy. copy ≡ header.now) }
{
    Ok(Header {
        version: header.version,
        cluster: header.cluster,
        nodes: header.nodes,
        configured: header.configured,
        devices: HeaderDevices::new(header.devices.items().to_vec(alloc)?),
    })
}

fn quorum_devices(devices: &[HeaderDevice]) -> DevSet
    requires few { length devices.now ≤ most_devices }
    ensures { result ≡ quorum_devices devices.now }
{
    let mut set = DevSet::empty();
    for index in 0..devices.len() {
        set = with_quorum(devices[index].kind, device_at(index), set);
    }
    set
}

/// The set, and the device if it is a quorum device.
fn with_quorum(kind: DeviceKind, device: DevId, set: DevSet) -> DevSet
    ensures { result ≡ with_quorum kind device set }
{
    match kind {
        DeviceKind::Quorum => set.with(device),
        DeviceKind::Data | DeviceKind::Server => set,
    }
}

/// The device at this place of the header.
fn device_at(index: usize) -> DevId
    requires within { index < most_devices }
    ensures { result ≡ index + 1 }
{
    DevId::new(index as u64 + 1).unwrap()
}

/// So many devices.
fn all_devices(count: usize) -> DevSet
    requires few { count ≤ most_devices }
    ensures { result ≡ first_numbers count }
{
    let mut set = DevSet::empty();
    for index in 0..count {
        set = set.with(device_at(index));
    }
    set
}

fn attached_devices(
    alloc: Global,
    devices: &[HeaderDevice],
) -> Result<Vec<AttachedDevice>, AllocError>
    requires few { length devices.now ≤ most_devices }
    ensures { IfOk result (λ attached. attached.items ≡ attached_from 1 devices.now) }
{
    let mut attached = Vec::new(alloc);
    for index in 0..devices.len() {
        attached.push(AttachedDevice {
            device: device_at(index),
            nodes: devices[index].attached,
        })?;
    }
    Ok(attached)
}

fn down_nodes(alloc: Global, count: u64) -> Result<Vec<Node>, AllocError>
    ensures { IfOk result (λ nodes. nodes.items ≡ replicate count Down) }
{
    let mut nodes = Vec::new(alloc);
    for _ in 0..count {
        nodes.push(Node::Down)?;
    }
    Ok(nodes)
}

/// The disks of so many nodes.
fn first_disks(
    alloc: Global,
    cluster: &Cluster,
    count: u64,
) -> Result<Vec<SimulatedDisk>, AllocError>
    requires few { count ≤ most_nodes }
    ensures { IfOk result (λ disks. disks.items ≡ first_disks cluster.now count) }
{
    let mut disks = Vec::new(alloc);
    for index in 0..count {
        let first_valid = cluster.first_valid_of(node_at(index));
        disks.push(SimulatedDisk::new(alloc, first_valid)?)?;
    }
    Ok(disks)
}

/// The node at this place of the header.
fn node_at(index: u64) -> NodeId
    requires within { index < most_nodes }
    ensures { result ≡ index + 1 }
{
    NodeId::new(index + 1).unwrap()
}

fn first_devices(alloc: Global, header: &Header) -> Result<Vec<Pgr>, AllocError>
    ensures { IfOk result (λ devices. devices.items ≡ map (first_device header.now) header.now.devices) }
{
    let listed = header.devices.items();
    let mut devices = Vec::new(alloc);
    for device in listed {
        devices.push(first_device(header, device))?;
    }
    Ok(devices)
}

fn no_faults(alloc: Global, nodes: u64, devices: usize) -> Result<Vec<Option<bool>>, AllocError>
    requires nodes { nodes ≤ most_nodes }
    requires devices { devices ≤ most_devices }
    ensures { IfOk result (λ faults. faults.items ≡ replicate (nodes * devices) None) }
{
    let faults = vec![in alloc; None; nodes as usize * devices]?;
    Ok(faults)
}

fn first_device(header: &Header, device: &HeaderDevice) -> Pgr
    ensures { result ≡ first_device header.now device.now }
{
    match device.kind {
        DeviceKind::Quorum => { Pgr::with_keys(device.attached, header.configured, header.cluster) }
        DeviceKind::Data | DeviceKind::Server => Pgr::new(device.attached),
    }
}
