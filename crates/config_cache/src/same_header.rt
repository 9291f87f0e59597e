// Headers that are compared and copied.
ghost use Rattle.std.specs.Prelude.{◌≡◌, ◌↔◌, IfOk, IsTrue, slice_get};

use cl_base::{Header, HeaderDevice, HeaderDevices};
use std::alloc::Global;
use update_log::NoMemory;

/// Whether the headers say the same.
#[tactic(auto, using(crate::proofs::Headers::same_header))]
pub fn is_same(a: &Header, b: &Header) -> bool
    ensures value { IsTrue result ↔ (a.now ≡ b.now) }
{
    a.version == b.version
        && a.cluster == b.cluster
        && a.nodes == b.nodes
        && a.configured == b.configured
        && has_same_devices(a.devices.items(), b.devices.items())
}

/// Whether they are the same devices.
#[tactic(auto, using(crate::proofs::Fronts::next_same, crate::proofs::Fronts::not_same, crate::proofs::Fronts::whole_same))]
fn has_same_devices(a: &[HeaderDevice], b: &[HeaderDevice]) -> bool
    ensures { IsTrue result ↔ (a.now ≡ b.now) }
{
    if a.len() != b.len() {
        return false;
    }
    for place in 0..b.len() {
        if !is_same_at(a, b, place) {
            return false;
        }
    }
    true
}

/// Whether the same device stands at this place.
fn is_same_at(a: &[HeaderDevice], b: &[HeaderDevice], place: usize) -> bool
    ensures { IsTrue result ↔ (slice_get a.now place ≡ slice_get b.now place) }
{
    match (a.get(place), b.get(place)) {
        (Some(a), Some(b)) => is_same_device(a, b),
        (None, None) => true,
        _ => false,
    }
}

#[tactic(auto, using(crate::proofs::Headers::same_device))]
fn is_same_device(a: &HeaderDevice, b: &HeaderDevice) -> bool
    ensures { IsTrue result ↔ (a.now ≡ b.now) }
{
    a.kind == b.kind && a.attached == b.attached
}

/// The same header once more.
pub fn copied(alloc: Global, header: &Header) -> Result<Header, NoMemory>
    ensures value { IfOk result (λ copy. copy ≡ header.now) }
{
    let devices = HeaderDevices::new(header.devices.items().to_vec(alloc)?);
    Ok(Header {
        version: header.version,
        cluster: header.cluster,
        nodes: header.nodes,
        configured: header.configured,
        devices,
    })
}
