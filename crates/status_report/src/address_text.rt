ghost use Rattle.std.specs.Prelude.{◌≡◌, IfOk};
ghost use Rattle.std.specs.String.{string_bytes};
ghost use Rattle.status_report.specs.AddressLines.{address_text, target_text};
ghost use Rattle.status_report.specs.declared.address_entry.AddressEntry.TheVariants.{Served, Forgot};

use crate::address_entry::AddressEntry;
use crate::words::named;
use cl_base::{Name, NodeId};
use std::alloc::{AllocError, Global};

/// What the president does for a client of a shared address.
pub fn address_line(alloc: Global, entry: &AddressEntry) -> Result<Vec<u8>, AllocError>
    ensures { IfOk result (λ line. line.items ≡ address_text entry.now) }
{
    match entry {
        AddressEntry::Served {
            address,
            client,
            port,
            node,
        } => served_line(alloc, address, *client, *port, *node),
        AddressEntry::Forgot {
            address,
            client,
            port,
        } => forgot_line(alloc, address, *client, *port),
    }
}

fn served_line(
    alloc: Global,
    address: &Name,
    client: u32,
    port: u16,
    node: Option<NodeId>,
) -> Result<Vec<u8>, AllocError>
    ensures { IfOk result (λ line. line.items ≡ address_text (Served address.now client port node)) }
{
    let target = target_text(alloc, node)?;
    let mut line = named(alloc, "served ", address)?;
    let rest = format!(in alloc; " {client} {port} {target}")?;
    line.extend_from_slice(rest.as_bytes())?;
    Ok(line)
}

fn target_text(alloc: Global, node: Option<NodeId>) -> Result<String, AllocError>
    ensures { IfOk result (λ text. string_bytes text ≡ target_text node) }
{
    match node {
        Some(node) => format!(in alloc; "{node}"),
        None => String::from_str(alloc, "none"),
    }
}

fn forgot_line(alloc: Global, address: &Name, client: u32, port: u16) -> Result<Vec<u8>, AllocError>
    ensures { IfOk result (λ line. line.items ≡ address_text (Forgot address.now client port)) }
{
    let mut line = named(alloc, "forgot ", address)?;
    let rest = format!(in alloc; " {client} {port}")?;
    line.extend_from_slice(rest.as_bytes())?;
    Ok(line)
}
