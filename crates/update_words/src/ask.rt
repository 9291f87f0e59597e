ghost use Rattle.std.specs.Prelude.{◌≡◌, IfOk};
ghost use Rattle.cl_base.specs.declared.command.Ask.TheVariants.{Clear};
ghost use Rattle.update_words.specs.Words.{ask_words_of};

use crate::spaced::{command, named, numbered, push_number_word};
use cl_base::{Ask, Name, NodeId};
use std::alloc::{AllocError, Global};

/// The canonical words of what is asked for besides updates.
pub fn ask_words(alloc: Global, a: &Ask) -> Result<Vec<u8>, AllocError>
    ensures value { IfOk result (λ text. text.items ≡ ask_words_of a.now) }
{
    match a {
        Ask::Restart(resource) => command(alloc, b"restart", resource.bytes()),
        Ask::Move(resource) => command(alloc, b"move", resource.bytes()),
        Ask::Remaster(group) => named(alloc, b"clrg", b"remaster", group),
        Ask::Evacuate(node) => numbered(alloc, b"clrg", b"evacuate", node.number()),
        Ask::Clear { resource, node } => clear(alloc, resource, *node),
    }
}

fn clear(alloc: Global, resource: &Name, node: NodeId) -> Result<Vec<u8>, AllocError>
    ensures { IfOk result (λ text. text.items ≡ ask_words_of (Clear resource.now node)) }
{
    let mut text = named(alloc, b"clrs", b"clear", resource)?;
    push_number_word(&mut text, node.number())?;
    Ok(text)
}
