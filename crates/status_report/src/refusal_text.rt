ghost use Rattle.std.specs.Prelude.{◌≡◌, ◌++◌, ◌∷◌, codes, IfOk, OnOk};
ghost use Rattle.std.specs.List.{flat_map};
ghost use Rattle.status_report.specs.Words.{joined};
ghost use Rattle.status_report.specs.CommandLines.{refusal_text, thing_text};

use crate::words::{named, plain, with_bytes};
use cl_base::{Name, Refusal, Thing};
use std::alloc::{AllocError, Global};

/// Why a command is refused over the configuration.
pub fn refused_text(alloc: Global, refusal: &Refusal) -> Result<Vec<u8>, AllocError>
    ensures { IfOk result (λ text. text.items ≡ refusal_text refusal.now) }
{
    match refusal {
        Refusal::Unknown(thing) => unknown_text(alloc, thing),
        Refusal::Exists => plain(alloc, "exists"),
        Refusal::InUse(name) => named(alloc, "in-use ", name),
        Refusal::Managed => plain(alloc, "managed"),
        Refusal::Unmanaged => plain(alloc, "unmanaged"),
        Refusal::SameValue => plain(alloc, "same-value"),
        Refusal::NotListed(node) => {
            let node = node.number();
            Ok(format!(in alloc; "not-listed {node}")?.into_bytes())
        }
        Refusal::TooMany => plain(alloc, "too-many"),
        Refusal::BadProperty => plain(alloc, "bad-property"),
        Refusal::BadSetting => plain(alloc, "bad-setting"),
        Refusal::StillUp => plain(alloc, "still-up"),
        Refusal::Cycle(names) => {
            let names = names_text(alloc, names.items())?;
            with_bytes(String::from_str(alloc, "cycle ")?, names.as_slice())
        }
        Refusal::Single => plain(alloc, "single"),
        Refusal::NoMark => plain(alloc, "no-mark"),
        Refusal::NodeIsMember => plain(alloc, "node-is-member"),
        Refusal::DeviceNotHeld => plain(alloc, "device-not-held"),
        Refusal::NodeHasVote => plain(alloc, "node-has-vote"),
        Refusal::LoseQuorum { have, need } => Ok(format!(in alloc;
            "lose-quorum {have} {need}"
        )?.into_bytes()),
        Refusal::RecordFull { length } => Ok(format!(in alloc;
            "record-full {length}"
        )?.into_bytes()),
    }
}

fn unknown_text(alloc: Global, thing: &Thing) -> Result<Vec<u8>, AllocError>
    ensures { IfOk result (λ text. text.items ≡ codes "unknown " ++ thing_text thing.now) }
{
    match thing {
        Thing::Named(name) => named(alloc, "unknown ", name),
        Thing::Numbered(number) => Ok(format!(in alloc; "unknown {number}")?.into_bytes()),
    }
}

fn names_text(alloc: Global, names: &[Name]) -> Result<Vec<u8>, AllocError>
    ensures { IfOk result (λ text. text.items ≡ joined 44 (λ name. name) names.now) }
{
    let mut text = Vec::new(alloc);
    let [first, rest @ ..] = names else {
        return Ok(text);
    };
    text.extend_from_slice(first.bytes())?;
    push_names(&mut text, rest)?;
    Ok(text)
}

/// Each name after a comma.
fn push_names(text: &mut Vec<u8>, names: &[Name]) -> Result<(), AllocError>
    ensures { OnOk result (text.new.items ≡ text.old.items ++ flat_map (λ name. 44 ∷ name) names.now) }
{
    for name in names {
        text.push(b',')?;
        text.extend_from_slice(name.bytes())?;
    }
    Ok(())
}
