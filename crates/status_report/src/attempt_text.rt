ghost use Rattle.std.specs.Prelude.{◌≡◌, ◌++◌, ◌∷◌, IfOk, OnOk};
ghost use Rattle.std.specs.List.{flat_map};
ghost use Rattle.std.specs.String.{string_bytes};
ghost use Rattle.status_report.specs.AttemptLines.{attempt_text, lacking_text, lack_text, obstacle_text, end_text};
ghost use Rattle.status_report.specs.declared.attempt_entry.AttemptEntry.TheVariants.{Votes};

use crate::attempt_entry::AttemptEntry;
use cl_base::{Epoch, Lack, Obstacle, SeizeEnd};
use std::alloc::{AllocError, Global};

/// How an attempt begins or ends.
pub fn attempt_line(alloc: Global, entry: &AttemptEntry) -> Result<String, AllocError>
    ensures { IfOk result (λ text. string_bytes text ≡ attempt_text entry.now) }
{
    match entry {
        AttemptEntry::Begun { epoch, members } => {
            let members = members.text(alloc)?;
            format!(in alloc; "attempt {epoch} {members}")
        }
        AttemptEntry::Votes {
            epoch,
            have,
            need,
            lacking,
        } => votes_line(alloc, *epoch, *have, *need, lacking.items()),
        AttemptEntry::Superseded { epoch, by } => format!(in alloc;
            "ended {epoch} superseded {by}"
        ),
        AttemptEntry::Silent { epoch, node } => format!(in alloc; "ended {epoch} silent {node}"),
        AttemptEntry::Excluded { epoch, node } => format!(in alloc;
            "ended {epoch} excluded {node}"
        ),
        AttemptEntry::Foreign { epoch, node } => format!(in alloc; "ended {epoch} foreign {node}"),
    }
}

fn votes_line(
    alloc: Global,
    epoch: Epoch,
    have: u64,
    need: u64,
    lacking: &[Lack],
) -> Result<String, AllocError>
    ensures { IfOk result (λ text. string_bytes text ≡ attempt_text (Votes epoch have need lacking.now)) }
{
    let lacking = lacking_text(alloc, lacking)?;
    format!(in alloc; "ended {epoch} votes {have} {need} {lacking}")
}

fn lacking_text(alloc: Global, lacking: &[Lack]) -> Result<String, AllocError>
    ensures { IfOk result (λ text. string_bytes text ≡ lacking_text lacking.now) }
{
    let [first, rest @ ..] = lacking else {
        return String::from_str(alloc, "none");
    };
    let mut text = lack_text(alloc, *first)?;
    push_lacks(alloc, &mut text, rest)?;
    Ok(text)
}

/// Each device after a space.
fn push_lacks(alloc: Global, text: &mut String, lacks: &[Lack]) -> Result<(), AllocError>
    ensures { OnOk result (string_bytes text.new ≡ string_bytes text.old ++ flat_map (λ lack. 32 ∷ lack_text lack) lacks.now) }
{
    for lack in lacks {
        let lack = lack_text(alloc, *lack)?;
        write!(text, " {lack}")?;
    }
    Ok(())
}

fn lack_text(alloc: Global, lack: Lack) -> Result<String, AllocError>
    ensures { IfOk result (λ text. string_bytes text ≡ lack_text lack) }
{
    let device = lack.device;
    let obstacle = obstacle_text(alloc, lack.obstacle)?;
    format!(in alloc; "{device}:{obstacle}")
}

fn obstacle_text(alloc: Global, obstacle: Obstacle) -> Result<String, AllocError>
    ensures { IfOk result (λ text. string_bytes text ≡ obstacle_text obstacle) }
{
    match obstacle {
        Obstacle::NoPath => String::from_str(alloc, "no-path"),
        Obstacle::Seizing(end) => end_text(alloc, end),
    }
}

/// How the seizing of a device ended. One that is held is no obstacle, and is told all the same.
fn end_text(alloc: Global, end: SeizeEnd<()>) -> Result<String, AllocError>
    ensures { IfOk result (λ text. string_bytes text ≡ end_text end) }
{
    match end {
        SeizeEnd::Held(_) => String::from_str(alloc, "held"),
        SeizeEnd::NotRegistered(_) => String::from_str(alloc, "not-registered"),
        SeizeEnd::Greater(word) => format!(in alloc; "greater-{word}"),
        SeizeEnd::Expelled => String::from_str(alloc, "expelled"),
        SeizeEnd::Contended(key) => format!(in alloc; "contended-{key:x}"),
        SeizeEnd::Fault => String::from_str(alloc, "fault"),
    }
}
