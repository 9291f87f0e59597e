ghost use Rattle.std.specs.Prelude.{◌≡◌, IfOk};
ghost use Rattle.status_report.specs.UpdateLines.{update_text};

use crate::update_entry::UpdateEntry;
use crate::words::with_bytes;
use std::alloc::{AllocError, Global};

#[tactic(auto, using(crate::proofs::Joins::joined_once))]
/// An update of the configuration.
pub fn update_line(alloc: Global, entry: &UpdateEntry) -> Result<Vec<u8>, AllocError>
    ensures { IfOk result (λ line. line.items ≡ update_text entry.now) }
{
    match entry {
        UpdateEntry::Proposed {
            epoch,
            place,
            words,
        } => {
            let epoch = epoch.number();
            with_bytes(
                format!(in alloc; "propose {epoch} {place} ")?,
                words.items(),
            )
        }
        UpdateEntry::Acknowledged {
            epoch,
            place,
            words,
        } => {
            let epoch = epoch.number();
            with_bytes(format!(in alloc; "ack {epoch} {place} ")?, words.items())
        }
    }
}
