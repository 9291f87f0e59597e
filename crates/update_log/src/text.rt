// Texts that are the canonical words of updates.
ghost use Rattle.std.specs.Prelude.{◌≡◌, IfOk};
ghost use Rattle.std.specs.Str.{bytes_eq};
ghost use Rattle.update_words.specs.Words.{words_of};
ghost use Rattle.update_log.specs.Logs.{is_update};

use crate::error::NoMemory;
use admin_words::{WordError, parse};
use ccr_tables::{AdminCommand, Update};
use cl_base::Version;
use std::alloc::Global;
use update_words::words;

/// Whether the text is the canonical words of an update.
#[tactic(auto, unfolding(crate::specs::Logs::is_update))]
pub fn is_update(alloc: Global, version: Version, text: &[u8]) -> Result<bool, NoMemory>
    ensures value { IfOk result (λ so. so ≡ is_update version text.now) }
{
    match parse(alloc, version, text) {
        Ok(AdminCommand::Change(u)) => is_spelled(alloc, &u, text),
        Ok(_) => Ok(false),
        Err(WordError::NoMemory) => Err(NoMemory),
        Err(_) => Ok(false),
    }
}

/// Whether the text is the canonical words of this update.
pub fn is_spelled(alloc: Global, u: &Update, text: &[u8]) -> Result<bool, NoMemory>
    ensures { IfOk result (λ so. so ≡ bytes_eq (words_of u.now) text.now) }
{
    let words = words(alloc, u)?;
    Ok(words.as_slice() == text)
}
