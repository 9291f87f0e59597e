// Whether one more update may come.
ghost use Rattle.std.specs.Prelude.{◌≡◌, IfOk};
ghost use Rattle.std.specs.Option.{is_some};
ghost use Rattle.update_log.specs.Logs.{with_text, with_update};

use admin_commands::cycle;
use admin_words::{WordError, parse};
use ccr_tables::{AdminCommand, Config, Update};
use std::alloc::Global;
use update_log::NoMemory;
use update_words::words;

/// Whether the text is an update that may come next: this changes nothing.
pub fn may_come(alloc: Global, config: &Config, text: &[u8]) -> Result<bool, NoMemory>
    ensures value { IfOk result (λ so. so ≡ is_some (with_text config.now text.now)) }
{
    match parse(alloc, config.version(), text) {
        Ok(AdminCommand::Change(u)) => is_free(alloc, config, text, &u),
        Ok(_) => Ok(false),
        Err(WordError::NoMemory) => Err(NoMemory),
        Err(_) => Ok(false),
    }
}

/// Whether the update may come in these words.
fn is_free(alloc: Global, config: &Config, text: &[u8], u: &Update) -> Result<bool, NoMemory>
    ensures { IfOk result (λ so. so ≡ is_some (with_update config.now text.now u.now)) }
{
    if words(alloc, u)?.as_slice() != text {
        return Ok(false);
    }
    if cycle(alloc, config, u)?.is_some() {
        return Ok(false);
    }
    Ok(config.refusal(u)?.is_none())
}
