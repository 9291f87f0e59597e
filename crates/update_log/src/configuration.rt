// The configuration, changed by one update after another.
ghost use Rattle.std.specs.Prelude.{◌≡◌, ◌≤◌, length, IfOk, OnErr, OnOk};
ghost use Rattle.std.specs.Option.{is_some, unwrap_or};
ghost use Rattle.cl_base.specs.Limits.{most_devices};
ghost use Rattle.update_log.specs.Logs.{config_after, with_text, with_update};

use crate::error::NoMemory;
use crate::text::is_spelled;
use admin_commands::cycle;
use admin_words::{WordError, parse};
use ccr_tables::{AdminCommand, ApplyError, Config, Update};
use cl_base::{Bytes, Header};
use std::alloc::Global;

/// The configuration that these updates make of the header's, one after the other; none where the
/// list is bad: a text is not the canonical words of an update, or an update is refused or makes a
/// cycle.
#[tactic(auto, unfolding(crate::specs::Logs::config_after))]
pub fn config_after(
    alloc: Global,
    header: &Header,
    texts: &[Bytes],
) -> Result<Option<Config>, NoMemory>
    requires devices { length header.now.devices ≤ most_devices }
    ensures value { IfOk result (λ found. found ≡ config_after header.now texts.now) }
{
    let mut config = Config::first(alloc, header)?;
    for text in texts {
        if !add(alloc, &mut config, text.items())? {
            return Ok(None);
        }
    }
    Ok(Some(config))
}

/// Changes the configuration by one more update, if it may come: else it stays as it was, also
/// after `NoMemory`. Whether it was changed.
pub fn add(alloc: Global, config: &mut Config, text: &[u8]) -> Result<bool, NoMemory>
    ensures taken { IfOk result (λ taken. taken ≡ is_some (with_text config.old text.now)) }
    ensures after { OnOk result (config.new ≡ unwrap_or (with_text config.old text.now) config.old) }
    ensures err { OnErr result (config.new ≡ config.old) }
{
    match parse(alloc, config.version(), text) {
        Ok(AdminCommand::Change(u)) => update(alloc, config, text, &u),
        Ok(_) => Ok(false),
        Err(WordError::NoMemory) => Err(NoMemory),
        Err(_) => Ok(false),
    }
}

/// Makes the update, if it may come in these words.
fn update(alloc: Global, config: &mut Config, text: &[u8], u: &Update) -> Result<bool, NoMemory>
    ensures taken { IfOk result (λ taken. taken ≡ is_some (with_update config.old text.now u.now)) }
    ensures after { OnOk result (config.new ≡ unwrap_or (with_update config.old text.now u.now) config.old) }
    ensures err { OnErr result (config.new ≡ config.old) }
{
    if !is_spelled(alloc, u, text)? {
        return Ok(false);
    }
    if cycle(alloc, config, u)?.is_some() {
        return Ok(false);
    }
    match config.apply(u) {
        Ok(()) => Ok(true),
        Err(ApplyError::Refused(_)) => Ok(false),
        Err(ApplyError::NoMemory) => Err(NoMemory),
    }
}
