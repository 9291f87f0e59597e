// What a list of updates makes of a header's configuration.
ghost use Rattle.std.specs.Prelude.{◌≡◌, ◌≤◌, ◌++◌, ◌∷◌, [], length, IfOk, OnOk, OnErr};
ghost use Rattle.std.specs.Option.{option_and_then};
ghost use Rattle.cl_base.specs.Limits.{most_devices};
ghost use Rattle.update_log.specs.Logs.{with_text};
ghost use Rattle.config_cache.specs.InForce.{config_under, may_follow};
ghost use Rattle.config_cache.specs.Lists.{these, with_next};

use crate::coming::may_come;
use crate::same_header::copied;
use ccr_tables::Config;
use cl_base::{Bytes, Header};
use std::alloc::{AllocError, Global};
use std::marker::Model;
use update_log::{NoMemory, add};

/// A header and a list of updates, with the configuration that they make. Contracts see the header
/// and the list.
pub struct Made {
    header: Header,
    texts: Vec<Bytes>,
    // The header's own configuration, which a bad list leaves in force.
    first: Config,
    // What the updates make of it: nothing where the list is bad.
    config: Option<Config>,
}

impl Drop for Made {
    fn drop(self) {
        let Made {
            header: _,
            texts: _,
            first: _,
            config: _,
        } = self;
    }
}

impl Model for Made {
    ghost use Rattle.std.specs.Prelude.{◌≡◌, ◌≤◌, length};
    ghost use Rattle.cl_base.specs.Limits.{most_devices};
    ghost use Rattle.ccr_tables.specs.State.{first_config};
    ghost use Rattle.update_log.specs.Logs.{config_after};
    ghost use Rattle.config_cache.specs.Lists.{UpdateList};

    ghost Value = { UpdateList };

    ghost view = { λ m. record { header = m.header; texts = m.texts.items } };

    ghost invariant = { λ m. (length m.header.devices ≤ most_devices)
        × (m.first ≡ first_config m.header)
        × (m.config ≡ config_after m.header m.texts.items) };
}

impl Made {
    /// No update yet.
    pub fn new(alloc: Global, header: &Header) -> Result<Made, NoMemory>
        requires devices { length header.now.devices ≤ most_devices }
        ensures value { IfOk result (λ made. made ≡ these header.now []) }
    {
        Ok(Made {
            header: copied(alloc, header)?,
            texts: Vec::new(alloc),
            first: Config::first(alloc, header)?,
            config: Some(Config::first(alloc, header)?),
        })
    }

    /// The header.
    pub fn header(&self) -> &Header
        ensures value { result.now ≡ self.now.header }
    {
        &self.header
    }

    /// The updates.
    pub fn texts(&self) -> &[Bytes]
        ensures value { result.now ≡ self.now.texts }
    {
        self.texts.as_slice()
    }

    /// The configuration in force under the updates.
    pub fn config(&self) -> &Config
        ensures value { result.now ≡ config_under self.now.header self.now.texts }
    {
        match &self.config {
            Some(config) => config,
            None => &self.first,
        }
    }

    /// Whether one more update may come behind these.
    #[tactic(auto, using(crate::proofs::Makes::bad_followed))]
    pub fn may_follow(&self, alloc: Global, text: &[u8]) -> Result<bool, NoMemory>
        ensures value { IfOk result (λ so. so ≡ may_follow self.now.header self.now.texts text.now) }
    {
        match &self.config {
            Some(config) => may_come(alloc, config, text),
            None => Ok(false),
        }
    }

    /// One more update, which may be bad. Where memory runs out nothing has changed.
    #[tactic(auto, using(crate::proofs::Makes::next_made))]
    pub fn push(&mut self, alloc: Global, text: &[u8]) -> Result<(), NoMemory>
        ensures ok { OnOk result (self.new ≡ with_next self.old text.now) }
        ensures no_memory { OnErr result (self.new ≡ self.old) }
    {
        add_copy(alloc, &mut self.texts, text)?;
        let changed = change(alloc, &mut self.config, text);
        if changed.is_err() {
            self.texts.pop();
        }
        changed
    }
}

/// One more text behind the others.
fn add_copy(alloc: Global, texts: &mut Vec<Bytes>, text: &[u8]) -> Result<(), AllocError>
    ensures ok { OnOk result (texts.new.items ≡ texts.old.items ++ text.now ∷ []) }
    ensures no_memory { OnErr result (texts.new.items ≡ texts.old.items) }
{
    let copy = text.to_vec(alloc)?;
    Ok(texts.push(Bytes::new(copy))?)
}

/// Changes the configuration, if there is one, by one more update: where that may not come, there
/// is none.
fn change(alloc: Global, config: &mut Option<Config>, text: &[u8]) -> Result<(), NoMemory>
    ensures ok { OnOk result (config.new ≡ option_and_then (λ s. with_text s text.now) config.old) }
    ensures no_memory { OnErr result (config.new ≡ config.old) }
{
    let Some(made) = config else {
        return Ok(());
    };
    if !add(alloc, made, text)? {
        *config = None;
    }
    Ok(())
}
