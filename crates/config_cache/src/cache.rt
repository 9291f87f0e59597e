// The configurations that were made last.
ghost use Rattle.std.specs.Prelude.{◌≡◌, ◌≤◌, length, IfOk};
ghost use Rattle.cl_base.specs.Limits.{most_devices};
ghost use Rattle.ccr_commit.specs.Entries.{texts_of};
ghost use Rattle.config_cache.specs.InForce.{config_under, may_follow};
ghost use Rattle.config_cache.specs.Lists.{these};

use crate::coming::may_come;
use crate::made::Made;
use crate::making::made_of;
use ccr_commit::Entries;
use ccr_tables::Config;
use cl_base::Header;
use std::alloc::Global;
use std::marker::Model;
use update_log::NoMemory;

/// The configurations that were made last, so that one more update costs one update. What is kept
/// changes no answer: contracts see nothing of it.
pub struct ConfigCache {
    // Of committed updates, and of those with the pending one: while one is pending both are asked
    // for by turns. Each stands apart in memory, so that the cache is quick to move.
    committed: Option<Box<Made>>,
    all: Option<Box<Made>>,
}

impl Drop for ConfigCache {
    fn drop(self) {
        let ConfigCache {
            committed: _,
            all: _,
        } = self;
    }
}

// A unit: so whoever asked for a configuration knows the cache again once he has let it go.
impl Model for ConfigCache {
    ghost Value = { Unit {0} };

    ghost view = { λ _. tt };
}

impl ConfigCache {
    /// Nothing is kept yet. This takes no memory.
    pub fn new() -> ConfigCache {
        ConfigCache {
            committed: None,
            all: None,
        }
    }

    /// The configuration in force: that under the committed updates.
    pub fn committed(
        &mut self,
        alloc: Global,
        header: &Header,
        entries: &Entries,
    ) -> Result<&Config, NoMemory>
        requires devices { length header.now.devices ≤ most_devices }
        ensures value { IfOk result (λ config. config.now ≡ config_under header.now entries.now.committed) }
    {
        Ok(self.made_of_committed(alloc, header, entries)?.config())
    }

    /// The configuration under the committed updates and the pending one.
    pub fn all(
        &mut self,
        alloc: Global,
        header: &Header,
        entries: &Entries,
    ) -> Result<&Config, NoMemory>
        requires devices { length header.now.devices ≤ most_devices }
        ensures value { IfOk result (λ config. config.now ≡ config_under header.now (texts_of entries.now)) }
    {
        Ok(self.made_of_all(alloc, header, entries)?.config())
    }

    /// Whether one more update may come behind the committed ones and the pending one.
    pub fn may_follow(
        &mut self,
        alloc: Global,
        header: &Header,
        entries: &Entries,
        text: &[u8],
    ) -> Result<bool, NoMemory>
        requires devices { length header.now.devices ≤ most_devices }
        ensures value { IfOk result (λ so. so ≡ may_follow header.now (texts_of entries.now) text.now) }
        ensures same { self.new ≡ self.old }
    {
        self.made_of_all(alloc, header, entries)?
            .may_follow(alloc, text)
    }

    /// What the committed updates make.
    #[tactic(auto, using(crate::proofs::Fronts::none_behind))]
    fn made_of_committed(
        &mut self,
        alloc: Global,
        header: &Header,
        entries: &Entries,
    ) -> Result<&Made, NoMemory>
        requires devices { length header.now.devices ≤ most_devices }
        ensures value { IfOk result (λ made. made.now ≡ these header.now entries.now.committed) }
    {
        let made = made_of(
            alloc,
            self.committed.take(),
            header,
            entries.committed(),
            None,
        )?;
        Ok(self.committed.insert(made))
    }

    /// What the committed updates and the pending one make.
    fn made_of_all(
        &mut self,
        alloc: Global,
        header: &Header,
        entries: &Entries,
    ) -> Result<&Made, NoMemory>
        requires devices { length header.now.devices ≤ most_devices }
        ensures value { IfOk result (λ made. made.now ≡ these header.now (texts_of entries.now)) }
    {
        let made = made_of(
            alloc,
            self.all.take(),
            header,
            entries.committed(),
            entries.pending(),
        )?;
        Ok(self.all.insert(made))
    }
}
