ghost use Rattle.std.specs.Prelude.{◌≡◌, ℕ, List, ◌++◌, ◌==◌, [], ◌∷◌, false, All, OnOk};
ghost use Rattle.replay.specs.Gens.{is_accepted, is_ack, is_call, is_refused, is_start};
ghost use Rattle.replay.specs.Tallies.{IsTally, counts_from, one_more_if, with_line};

use std::alloc::{AllocError, Global};

/// How many lines of a trace there are of each kind. A count stays at the end of its type.
#[derive(Clone, Copy, Debug, PartialEq, Eq)]
pub struct Counts {
    /// Memberships that start.
    pub starts: u64,
    /// Updates of the configuration that are acknowledged.
    pub acks: u64,
    /// Writes that were accepted.
    pub accepted: u64,
    /// Writes that were refused.
    pub refused: u64,
    /// Calls of methods.
    pub calls: u64,
}

impl Counts {
    /// Counts the line.
    fn with_line(self, line: &[u8]) -> Counts
        ensures { result ≡ with_line self line.now }
    {
        Counts {
            starts: one_more_if(is_start(line), self.starts),
            acks: one_more_if(is_ack(line), self.acks),
            accepted: one_more_if(is_accepted(line), self.accepted),
            refused: one_more_if(is_refused(line), self.refused),
            calls: one_more_if(is_call(line), self.calls),
        }
    }
}

fn one_more_if(counted: bool, count: u64) -> u64
    ensures { result ≡ one_more_if counted count }
{
    if counted {
        count.saturating_add(1)
    } else {
        count
    }
}

fn is_start(line: &[u8]) -> bool
    ensures { result ≡ is_start line.now }
{
    line.starts_with(b"start ".as_slice())
}

fn is_ack(line: &[u8]) -> bool
    ensures { result ≡ is_ack line.now }
{
    line.starts_with(b"ack ".as_slice())
}

fn is_call(line: &[u8]) -> bool
    ensures { result ≡ is_call line.now }
{
    line.starts_with(b"call ".as_slice())
}

fn is_accepted(line: &[u8]) -> bool
    ensures { result ≡ is_accepted line.now }
{
    line.starts_with(b"write ".as_slice()) && line.ends_with(b" accepted".as_slice())
}

fn is_refused(line: &[u8]) -> bool
    ensures { result ≡ is_refused line.now }
{
    line.starts_with(b"write ".as_slice()) && !line.ends_with(b" accepted".as_slice())
}

/// The counts of a text, as far as it has come.
#[derive(Drop)]
pub struct Tally {
    /// Those of the lines that have ended.
    pub counts: Counts,
    /// The beginning of the next line.
    pub held: Vec<u8>,
}

impl Tally {
    /// Before the first byte.
    pub fn new(alloc: Global) -> Tally
        ensures none { result.counts ≡ record { starts = 0; acks = 0; accepted = 0; refused = 0; calls = 0 } }
        ensures held { result.held.items ≡ [] }
    {
        Tally {
            counts: Counts {
                starts: 0,
                acks: 0,
                accepted: 0,
                refused: 0,
                calls: 0,
            },
            held: Vec::new(alloc),
        }
    }

    /// Takes more of the text.
    pub fn take(&mut self, text: &[u8]) -> Result<(), AllocError>
        requires whole { IsTally self.old }
        ensures whole { OnOk result (IsTally self.new) }
        ensures taken { OnOk result ((more : List ℕ) → counts_from self.old (text.now ++ more) ≡ counts_from self.new more) }
    {
        for byte in text {
            self.take_byte(*byte)?;
        }
        Ok(())
    }

    fn take_byte(&mut self, byte: u8) -> Result<(), AllocError>
        requires whole { IsTally self.old }
        ensures whole { OnOk result (IsTally self.new) }
        ensures taken { OnOk result ((more : List ℕ) → counts_from self.old (byte ∷ more) ≡ counts_from self.new more) }
    {
        if byte == b'\n' {
            self.counts = self.counts.with_line(&self.held);
            self.held.clear();
        } else {
            self.held.push(byte)?;
        }
        Ok(())
    }

    /// The counts of the whole text, which ends here.
    pub fn finish(self) -> Counts
        requires whole { IsTally self }
        ensures value { result ≡ counts_from self [] }
    {
        self.counts.with_line(&self.held)
    }
}
