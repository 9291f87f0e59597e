ghost use Rattle.std.specs.Prelude.{◌≡◌};

use crate::failed::Failed;
use crate::source::Source;
use std::io::Read;

/// The bytes of a reader of std. What a call makes of the reader is known to no contract, nor that it
/// ever succeeds: also an adapter that always fails, and counts that, would meet its clauses.
#[derive(Drop)]
pub struct StdinSource<R> {
    reader: R,
    faults: u64,
}

impl<R: Read> StdinSource<R> {
    /// The bytes of this reader.
    pub fn new(reader: R) -> StdinSource<R>
        ensures left { ⟦<StdinSource<R> as Source>⟧.left result ≡ R.remaining reader }
        ensures faults { ⟦<StdinSource<R> as Source>⟧.faults result ≡ 0 }
    {
        StdinSource { reader, faults: 0 }
    }
}

impl<R: Read> Source for StdinSource<R> {
    ghost left = { λ s. R.remaining s.reader };

    ghost faults = { λ s. s.faults };

    fn read_piece(&mut self, buf: &mut [u8]) -> Result<usize, Failed> {
        match self.reader.read(buf) {
            Ok(count) => Ok(count),
            Err(_) => {
                self.faults = self.faults.saturating_add(1);
                Err(Failed)
            }
        }
    }
}
