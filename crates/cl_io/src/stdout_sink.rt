ghost use Rattle.std.specs.Prelude.{◌≡◌};

use crate::failed::Failed;
use crate::sink::Sink;
use std::io::Write;

/// A writer of std. That a call ever succeeds is known to no contract: also an adapter that always
/// fails, and counts that, would meet its clauses.
#[derive(Drop)]
pub struct StdoutSink<W> {
    writer: W,
    faults: u64,
}

impl<W: Write> StdoutSink<W> {
    /// Writes to this writer.
    pub fn new(writer: W) -> StdoutSink<W>
        ensures held { ⟦<StdoutSink<W> as Sink>⟧.held result ≡ W.contents writer }
        ensures faults { ⟦<StdoutSink<W> as Sink>⟧.faults result ≡ 0 }
    {
        StdoutSink { writer, faults: 0 }
    }
}

impl<W: Write> Sink for StdoutSink<W> {
    ghost held = { λ s. W.contents s.writer };

    ghost faults = { λ s. s.faults };

    fn write_piece(&mut self, bytes: &[u8]) -> Result<usize, Failed> {
        match self.writer.write(bytes) {
            Ok(count) => {
                if count == 0 && !bytes.is_empty() {
                    self.faults = self.faults.saturating_add(1);
                }
                Ok(count)
            }
            Err(_) => {
                self.faults = self.faults.saturating_add(1);
                Err(Failed)
            }
        }
    }
}
