ghost use Rattle.std.specs.Prelude.{◌≡◌, ◌<◌, ℕ, List, Option, Ok, length, IfOk};
ghost use Rattle.std.specs.Io.{WritesAtMost};
ghost use Rattle.std.specs.Io.KnownBytes.{WriteAppends};
ghost use Rattle.cl_io.specs.Causes.{HasCause, IsTaken, Rose};

use crate::failed::Failed;

/// Where bytes are written, in pieces of any size.
pub trait Sink {
    // The bytes that it holds, where they are known.
    ghost held: { Self → Option (List ℕ) };

    // How many calls failed so far, or took nothing of a piece that is not empty.
    ghost faults: { Self → ℕ };

    /// Takes the front of the piece and tells its length. Fails, or takes nothing of a piece that
    /// is not empty, only where the count of faults rises, and else leaves the count. No clause says
    /// that it ever succeeds.
    fn write_piece(&mut self, bytes: &[u8]) -> Result<usize, Failed>
        ensures bound { WritesAtMost result bytes.now }
        ensures bytes { WriteAppends (held self.old) (held self.new) result bytes.now }
        ensures cause { HasCause (faults self.old) (faults self.new) result }
        ensures nothing { result ≡ Ok 0 → 0 < length bytes.now → Rose (faults self.old) (faults self.new) }
        ensures same { IfOk result (λ n. IsTaken n bytes.now → faults self.new ≡ faults self.old) };
}
