ghost use Rattle.std.specs.Prelude.{◌≡◌, ℕ, List, Option, OnOk};
ghost use Rattle.std.specs.Io.{ReadsAtMost};
ghost use Rattle.std.specs.Io.KnownBytes.{ReadConsumes};
ghost use Rattle.cl_io.specs.Causes.{HasCause};

use crate::failed::Failed;

/// Bytes to be read, in pieces of any size.
pub trait Source {
    // The bytes that are left, where they are known.
    ghost left: { Self → Option (List ℕ) };

    // How many calls failed so far.
    ghost faults: { Self → ℕ };

    /// Reads a piece into the front of `buf` and tells its length; 0 where `buf` is not empty
    /// means that the source has ended. Fails only where the count of faults rises, and else leaves
    /// the count. No clause says that it ever succeeds.
    fn read_piece(&mut self, buf: &mut [u8]) -> Result<usize, Failed>
        ensures bound { ReadsAtMost result buf.new }
        ensures bytes { ReadConsumes (left self.old) (left self.new) result buf.new }
        ensures cause { HasCause (faults self.old) (faults self.new) result }
        ensures same { OnOk result (faults self.new ≡ faults self.old) };
}
