// What every local disk promises: a crash loses or spoils only what was not synced.
ghost use Rattle.std.specs.Prelude.{◌≡◌, ◌≤◌, ◌+◌, Bool, List, ℕ, Option, OnOk, OnErr, length, is_ok};
ghost use Rattle.local_disk.specs.LocalDisk.{bytes_at, overwritten, SameOutside, FollowsBy, Keeps, Only, HasCause, TakesCalls};
ghost use Rattle.local_disk.specs.Memory.{Spoils};
ghost use Rattle.local_disk.specs.declared.memory.Choice.{Choice};

/// The number of bytes of a local disk.
pub const DISK_BYTES: u64 = 131_096;

/// A call of a disk failed.
#[derive(Clone, Copy, Debug, PartialEq, Eq)]
pub struct Failed;

/// A disk of 131,096 bytes. Between two syncs a crash may leave any bytes in each range that was written; bytes
/// outside stay. After a sync that succeeds a crash leaves what a read gives.
pub trait LocalDisk {
    /// What a read gives.
    ghost reads: { Self → List ℕ };

    /// The images that a crash may leave now.
    ghost leaves: { Self → List ℕ → Type 0 };

    /// How often the disk has failed.
    ghost faults: { Self → ℕ };

    /// Whether a call may fail where no stop is armed.
    ghost fails_of_itself: { Bool };

    /// The calls left before an armed stop, of a disk that tells them. Such a disk fails for no other cause.
    ghost calls_left: { Self → Option ℕ };

    /// What that stop makes of the bytes that are not synced then.
    ghost choice: { Self → Choice };

    /// The image that a crash would leave now, of a disk that tells the calls left.
    ghost left: { Self → List ℕ };

    /// Reads the bytes from a place on, counted from 0, as many as `buf` has. After `Failed` it may hold anything.
    fn read_at(&mut self, place: u64, buf: &mut [u8]) -> Result<(), Failed>
        requires { place + length buf.old ≤ DISK_BYTES }
        ensures bytes { OnOk result (buf.new ≡ bytes_at place (length buf.old) (reads self.old)) }
        ensures reads { reads self.new ≡ reads self.old }
        ensures images { Keeps (leaves self.old) (leaves self.new) }
        ensures choice { choice self.new ≡ choice self.old }
        ensures cause { HasCause (faults self.old) (faults self.new) result }
        ensures calls { TakesCalls fails_of_itself 1 (calls_left self.old) (calls_left self.new) (is_ok result) };

    /// Writes bytes from a place on. Whether or not it succeeds, a crash may leave any bytes in the range from now
    /// on; after `Failed` a read may give any there.
    fn write_at(&mut self, place: u64, bytes: &[u8]) -> Result<(), Failed>
        requires { place + length bytes.now ≤ DISK_BYTES }
        ensures written { OnOk result (reads self.new ≡ overwritten (reads self.old) place bytes.now) }
        ensures outside { SameOutside place (length bytes.now) (reads self.old) (reads self.new) }
        ensures images { FollowsBy (SameOutside place (length bytes.now)) (leaves self.old) (leaves self.new) }
        ensures choice { choice self.new ≡ choice self.old }
        // what a crash would leave is one of the images that it may leave
        ensures one { leaves self.old (left self.old) }
        ensures left { Spoils (calls_left self.old) (choice self.old) place bytes.now (left self.old) (left self.new) }
        ensures cause { HasCause (faults self.old) (faults self.new) result }
        ensures calls { TakesCalls fails_of_itself 1 (calls_left self.old) (calls_left self.new) (is_ok result) };

    /// After it succeeds, a crash leaves what a read gives. Where it fails, nothing is synced by it.
    fn sync(&mut self) -> Result<(), Failed>
        ensures synced { OnOk result (Only (reads self.new) (leaves self.new)) }
        ensures reads { reads self.new ≡ reads self.old }
        ensures images { Keeps (leaves self.old) (leaves self.new) }
        ensures choice { choice self.new ≡ choice self.old }
        ensures left { OnErr result (left self.new ≡ left self.old) }
        ensures cause { HasCause (faults self.old) (faults self.new) result }
        ensures calls { TakesCalls fails_of_itself 1 (calls_left self.old) (calls_left self.new) (is_ok result) };

    /// The disk as it reads is one of the images that a crash may leave.
    ghost reads_is_left: { (disk : Self) → leaves disk (reads disk) };
}
