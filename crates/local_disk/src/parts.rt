// Work on the bytes and marks of a disk in memory.
ghost use Rattle.std.specs.Prelude.{◌≡◌, ◌≤◌, ◌+◌, length, replicate, true, false};
ghost use Rattle.local_disk.specs.LocalDisk.{overwritten};
ghost use Rattle.local_disk.specs.Memory.{IsImage, IsWithin, zeroed, left_by};

use crate::Choice;

/// Puts bytes from a place on.
pub fn put(disk: &mut [u8], place: usize, bytes: &[u8])
    requires { place + length bytes.now ≤ length disk.old }
    ensures { disk.new ≡ overwritten disk.old place bytes.now }
{
    disk[place..place + bytes.len()].copy_from_slice(bytes);
}

/// Marks as many places from a place on.
pub fn mark(marks: &mut [bool], place: usize, count: usize)
    requires { place + count ≤ length marks.old }
    ensures { marks.new ≡ overwritten marks.old place (replicate count true) }
{
    marks[place..place + count].fill(true);
}

/// Makes `to` what `from` is, which differs at marked places alone, all from low up to high, and takes the marks away.
pub fn settle(from: &[u8], to: &mut [u8], marks: &mut [bool], low: usize, high: usize)
    requires span { IsWithin marks.old low high }
    requires same { IsImage marks.old from.now to.old }
    requires size { length marks.old ≡ length from.now }
    ensures to { to.new ≡ from.now }
    ensures marks { marks.new ≡ replicate (length marks.old) false }
{
    to[low..high].copy_from_slice(&from[low..high]);
    marks[low..high].fill(false);
}

/// Puts zeros at the marked places, all from low up to high.
pub fn zero(bytes: &mut [u8], marks: &[bool], low: usize, high: usize)
    requires span { IsWithin marks.now low high }
    requires size { length marks.now ≡ length bytes.old }
    ensures { bytes.new ≡ zeroed marks.now bytes.old }
{
    for i in low..high {
        if marks[i] {
            bytes[i] = 0;
        }
    }
}

/// Makes the synced bytes and those that a read gives what a crash leaves by a choice, and takes the marks away.
pub fn leave(
    choice: Choice,
    synced: &mut [u8],
    reads: &mut [u8],
    marks: &mut [bool],
    low: usize,
    high: usize,
)
    requires span { IsWithin marks.old low high }
    requires same { IsImage marks.old reads.old synced.old }
    requires size { length marks.old ≡ length reads.old }
    ensures synced { synced.new ≡ left_by choice marks.old synced.old reads.old }
    ensures reads { reads.new ≡ left_by choice marks.old synced.old reads.old }
    ensures marks { marks.new ≡ replicate (length marks.old) false }
    ensures image { IsImage marks.old reads.old (left_by choice marks.old synced.old reads.old) }
{
    match choice {
        Choice::Old => settle(synced, reads, marks, low, high),
        Choice::New => settle(reads, synced, marks, low, high),
        Choice::Zero => {
            zero(reads, marks, low, high);
            settle(reads, synced, marks, low, high);
        }
    }
}
