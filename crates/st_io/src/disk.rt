ghost use Rattle.std.specs.Prelude.{◌≡◌, ◌+◌, ◌≤◌, ℕ, List, length, take, drop, IfOk, OnOk, OnErr};
ghost use Rattle.std.specs.declared.option.Option.{Option};
ghost use Rattle.st_io.specs.Past.{HasCause, Past, Images, GoesOn, NoSync, OneSync, AddsNone, Follow, Only, SplitsSinceSync};
ghost use Rattle.st_io.specs.Histories.{IfTold, Turns, Holds, Torn};

use crate::streams::Failed;

/// A list of bytes that outlives a stop.
///
/// At each moment it has images, the lists of bytes that a stop at that moment may leave. Its
/// contents, as read, are one of them. Between two successful syncs each written range, and the
/// part past the old end, may hold any bytes in an image; bytes outside stay. After a successful
/// sync the contents are its only image. A sync is successful if it returns Ok.
///
/// An implementation need not reveal the contents. Clauses about them hold if it does.
pub trait Disk {
    /// The contents, if the implementation reveals them.
    ghost reads: { Self → Option (List ℕ) };

    /// The images at each moment so far, and the moments of successful syncs.
    ghost past: { Self → Past };

    /// How often the disk has failed. It never falls, and stays at `u64::MAX` after it gets there.
    ghost faults: { Self → ℕ };

    /// The length of the contents.
    ///
    /// The result is `Failed` only if the count of faults rose in this call. In any case the
    /// contents stay, and no image is added.
    fn length(&mut self) -> Result<u64, Failed>
        ensures length { IfOk result (λ n. IfTold (reads self.old) (λ xs. n ≡ length xs)) }
        ensures reads { reads self.new ≡ reads self.old }
        ensures images { AddsNone (past self.old) (past self.new) }
        ensures time { GoesOn (past self.old) (past self.new) }
        ensures syncs { NoSync (past self.old) (past self.new) }
        ensures cause { HasCause (faults self.old) (faults self.new) result };

    /// Fills `into` with the bytes from `at` on. The range is within the length.
    ///
    /// The result is `Failed` only if the count of faults rose in this call. In any case the
    /// contents stay, and no image is added.
    fn read_at(&mut self, at: u64, into: &mut [u8]) -> Result<(), Failed>
        requires { IfTold (reads self.old) (λ xs. at + length into.old ≤ length xs) }
        ensures bytes { OnOk result (IfTold (reads self.old) (λ xs. into.new ≡ take (length into.old) (drop at xs))) }
        ensures reads { reads self.new ≡ reads self.old }
        ensures images { AddsNone (past self.old) (past self.new) }
        ensures time { GoesOn (past self.old) (past self.new) }
        ensures syncs { NoSync (past self.old) (past self.new) }
        ensures cause { HasCause (faults self.old) (faults self.new) result };

    /// Overwrites the bytes from `at` on with `from`, also past the end if it is longer. `at` is at
    /// most the length.
    ///
    /// The result is `Failed` only if the count of faults rose in this call; the range may then
    /// hold any bytes, and the disk may be longer, up to the range's end. In any case an image may
    /// have any bytes in the range until the next successful sync.
    fn write_at(&mut self, at: u64, from: &[u8]) -> Result<(), Failed>
        requires { IfTold (reads self.old) (λ xs. at ≤ length xs) }
        ensures written { OnOk result (Turns (reads self.old) (reads self.new) (Holds at from.now)) }
        ensures torn { OnErr result (Turns (reads self.old) (reads self.new) (Torn at (length from.now))) }
        ensures images { Follow (Torn at (length from.now)) (past self.old) (past self.new) }
        ensures time { GoesOn (past self.old) (past self.new) }
        ensures syncs { NoSync (past self.old) (past self.new) }
        ensures cause { HasCause (faults self.old) (faults self.new) result };

    /// Makes the contents durable. After Ok, they are its only image.
    ///
    /// The result is `Failed` only if the count of faults rose in this call. In any case the
    /// contents stay, and no image is added.
    fn sync(&mut self) -> Result<(), Failed>
        ensures durable { OnOk result (IfTold (reads self.old) (Only (past self.new))) }
        ensures reads { reads self.new ≡ reads self.old }
        ensures images { AddsNone (past self.old) (past self.new) }
        ensures time { GoesOn (past self.old) (past self.new) }
        ensures synced { OnOk result (IfTold (reads self.old) (λ xs. OneSync (past self.old) (past self.new))) }
        ensures none { OnErr result (NoSync (past self.old) (past self.new)) }
        ensures cause { HasCause (faults self.old) (faults self.new) result };

    /// The contents are one of its images.
    ghost is_image: { (disk : Self) → IfTold (reads disk) (Images (past disk)) };
}

/// Overwrites the bytes from `at` on with `from`, as `Disk::write_at` does, and syncs. After Ok,
/// the new contents are its only image.
///
/// The result is `Failed` only if the disk's count of faults rose in this call. At each moment of
/// the call an image is one from before it, or such a one with any bytes in the range.
pub fn write_synced<D: Disk>(disk: &mut D, at: u64, from: &[u8]) -> Result<(), Failed>
    requires { IfTold (D.reads disk.old) (λ image. at ≤ length image) }
    ensures written { OnOk result (Turns (D.reads disk.old) (D.reads disk.new) (Holds at from.now)) }
    ensures durable { OnOk result (IfTold (D.reads disk.new) (Only (D.past disk.new))) }
    ensures images { Follow (Torn at (length from.now)) (D.past disk.old) (D.past disk.new) }
    ensures time { GoesOn (D.past disk.old) (D.past disk.new) }
    ensures cause { HasCause (D.faults disk.old) (D.faults disk.new) result }
{
    disk.write_at(at, from)?;
    disk.sync()
}

/// The images that a stop may leave from a successful sync on can be split at a later moment, like
/// the images since a moment. So a clause about a whole run follows call by call.
///
/// It takes a disk before and after, so no program can call it: proofs use
/// `st_io.proofs.PastLemmas.split_since_sync` with the clause `time` of each call.
pub fn images_split<D: Disk>(before: &D, after: &D)
    requires { GoesOn (D.past before.now) (D.past after.now) }
    ensures { (t : ℕ) → SplitsSinceSync (D.past before.now) (D.past after.now) t }
{}
