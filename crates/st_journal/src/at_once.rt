ghost use Rattle.std.specs.Prelude.{◌≡◌, ◌≢◌, ◌<◌, ◌^◌, List, ℕ, Some, IfErr, IfOk, OnOk};
ghost use Rattle.std.specs.Option.{ok_or};
ghost use Rattle.st_base.specs.Answers.{GivesAs};
ghost use Rattle.st_io.specs.Past.{FaultHasCause, Images, Leaves, LeftSinceSync, Only, StaysAsItWas};
ghost use Rattle.st_io.specs.Histories.{IfTold, Turns};
ghost use Rattle.st_journal.specs.Opening.{IsReading, coming, left_of, begun, opened, refusal_of};
ghost use Rattle.st_journal.specs.Image.{records, IsReady, IsOldOrHas};
ghost use Rattle.st_journal.specs.declared.journal.JournalRefused.TheVariants.{Damaged};

use crate::journal::{Journal, JournalRefused};
use crate::opening::{Opening, begin_synced};
use st_base::{Bytes, List};
use st_io::Disk;
use std::alloc::Global;

/// The journal in a disk's contents after a sync, and its records, the oldest first. Fewer than 2
/// bytes are replaced by a closed gate, which is synced; otherwise nothing is written.
///
/// The result is `TooLong` if and only if the disk has more than 2^40 bytes; otherwise `Damaged` if
/// and only if too few bytes follow an open gate before the first closed one. It is `DiskFault`
/// only if the disk's count of faults rose. After `TooLong`, `Damaged` and `WantOfMemory` the disk
/// is unchanged. It allocates memory for all records at once and 65,536 bytes; `Opening` does so
/// for one record at a time.
pub fn open_journal<D: Disk>(
    alloc: Global,
    disk: &mut D,
) -> Result<(Journal, List<Bytes>), JournalRefused>
    ensures gives { IfTold (D.reads disk.old) (λ old. GivesAs (λ given. given.1) refusal_of (opened old) result) }

    // The disk is then ready for the journal, and every image has the returned records.
    ensures ready { IfOk result (λ given. IsReady given.0 (D.reads disk.new) (D.past disk.new)) }
    ensures begun { OnOk result (Turns (D.reads disk.old) (D.reads disk.new) (λ old new. new ≡ begun old)) }
    ensures same { OnOk result (Turns (D.reads disk.old) (D.reads disk.new) (λ old new. records new ≡ records old)) }
    ensures lasting { IfOk result (λ given. IfTold (D.reads disk.old) (λ old. (image : List ℕ)
        → Images (D.past disk.new) image → records image ≡ Some given.1)) }
    ensures small { IfOk result (λ given. given.0.end < 2 ^ 40) }

    // A refused disk is unchanged.
    ensures refused { IfErr result (λ refused. refused ≢ JournalRefused.DiskFault
        → StaysAsItWas (D.reads disk.old) (D.reads disk.new) (D.past disk.old) (D.past disk.new)) }

    // A stop at any moment of the call leaves what it might have left before, or the same records;
    // from the first successful sync on, the same records.
    ensures moments { IfTold (D.reads disk.old) (λ old. Leaves (IsOldOrHas (D.past disk.old) (records old)) (D.past disk.old) (D.past disk.new)) }
    ensures synced { IfTold (D.reads disk.old) (λ old. (image : List ℕ)
        → LeftSinceSync (D.past disk.new) (D.past disk.old).now image → records image ≡ records old) }
    ensures cause { FaultHasCause JournalRefused.DiskFault (D.faults disk.old) (D.faults disk.new) result }
{
    disk.sync()?;
    open_synced(alloc, disk)
}

/// Opens a disk whose only image is its contents.
fn open_synced<D: Disk>(
    alloc: Global,
    disk: &mut D,
) -> Result<(Journal, List<Bytes>), JournalRefused>
    requires { IfTold (D.reads disk.old) (Only (D.past disk.old)) }
    ensures gives { IfTold (D.reads disk.old) (λ old. GivesAs (λ given. given.1) refusal_of (opened old) result) }
    ensures ready { IfOk result (λ given. IsReady given.0 (D.reads disk.new) (D.past disk.new)) }
    ensures begun { OnOk result (Turns (D.reads disk.old) (D.reads disk.new) (λ old new. new ≡ begun old)) }
    ensures same { OnOk result (Turns (D.reads disk.old) (D.reads disk.new) (λ old new. records new ≡ records old)) }
    ensures small { IfOk result (λ given. given.0.end < 2 ^ 40) }
    ensures refused { IfErr result (λ refused. refused ≢ JournalRefused.DiskFault
        → StaysAsItWas (D.reads disk.old) (D.reads disk.new) (D.past disk.old) (D.past disk.new)) }
    ensures moments { IfTold (D.reads disk.old) (λ old. Leaves (λ image. records image ≡ records old) (D.past disk.old) (D.past disk.new)) }
    ensures cause { FaultHasCause JournalRefused.DiskFault (D.faults disk.old) (D.faults disk.new) result }
{
    match begin_synced(alloc, disk) {
        Ok(opening) => read_on(alloc, disk, opening),
        Err(refused) => Err(refused),
    }
}

/// The remaining records, and the journal after them.
fn read_on<D: Disk>(
    alloc: Global,
    disk: &mut D,
    opening: Opening,
) -> Result<(Journal, List<Bytes>), JournalRefused>
    requires { IsReading opening (D.reads disk.old) (D.past disk.old) }
    ensures gives { IfTold (D.reads disk.old) (λ image. GivesAs (λ given. given.1) refusal_of (ok_or (coming opening image) Damaged) result) }
    ensures ready { IfOk result (λ given. IsReady given.0 (D.reads disk.new) (D.past disk.new)) }
    ensures small { IfOk result (λ given. given.0.end < 2 ^ 40) }
    ensures refuses { IfErr result (λ refused. 0 < left_of opening) }
    ensures as_it_was { StaysAsItWas (D.reads disk.old) (D.reads disk.new) (D.past disk.old) (D.past disk.new) }
    ensures cause { FaultHasCause JournalRefused.DiskFault (D.faults disk.old) (D.faults disk.new) result }
{
    let mut opening = opening;
    let mut bodies = List::new(alloc);
    'records: loop {
        match opening.next(alloc, disk) {
            Ok(Some(body)) => {
                if bodies.push(alloc, body).is_err() {
                    return Err(JournalRefused::WantOfMemory);
                }
            }
            Ok(None) => return Ok((opening.finish(disk), bodies)),
            Err(refused) => return Err(refused),
        }
    }
}
