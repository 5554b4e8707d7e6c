ghost use Rattle.std.specs.Prelude.{◌≡◌, ◌≢◌, ◌+◌, ◌<◌, ◌^◌, List, ℕ, None, Ok, Err, drop, length, IfErr, IfOk, IfSome};
ghost use Rattle.st_io.specs.Past.{FaultHasCause, Leaves, LeftSinceSync, Only, StaysAsItWas};
ghost use Rattle.st_io.specs.Histories.{IfTold};
ghost use Rattle.st_journal.specs.Opening.{Comes, HasBegun, IsReading, RecordIs, coming, left_of, opened, refusal_of};
ghost use Rattle.st_journal.specs.Image.{records, IsReady, IsOldOrHas, at_end};

use crate::journal::{Journal, JournalRefused};
use crate::layout::{CLOSED_GATE, HEAD_LEN, LONGEST};
use crate::window::{Window, bare_window, no_window, read_record};
use st_base::Bytes;
use st_io::{Disk, write_synced};
use std::alloc::Global;

/// The opening of a disk as a journal: it returns the records one by one, the oldest first, and
/// after the last of them the journal.
///
/// It is passed from call to call with its disk, which nobody else may write to in between.
#[derive(Drop)]
pub struct Opening {
    window: Window,
    place: u64,
    len: u64,
}

impl Opening {
    /// Begins to open a disk, by its contents after a sync. Fewer than 2 bytes are replaced by a
    /// closed gate, which is synced; otherwise nothing is written.
    ///
    /// The result is `TooLong` if and only if the disk has more than 2^40 bytes. It is `DiskFault`
    /// only if the disk's count of faults rose. After `TooLong` and `WantOfMemory` the disk is
    /// unchanged. It allocates 65,536 bytes.
    pub fn begin<D: Disk>(alloc: Global, disk: &mut D) -> Result<Opening, JournalRefused>
        // The remaining records are then all records of the disk.
        ensures begins { IfOk result (λ opening. HasBegun opening (D.reads disk.old) (D.reads disk.new) (D.past disk.new)) }

        // If something remains to be read, and if it is refused, the disk is unchanged.
        ensures unwritten { IfOk result (λ opening. 0 < left_of opening
            → StaysAsItWas (D.reads disk.old) (D.reads disk.new) (D.past disk.old) (D.past disk.new)) }
        ensures refusal { IfErr result (λ error. IfTold (D.reads disk.old) (λ old. IfSome (refusal_of error) (λ refusal. opened old ≡ Err refusal))) }
        ensures refused { IfErr result (λ refused. refused ≢ JournalRefused.DiskFault
            → StaysAsItWas (D.reads disk.old) (D.reads disk.new) (D.past disk.old) (D.past disk.new)) }

        // A stop at any moment of the call leaves what it might have left before, or the same
        // records; from the first successful sync on, the same records.
        ensures moments { IfTold (D.reads disk.old) (λ old. Leaves (IsOldOrHas (D.past disk.old) (records old)) (D.past disk.old) (D.past disk.new)) }
        ensures synced { IfTold (D.reads disk.old) (λ old. (image : List ℕ)
            → LeftSinceSync (D.past disk.new) (D.past disk.old).now image → records image ≡ records old) }
        ensures cause { FaultHasCause JournalRefused.DiskFault (D.faults disk.old) (D.faults disk.new) result }
    {
        disk.sync()?;
        begin_synced(alloc, disk)
    }

    /// The next record, or none after the last of them: exactly the one at the current place.
    ///
    /// The result is `Damaged` if and only if too few bytes follow an open gate there. It is
    /// `DiskFault` only if the disk's count of faults rose. Nothing is written. It allocates memory
    /// for the record.
    pub fn next<D: Disk>(
        &mut self,
        alloc: Global,
        disk: &mut D,
    ) -> Result<Option<Bytes>, JournalRefused>
        requires reading { IsReading self.old (D.reads disk.old) (D.past disk.old) }

        // The returned record and the remaining ones are those that remained before.
        ensures reading { IsReading self.new (D.reads disk.new) (D.past disk.new) }
        ensures gives { IfTold (D.reads disk.old) (λ image. RecordIs (drop self.old.place image) result) }
        ensures comes { IfTold (D.reads disk.old) (λ image. Comes (coming self.old image) (coming self.new image) result) }

        // The place moves past a record and the five bytes before it.
        ensures place { IfOk result (λ next. IfSome next (λ body. self.new.place ≡ self.old.place + (5 + length body))) }

        // After the last record the disk is ready for the journal that ends there.
        ensures ready { IfOk result (λ next. next ≡ None → IsReady (at_end self.new.place) (D.reads disk.new) (D.past disk.new)) }
        ensures small { self.new.place < 2 ^ 40 }

        // It makes progress, and refuses only if something remained to be read.
        ensures shorter { IfOk result (λ next. IfSome next (λ body. left_of self.new < left_of self.old)) }
        ensures refuses { IfErr result (λ refused. 0 < left_of self.old) }
        ensures as_it_was { StaysAsItWas (D.reads disk.old) (D.reads disk.new) (D.past disk.old) (D.past disk.new) }
        ensures cause { FaultHasCause JournalRefused.DiskFault (D.faults disk.old) (D.faults disk.new) result }
    {
        if self.len <= self.place {
            return Ok(None);
        }
        match read_record(alloc, disk, &mut self.window, self.place, self.len) {
            Ok(Some(body)) => {
                self.place += HEAD_LEN + body.as_slice().len() as u64;
                Ok(Some(body))
            }
            Ok(None) => Ok(None),
            Err(refused) => Err(refused),
        }
    }

    /// The journal that ends at the current place, after the last record of the disk.
    pub fn finish<D: Disk>(self, _disk: &D) -> Journal
        requires { IsReady (at_end self.place) (D.reads _disk.now) (D.past _disk.now) }
        ensures value { result ≡ at_end self.place }
        ensures ready { IsReady result (D.reads _disk.now) (D.past _disk.now) }
    {
        Journal::new(self.place)
    }
}

/// Begins to open a disk whose only image is its contents.
pub(crate) fn begin_synced<D: Disk>(alloc: Global, disk: &mut D) -> Result<Opening, JournalRefused>
    requires { IfTold (D.reads disk.old) (Only (D.past disk.old)) }
    ensures begins { IfOk result (λ opening. HasBegun opening (D.reads disk.old) (D.reads disk.new) (D.past disk.new)) }
    ensures unwritten { IfOk result (λ opening. 0 < left_of opening
        → StaysAsItWas (D.reads disk.old) (D.reads disk.new) (D.past disk.old) (D.past disk.new)) }
    ensures refusal { IfErr result (λ error. IfTold (D.reads disk.old) (λ old. IfSome (refusal_of error) (λ refusal. opened old ≡ Err refusal))) }
    ensures refused { IfErr result (λ refused. refused ≢ JournalRefused.DiskFault
        → StaysAsItWas (D.reads disk.old) (D.reads disk.new) (D.past disk.old) (D.past disk.new)) }
    ensures moments { IfTold (D.reads disk.old) (λ old. Leaves (λ image. records image ≡ records old) (D.past disk.old) (D.past disk.new)) }
    ensures cause { FaultHasCause JournalRefused.DiskFault (D.faults disk.old) (D.faults disk.new) result }
{
    let len = disk.length()?;
    if len > LONGEST {
        return Err(JournalRefused::TooLong);
    }
    if len < 2 {
        return begin_closed(alloc, disk);
    }
    let window = no_window(alloc)?;
    Ok(Opening {
        window,
        place: 0,
        len,
    })
}

/// Writes a closed gate over fewer than 2 bytes; nothing remains to be read.
fn begin_closed<D: Disk>(alloc: Global, disk: &mut D) -> Result<Opening, JournalRefused>
    requires short { IfTold (D.reads disk.old) (λ old. length old < 2) }
    requires only { IfTold (D.reads disk.old) (Only (D.past disk.old)) }
    ensures begins { IfOk result (λ opening. HasBegun opening (D.reads disk.old) (D.reads disk.new) (D.past disk.new)) }
    ensures none { IfOk result (λ opening. left_of opening ≡ 0) }
    ensures refused { IfErr result (λ refused. refused ≡ JournalRefused.DiskFault) }
    ensures moments { IfTold (D.reads disk.old) (λ old. Leaves (λ image. records image ≡ records old) (D.past disk.old) (D.past disk.new)) }
    ensures cause { FaultHasCause JournalRefused.DiskFault (D.faults disk.old) (D.faults disk.new) result }
{
    write_synced(disk, 0, &[CLOSED_GATE])?;
    Ok(Opening {
        window: bare_window(alloc),
        place: 0,
        len: 0,
    })
}
