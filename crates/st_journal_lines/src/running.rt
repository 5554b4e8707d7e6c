ghost use Rattle.std.specs.Option.{ok_or};
ghost use Rattle.std.specs.Prelude.{◌≡◌, ◌≤◌, ◌<◌, ◌^◌, ℕ, List, IfErr, IfOk, OnErr, Some, ◌++◌};
ghost use Rattle.st_base.specs.Answers.{GivesAs};
ghost use Rattle.st_io.specs.Past.{FaultHasCause, StaysAsItWas, storage};
ghost use Rattle.st_io.specs.Histories.{IfTold};
ghost use Rattle.st_journal.specs.Opening.{IsReading, coming, left_of, refusal_of};
ghost use Rattle.st_journal.specs.Image.{IsReady};
ghost use Rattle.st_journal.specs.declared.journal.JournalRefused.TheVariants.{Damaged};
ghost use Rattle.st_drive.specs.OnDisk.{changing};
ghost use Rattle.st_drive.specs.Lines.{streams};
ghost use Rattle.st_journal_lines.specs.Answering.{StayedOrWent, WentOverFrom, behind_opened, behind};
ghost use Rattle.st_journal_lines.specs.Journalled.{OpensJournal, RecordedRun, plain_recorder};
ghost use Rattle.st_journal_lines.specs.inside.Journalled.{refusal_status as status_of};

use crate::lines::{JournalLines, Replayable};
use st_drive::run_machine;
use st_io::{Disk, Sink, Source};
use st_journal::{JournalRefused, Opening};
use std::alloc::Global;

// The machine after the remaining records, with the journal after them. Each record is dropped
// after it is answered, and so are the replies.
fn replay<N: Replayable, D: Disk>(
    alloc: Global,
    machine: N,
    context: &mut N::Context,
    opening: Opening,
    disk: &mut D,
) -> Result<JournalLines<N, D>, JournalRefused>
    requires { IsReading opening (D.reads disk.old) (D.past disk.old) }
    ensures gives { IfTold (D.reads disk.old) (λ image.
        GivesAs (λ lines. lines.0) refusal_of (behind_opened N.answering machine (ok_or (coming opening image) Damaged)) result) }
    ensures ready { IfOk result (λ lines. IsReady lines.1 (D.reads disk.new) (D.past disk.new)) }
    ensures small { IfOk result (λ lines. lines.1.end < 2 ^ 40) }
    ensures ran { IfTold (D.reads disk.old) (λ image. (r : List (List ℕ)) → coming opening image ≡ Some r
        → IfOk result (λ lines. N.answering.effect.ran machine context.old r lines.0 context.new)) }
    ensures gave_up { IfTold (D.reads disk.old) (λ image. (r : List (List ℕ)) → coming opening image ≡ Some r
        → OnErr result (StayedOrWent N.answering machine r context.old context.new)) }
    ensures within { IfTold (D.reads disk.old) (λ image.
        OnErr result (WentOverFrom N.answering machine opening.place image context.old context.new)) }
    ensures refuses { IfErr result (λ refused. 0 < left_of opening) }
    ensures as_it_was { StaysAsItWas (D.reads disk.old) (D.reads disk.new) (D.past disk.old) (D.past disk.new) }
    ensures cause { FaultHasCause JournalRefused.DiskFault (D.faults disk.old) (D.faults disk.new) result }
{
    let mut machine = machine;
    let mut opening = opening;
    'records: loop {
        match opening.next(alloc, disk) {
            Ok(Some(line)) => match machine.answer(alloc, context, line.as_slice()) {
                Ok((next, _reply, _changes)) => machine = next,
                Err(_) => return Err(JournalRefused::WantOfMemory),
            },
            Ok(None) => return Ok(JournalLines::new(machine, opening.finish(disk))),
            Err(refused) => return Err(refused),
        }
    }
}

impl<N: Replayable, D: Disk> JournalLines<N, D> {
    /// Opens the journal of a disk, and restores the machine: from its start it replays all
    /// records, as lines, one by one as they are read. If the journal is found to be damaged, or
    /// memory or the disk fails, that machine is dropped.
    ///
    /// The result is `TooLong` if and only if the disk has more than 2^40 bytes; otherwise
    /// `Damaged` if and only if its journal is damaged. It is `DiskFault` only if the disk's count
    /// of faults rose. It may run out of memory.
    pub fn open(
        alloc: Global,
        seed: &N::Seed,
        context: &mut N::Context,
        disk: &mut D,
    ) -> Result<JournalLines<N, D>, JournalRefused>
        ensures opens { OpensJournal N.answering (N.start seed.now) (storage D.reads D.past D.faults disk.old disk.new)
            context.old context.new result }
        ensures later { D.faults disk.old ≤ D.faults disk.new }
    {
        match Opening::begin(alloc, disk) {
            Ok(opening) => match N::start(alloc, seed) {
                Ok(machine) => replay(alloc, machine, context, opening, disk),
                Err(_) => Err(JournalRefused::WantOfMemory),
            },
            Err(refused) => Err(refused),
        }
    }
}

/// Restores a machine from the journal of the disk, and answers the lines of a source of at most
/// `limit` bytes with it.
///
/// The status is 7 if and only if the journal is damaged, and 8 if and only if the disk has more
/// than 2^40 bytes, unless the disk fails or memory runs out; then nothing is read or written, and
/// the disk is unchanged. Each reply is written before the next line is executed. The status is 4
/// only if the disk's count of faults rose, and else that of `run_machine`. Clauses about replies
/// and the disk hold if it reveals its contents.
pub fn run_journalled<N: Replayable, S: Source, K: Sink, D: Disk>(
    alloc: Global,
    limit: usize,
    seed: &N::Seed,
    context: &mut N::Context,
    source: &mut S,
    sink: &mut K,
    disk: &mut D,
) -> u8
    requires { limit ≤ 2 ^ 30 }
    ensures { RecordedRun N.answering (N.start seed.now) limit (record {
      io = streams S.left S.faults source.old source.new K.written K.is_finished K.faults sink.old sink.new;
      disk = storage D.reads D.past D.faults disk.old disk.new;
      context = context.old;
      context_now = context.new;
      status = result;
    }) }
{
    match JournalLines::<N, D>::open(alloc, seed, context, disk) {
        Ok(lines) => run_machine(alloc, limit, lines, context, disk, source, sink),
        Err(refused) => refusal_status(refused),
    }
}

fn refusal_status(refused: JournalRefused) -> u8
    ensures { result ≡ status_of refused }
{
    match refused {
        JournalRefused::DiskFault => 4,
        JournalRefused::WantOfMemory => 6,
        JournalRefused::Damaged => 7,
        JournalRefused::TooLong => 8,
    }
}

/// Replaying the records and then the changing lines among some more gives the machine after the
/// records and all of those lines: lines that aren't recorded changed nothing. So the next run of a
/// machine with a journal starts with the machine after a prefix of all its commands.
pub fn journal_law<N: Replayable>()
    ensures { (seed : N.Seed) (r lines : List (List ℕ))
        → behind N.answering (N.start seed) (r ++ changing (plain_recorder N.answering) (behind N.answering (N.start seed) r) lines)
        ≡ behind N.answering (N.start seed) (r ++ lines) }
{}
