ghost use Rattle.std.specs.Prelude.{◌≡◌, ℕ, List, [], ◌∷◌, IfOk, OnErr, refl, true, ◌≤◌, ◌+◌, ◌*◌, ◌^◌, length, IsSome, IsErrOf, OnOk};
ghost use Rattle.st_io.specs.Past.{Rose, Images, Leaves};
ghost use Rattle.st_io.specs.Histories.{IfTold};
ghost use Rattle.st_journal.specs.Image.{records, IsReady, IsBeforeOrAfter, with_record, at_end};
ghost use Rattle.st_drive.specs.OnDisk.{disk_meaning, recording};
ghost use Rattle.st_journal_lines.specs.Answering.{Answering, AnsweringLaws, Idles, recorder_of, fits_less, machine_laws};

use st_base::{Bytes, WantOfMemory};
use st_drive::{Machine, StepError};
use st_io::Disk;
use st_journal::{AppendRefused, Journal};
use std::alloc::Global;
use std::marker::{Model, PhantomData};

/// A machine of lines without a disk, which is restored by replaying the lines that changed it.
pub trait Replayable: Sized + Drop {
    /// What the machine uses but doesn't own, such as a counter of work.
    type Context;

    /// What it starts with, such as a schedule of limits.
    type Seed;

    /// The machine before any line.
    ghost start: { Self.Seed → Self };

    /// Its reply to a line, the next machine, whether the line changed it, and the possible effects
    /// on its context.
    ghost answering: { Answering Self Self.Context };

    /// A property of each machine that replay restores from the start.
    ghost good: { Self → Type 0 };

    /// How many bytes of a line it reads.
    ghost CAP: { ℕ };

    /// How many bytes of a line it reads: the others are skipped.
    const CAP: usize;

    /// The machine before any line.
    ///
    /// It may run out of memory.
    fn start(alloc: Global, seed: &Self::Seed) -> Result<Self, WantOfMemory>
        ensures { IfOk result (λ machine. machine ≡ start seed.now) };

    /// Answers one line: the next machine, the reply, and whether the line changed it.
    ///
    /// It may run out of memory.
    fn answer(
        self,
        alloc: Global,
        context: &mut Self::Context,
        line: &[u8],
    ) -> Result<(Self, Bytes, bool), WantOfMemory>
        ensures next { IfOk result (λ done. done.0 ≡ answering.next self line.now) }
        ensures reply { IfOk result (λ done. done.1 ≡ answering.reply self line.now) }
        ensures changes { IfOk result (λ done. done.2 ≡ answering.changes self line.now) }
        ensures ran { IfOk result (λ done. answering.effect.ran self context.old (line.now ∷ []) done.0 context.new) }
        ensures gave_up { OnErr result (answering.effect.gave_up self context.old (line.now ∷ []) context.new) };

    /// A line that isn't reported as a change leaves a machine that replay restores unchanged.
    ghost idles: { Idles answering start good };

    /// Its laws.
    ghost laws: { AnsweringLaws answering CAP };
}

/// A machine that is driven by lines, with the journal in which each line that changes it is
/// recorded before its reply is returned. It belongs to the disk of that journal, which nobody else
/// may write to.
#[derive(Drop)]
pub struct JournalLines<N, D> {
    machine: N,
    journal: Journal,
    disk: PhantomData<D>,
}

impl<N, D> Model for JournalLines<N, D> {
    ghost use Rattle.st_journal.specs.Image.{JournalValue};

    ghost Value = { N × JournalValue };

    ghost view = { λ l. (l.machine, l.journal) };
}

impl<N, D> JournalLines<N, D> {
    /// Lines for this machine, over the disk of this journal.
    pub(crate) fn new(machine: N, journal: Journal) -> JournalLines<N, D>
        ensures { result ≡ (machine, journal) }
    {
        JournalLines {
            machine,
            journal,
            disk: PhantomData,
        }
    }
}

fn record<D: Disk>(
    alloc: Global,
    disk: &mut D,
    journal: Journal,
    line: &[u8],
) -> Result<Journal, StepError>
    requires ready { IsReady journal (D.reads disk.old) (D.past disk.old) }
    requires end { journal.end ≤ 2 ^ 41 }
    requires body { length line.now ≤ 24000000 }
    ensures end { IfOk result (λ next. next ≡ at_end (journal.end + 5 + length line.now)) }
    ensures ready { IfOk result (λ next. IsReady next (D.reads disk.new) (D.past disk.new)) }
    ensures told { OnOk result (IsSome (D.reads disk.old) → IsSome (D.reads disk.new)) }
    ensures moments { IfTold (D.reads disk.old) (λ old.
        Leaves (IsBeforeOrAfter (records old) line.now) (D.past disk.old) (D.past disk.new)) }
    ensures lasting { OnOk result (IfTold (D.reads disk.old) (λ old. (image : List ℕ)
        → Images (D.past disk.new) image → records image ≡ with_record line.now (records old))) }
    ensures later { D.faults disk.old ≤ D.faults disk.new }
    ensures cause { IsErrOf result StepError.DeviceFault → Rose (D.faults disk.old) (D.faults disk.new) }
{
    match journal.append(alloc, disk, line) {
        Ok(next) => Ok(next),
        Err(AppendRefused::DiskFault) => Err(StepError::DeviceFault),
        Err(AppendRefused::WantOfMemory) => Err(StepError::WantOfMemory),
    }
}

impl<N: Replayable, D: Disk> Machine for JournalLines<N, D> {
    type Context = N::Context;

    type Device = D;

    ghost meaning = { disk_meaning (recording (recorder_of N.answering)) (record { reads = D.reads; past = D.past }) };

    ghost CAP = { N.CAP };

    const CAP: usize = N::CAP;

    ghost PROMPT = { true };

    const PROMPT: bool = true;

    ghost fits = { λ m c more. (m.1.end + 6 * more ≤ 2 ^ 41) × IsReady m.1 (D.reads c.1) (D.past c.1) };

    ghost faults = { λ c. D.faults c.1 };

    fn step(
        self,
        alloc: Global,
        context: &mut N::Context,
        device: &mut D,
        line: &[u8],
    ) -> Result<(JournalLines<N, D>, Bytes), StepError> {
        let JournalLines {
            machine,
            journal,
            ..
        } = self;
        match machine.answer(alloc, context, line) {
            Ok((next, reply, changes)) => {
                if changes {
                    return match record(alloc, device, journal, line) {
                        Ok(longer) => Ok((JournalLines::new(next, longer), reply)),
                        Err(stop) => Err(stop),
                    };
                }
                Ok((JournalLines::new(next, journal), reply))
            }
            Err(want) => Err(StepError::from(want)),
        }
    }

    ghost fewer = { λ m c many few le fits. (fits_less m.1.end many few le fits.0, fits.1) };

    ghost prompt = { λ now. refl };

    ghost laws = { machine_laws N.laws (record { reads = D.reads; past = D.past }) };
}
