ghost use Rattle.std.specs.Prelude.{◌≡◌, ◌≤◌, [], length, IfOk, OnOk, OnErr, ◌≢◌, ◌+◌, ◌∷◌, ◌++◌, vec_len, vec_capacity, None, Option, reverse};
ghost use Rattle.st_io.specs.Histories.{crashed, torn_by, crash_step, past_of, reads_of, with_step, with_write, after_step, Holds};
ghost use Rattle.st_io.specs.Past.{Images};
ghost use Rattle.st_io.specs.declared.history.Step.TheVariants.{Synced, Wrote};
ghost use Rattle.st_io.specs.inside.Histories.{BeginsWithin, first_of, AllBeganWithin};

use st_base::{Bytes, List, WantOfMemory};
use std::alloc::Global;
use std::marker::Model;
use std::mem;

/// Bytes written from a place on.
#[derive(Drop)]
pub struct Written {
    pub at: usize,
    pub bytes: Bytes,
}

/// A change of the bytes of a disk in memory.
#[derive(Drop)]
pub enum Step {
    Wrote(Written),
    Synced,
}

/// Bytes in memory as a disk. They are stored with their first value and each step since, so that
/// the images of each moment are known. The first bytes are copied at the first write.
#[derive(Drop)]
pub struct History {
    first: Option<Bytes>,
    steps: List<Step>,
    bytes: Bytes,
}

impl Model for History {
    ghost use Rattle.std.specs.Prelude.{reverse};
    ghost use Rattle.st_io.specs.Histories.{DiskHistory};
    ghost use Rattle.st_io.specs.inside.Histories.{IsKept, first_of};

    ghost Value = { DiskHistory };

    ghost view = { λ h. record { first = first_of h.first h.bytes; steps = reverse h.steps } };

    ghost invariant = { λ h. IsKept (first_of h.first h.bytes) (reverse h.steps) h.bytes };
}

impl History {
    /// These bytes, and no step yet. It allocates nothing.
    pub fn new(alloc: Global, bytes: Bytes) -> History
        ensures { result ≡ record { first = bytes; steps = [] } }
    {
        History {
            first: None,
            steps: List::new(alloc),
            bytes,
        }
    }

    /// The present bytes.
    pub fn bytes(&self) -> &Bytes
        ensures { result.now ≡ reads_of self.now }
    {
        &self.bytes
    }

    /// Overwrites the bytes from `at` on with `from`, also past the end if it is longer.
    pub fn write(&mut self, alloc: Global, at: usize, from: &[u8]) -> Result<(), WantOfMemory>
        requires { at ≤ length (reads_of self.old) }
        ensures ok { OnOk result (self.new ≡ with_write at from.now self.old) }
        ensures err { OnErr result (self.new ≡ self.old) }
    {
        keep_first(alloc, &mut self.first, &self.bytes)?;
        put(alloc, &mut self.bytes, &mut self.steps, at, from)
    }

    /// Makes the bytes durable.
    pub fn sync(&mut self, alloc: Global) -> Result<(), WantOfMemory>
        ensures ok { OnOk result (self.new ≡ with_step Synced self.old) }
        ensures err { OnErr result (self.new ≡ self.old) }
    {
        self.steps.push(alloc, Step::Synced)
    }

    /// The present image that the pick chooses.
    pub fn crash(&self, alloc: Global, pick: Pick) -> Result<Bytes, WantOfMemory>
        ensures bytes { IfOk result (λ image. image ≡ crashed pick self.now.first self.now.steps) }
        ensures image { IfOk result (Images (past_of self.now)) }
        ensures newest { pick ≡ Pick.New → IfOk result (λ image. image ≡ reads_of self.now) }
    {
        let first = first_bytes(&self.first, &self.bytes);
        Ok(crash_of(alloc, first, self.steps.as_slice(), pick)?)
    }
}

// Copies the bytes, unless they were copied before.
pub fn keep_first(alloc: Global, first: &mut Option<Bytes>, now: &Bytes) -> Result<(), WantOfMemory>
    ensures same { first_of first.new now.now ≡ first_of first.old now.now }
    ensures copied { OnOk result (first.new ≢ None) }
{
    if first.is_none() {
        *first = Some(Bytes::from_slice(alloc, now.as_slice())?);
    }
    Ok(())
}

// The first bytes.
pub fn first_bytes<'a>(first: &'a Option<Bytes>, now: &'a Bytes) -> &'a [u8]
    ensures { result.now ≡ first_of first.now now.now }
{
    match first {
        Some(first) => first.as_slice(),
        None => now.as_slice(),
    }
}

// Overwrites. There is room for everything past the end.
fn overwrite(items: &mut Vec<u8>, at: usize, from: &[u8])
    requires place { at ≤ length items.old.items }
    requires room { vec_len items.old + length from.now ≤ vec_capacity items.old }
    ensures { Holds at from.now items.old.items items.new.items }
{
    let over = from.len().min(items.len() - at);
    items[at..at + over].copy_from_slice(&from[..over]);
    let _ = items.extend_from_slice(&from[over..]);
}

// Overwrites the bytes from a place on.
pub fn write_over(items: &mut Vec<u8>, at: usize, from: &[u8]) -> Result<(), WantOfMemory>
    requires { at ≤ length items.old.items }
    ensures ok { OnOk result (Holds at from.now items.old.items items.new.items) }
    ensures err { OnErr result (items.new.items ≡ items.old.items) }
{
    items.reserve(from.len())?;
    overwrite(items, at, from);
    Ok(())
}

// Overwrites, and adds the step. Allocation is first.
fn put_in(
    alloc: Global,
    items: &mut Vec<u8>,
    steps: &mut List<Step>,
    at: usize,
    from: &[u8],
) -> Result<(), WantOfMemory>
    requires { at ≤ length items.old.items }
    ensures ok { OnOk result (Holds at from.now items.old.items items.new.items) }
    ensures step { OnOk result (steps.new ≡ steps.old ++ Wrote (record { at = at; bytes = from.now }) ∷ []) }
    ensures err { OnErr result (items.new.items ≡ items.old.items) }
    ensures no_step { OnErr result (steps.new ≡ steps.old) }
{
    let bytes = Bytes::from_slice(alloc, from)?;
    items.reserve(from.len())?;
    steps.push(alloc, Step::Wrote(Written { at, bytes }))?;
    overwrite(items, at, from);
    Ok(())
}

// The same for `Bytes`.
pub fn put(
    alloc: Global,
    now: &mut Bytes,
    steps: &mut List<Step>,
    at: usize,
    from: &[u8],
) -> Result<(), WantOfMemory>
    requires { at ≤ length now.old }
    ensures ok { OnOk result (Holds at from.now now.old now.new) }
    ensures step { OnOk result (steps.new ≡ steps.old ++ Wrote (record { at = at; bytes = from.now }) ∷ []) }
    ensures err { OnErr result (now.new ≡ now.old) }
    ensures no_step { OnErr result (steps.new ≡ steps.old) }
{
    let mut items = mem::replace(now, Bytes::new(alloc)).into_vec();
    let result = put_in(alloc, &mut items, steps, at, from);
    *now = Bytes::from_vec(items);
    result
}

// Tears the image by the write, as the pick chooses.
fn tear(
    alloc: Global,
    image: &mut Vec<u8>,
    written: &Written,
    pick: Pick,
) -> Result<(), WantOfMemory>
    requires { written.now.at ≤ length image.old.items }
    ensures { OnOk result (image.new.items ≡ torn_by pick written.now image.old.items) }
{
    let bytes = written.bytes.as_slice();
    match pick {
        Pick::Old => {
            let end = image.len().max(written.at + bytes.len());
            image.resize(end, 0)?;
            Ok(())
        }
        Pick::New => write_over(image, written.at, bytes),
        Pick::Fill(byte) => {
            let fill = vec![in alloc; byte; bytes.len()]?;
            write_over(image, written.at, &fill)
        }
    }
}

// One more step, for the contents and for the image.
fn go_on(
    alloc: Global,
    reads: &mut Vec<u8>,
    image: &mut Vec<u8>,
    step: &Step,
    pick: Pick,
) -> Result<(), WantOfMemory>
    requires { BeginsWithin step.now reads.old.items image.old.items }
    ensures reads { OnOk result (reads.new.items ≡ after_step step.now reads.old.items) }
    ensures image { OnOk result (image.new.items ≡ crash_step pick step.now reads.old.items image.old.items) }
{
    match step {
        Step::Wrote(written) => {
            tear(alloc, image, written, pick)?;
            write_over(reads, written.at, written.bytes.as_slice())
        }
        Step::Synced => {
            *image = reads.to_vec(alloc)?;
            Ok(())
        }
    }
}

// The image that the pick chooses, from these first bytes. The oldest step is first.
pub fn crash_of(
    alloc: Global,
    first: &[u8],
    steps: &[Step],
    pick: Pick,
) -> Result<Bytes, WantOfMemory>
    requires { AllBeganWithin first.now (reverse steps.now) }
    ensures { IfOk result (λ image. image ≡ crashed pick first.now (reverse steps.now)) }
{
    let mut reads = first.to_vec(alloc)?;
    let mut image = first.to_vec(alloc)?;
    'steps: for step in steps {
        go_on(alloc, &mut reads, &mut image, step, pick)?;
    }
    Ok(Bytes::from_vec(image))
}

/// The value after a stop of a written byte that no successful sync has made durable.
#[derive(Clone, Copy, Debug, PartialEq, Eq)]
pub enum Pick {
    /// The value at the last successful sync, and 0 past the end at that time.
    Old,
    /// The last written value.
    New,
    /// This byte.
    Fill(u8),
}
