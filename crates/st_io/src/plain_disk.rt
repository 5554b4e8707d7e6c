#![tactic(auto, using(crate::proofs::HistoryLemmas::synced_by_now))]

ghost use Rattle.std.specs.Prelude.{◌≡◌, ◌≤◌, Some, length, OnOk, OnErr};
ghost use Rattle.st_io.specs.Past.{HasCause, GoesOn, NoSync, OneSync, AddsNone, Follow, Only};
ghost use Rattle.st_io.specs.Histories.{reads_of, past_of, reads_is_image, IfTold, Turns, Holds, Torn};

use crate::disk::Disk;
use crate::history::History;
use crate::streams::Failed;
use st_base::Bytes;
use std::alloc::Global;

/// A disk in memory. It fails only if it can't grow, and then nothing changes except the count of
/// faults.
///
/// It stores each write and each successful sync since it was made, and a copy of its first bytes
/// from the first write on. So a sync allocates too, and may run out of memory.
#[derive(Drop)]
pub struct PlainDisk {
    alloc: Global,
    history: History,
    faults: u64,
}

impl PlainDisk {
    /// A disk with these contents and no other image. It allocates nothing.
    pub fn new(alloc: Global, image: Bytes) -> Self
        ensures reads { ⟦<PlainDisk as Disk>⟧.reads result ≡ Some image }
        ensures images { Only (⟦<PlainDisk as Disk>⟧.past result) image }
        ensures faults { ⟦<PlainDisk as Disk>⟧.faults result ≡ 0 }
    {
        PlainDisk {
            alloc,
            history: History::new(alloc, image),
            faults: 0,
        }
    }

    /// The contents.
    pub fn image(&self) -> &Bytes
        ensures { ⟦<PlainDisk as Disk>⟧.reads self.now ≡ Some result.now }
    {
        self.history.bytes()
    }
}

impl Disk for PlainDisk {
    ghost reads = { λ d. Some (reads_of d.history) };

    ghost past = { λ d. past_of d.history };

    ghost faults = { λ d. d.faults };

    ghost is_image = { λ d. reads_is_image d.history };

    fn length(&mut self) -> Result<u64, Failed> {
        Ok(self.history.bytes().as_slice().len() as u64)
    }

    fn read_at(&mut self, at: u64, into: &mut [u8]) -> Result<(), Failed> {
        let at = at as usize;
        let bytes = self.history.bytes().as_slice();
        into.copy_from_slice(&bytes[at..at + into.len()]);
        Ok(())
    }

    fn write_at(&mut self, at: u64, from: &[u8]) -> Result<(), Failed>
        requires { IfTold (Some (reads_of self.old.history)) (λ xs. at ≤ length xs) }
        ensures written { OnOk result (Turns (Some (reads_of self.old.history)) (Some (reads_of self.new.history)) (Holds at from.now)) }
        ensures torn { OnErr result (Turns (Some (reads_of self.old.history)) (Some (reads_of self.new.history)) (Torn at (length from.now))) }
        ensures images { Follow (Torn at (length from.now)) (past_of self.old.history) (past_of self.new.history) }
        ensures time { GoesOn (past_of self.old.history) (past_of self.new.history) }
        ensures syncs { NoSync (past_of self.old.history) (past_of self.new.history) }
        ensures cause { HasCause self.old.faults self.new.faults result }
        ensures unchanged { OnErr result (self.new.history ≡ self.old.history) }
    {
        match self.history.write(self.alloc, at as usize, from) {
            Ok(()) => Ok(()),
            Err(_) => {
                self.faults = self.faults.saturating_add(1);
                Err(Failed)
            }
        }
    }

    fn sync(&mut self) -> Result<(), Failed>
        ensures durable { OnOk result (IfTold (Some (reads_of self.old.history)) (Only (past_of self.new.history))) }
        ensures reads { Some (reads_of self.new.history) ≡ Some (reads_of self.old.history) }
        ensures images { AddsNone (past_of self.old.history) (past_of self.new.history) }
        ensures time { GoesOn (past_of self.old.history) (past_of self.new.history) }
        ensures synced { OnOk result (IfTold (Some (reads_of self.old.history)) (λ xs. OneSync (past_of self.old.history) (past_of self.new.history))) }
        ensures none { OnErr result (NoSync (past_of self.old.history) (past_of self.new.history)) }
        ensures cause { HasCause self.old.faults self.new.faults result }
        ensures unchanged { OnErr result (self.new.history ≡ self.old.history) }
    {
        match self.history.sync(self.alloc) {
            Ok(()) => Ok(()),
            Err(_) => {
                self.faults = self.faults.saturating_add(1);
                Err(Failed)
            }
        }
    }
}
