#![tactic(auto, using(crate::proofs::HistoryLemmas::synced_by_now))]

ghost use Rattle.std.specs.Prelude.{◌≡◌, ◌+◌, ◌≤◌, ◌↔◌, Some, [], length, take, drop, IsTrue, IsErr, IfOk, OnOk, OnErr};
ghost use Rattle.st_io.specs.Past.{HasCause, Images, GoesOn, NoSync, OneSync, AddsNone, Follow, Only};
ghost use Rattle.st_io.specs.Histories.{crashed, reads_of, past_of, reads_is_image, with_step, with_write, Fails, FailsNext, CountsCall, IfTold, Turns, Holds, Torn};
ghost use Rattle.st_io.specs.declared.history.Step.TheVariants.{Synced};

use crate::disk::Disk;
use crate::history::{History, Pick};
use crate::streams::Failed;
use st_base::{Bytes, List, WantOfMemory};
use std::alloc::Global;
use std::marker::Model;

/// A disk in memory that fails at listed calls and from some call on, and gives the images that a
/// stop may leave.
#[derive(Drop)]
pub struct ScriptDisk {
    alloc: Global,
    history: History,
    failing: List<u64>,
    last: u64,
    calls: u64,
    faults: u64,
}

impl Model for ScriptDisk {
    ghost use Rattle.st_io.specs.Histories.{DiskScript};

    ghost Value = { DiskScript };

    ghost view = { λ s. record { history = s.history; failing = s.failing; last = s.last; calls = s.calls; faults = s.faults } };
}

fn is_failing(failing: &[u64], last: u64, call: u64) -> bool
    ensures { IsTrue result ↔ Fails failing.now last call }
{
    call > last || failing.contains(&call)
}

impl ScriptDisk {
    /// Calls of the disk are numbered from 1, and the numbers stay at `u64::MAX`. The listed calls
    /// fail, and so does every call with a number greater than `last`. A write or a sync that can't
    /// grow fails too. It allocates nothing.
    pub fn new(alloc: Global, image: Bytes, failing: List<u64>, last: u64) -> Self
        ensures { result ≡ record { history = record { first = image; steps = [] }; failing = failing; last = last; calls = 0; faults = 0 } }
    {
        ScriptDisk {
            alloc,
            history: History::new(alloc, image),
            failing,
            last,
            calls: 0,
            faults: 0,
        }
    }

    /// A present image: each written byte that no successful sync has made durable has the value
    /// that the pick chooses. It is as long as the contents.
    pub fn crash(&self, alloc: Global, pick: Pick) -> Result<Bytes, WantOfMemory>
        ensures bytes { IfOk result (λ image. image ≡ crashed pick self.now.history.first self.now.history.steps) }
        ensures image { IfOk result (Images (⟦<ScriptDisk as Disk>⟧.past self.now)) }
        ensures newest { pick ≡ Pick.New → IfOk result (λ image. ⟦<ScriptDisk as Disk>⟧.reads self.now ≡ Some image) }
    {
        self.history.crash(alloc, pick)
    }
}

impl Disk for ScriptDisk {
    ghost reads = { λ s. Some (reads_of s.history) };

    ghost past = { λ s. past_of s.history };

    ghost faults = { λ s. s.faults };

    ghost is_image = { λ s. reads_is_image s.history };

    fn length(&mut self) -> Result<u64, Failed>
        ensures length { IfOk result (λ n. IfTold (Some (reads_of self.old.history)) (λ xs. n ≡ length xs)) }
        ensures reads { Some (reads_of self.new.history) ≡ Some (reads_of self.old.history) }
        ensures images { AddsNone (past_of self.old.history) (past_of self.new.history) }
        ensures time { GoesOn (past_of self.old.history) (past_of self.new.history) }
        ensures syncs { NoSync (past_of self.old.history) (past_of self.new.history) }
        ensures cause { HasCause self.old.faults self.new.faults result }
        ensures unchanged { self.new.history ≡ self.old.history }
        ensures listed { IsErr result ↔ FailsNext self.old }
        ensures script { CountsCall self.old self.new }
    {
        self.calls = self.calls.saturating_add(1);
        if is_failing(self.failing.as_slice(), self.last, self.calls) {
            self.faults = self.faults.saturating_add(1);
            return Err(Failed);
        }
        Ok(self.history.bytes().as_slice().len() as u64)
    }

    fn read_at(&mut self, at: u64, into: &mut [u8]) -> Result<(), Failed>
        requires { IfTold (Some (reads_of self.old.history)) (λ xs. at + length into.old ≤ length xs) }
        ensures bytes { OnOk result (IfTold (Some (reads_of self.old.history)) (λ xs. into.new ≡ take (length into.old) (drop at xs))) }
        ensures room { length into.new ≡ length into.old }
        ensures reads { Some (reads_of self.new.history) ≡ Some (reads_of self.old.history) }
        ensures images { AddsNone (past_of self.old.history) (past_of self.new.history) }
        ensures time { GoesOn (past_of self.old.history) (past_of self.new.history) }
        ensures syncs { NoSync (past_of self.old.history) (past_of self.new.history) }
        ensures cause { HasCause self.old.faults self.new.faults result }
        ensures unchanged { self.new.history ≡ self.old.history }
        ensures listed { IsErr result ↔ FailsNext self.old }
        ensures script { CountsCall self.old self.new }
    {
        self.calls = self.calls.saturating_add(1);
        if is_failing(self.failing.as_slice(), self.last, self.calls) {
            self.faults = self.faults.saturating_add(1);
            return Err(Failed);
        }
        let at = at as usize;
        let bytes = self.history.bytes().as_slice();
        into.copy_from_slice(&bytes[at..at + into.len()]);
        Ok(())
    }

    fn write_at(&mut self, at: u64, from: &[u8]) -> Result<(), Failed>
        requires { IfTold (Some (reads_of self.old.history)) (λ xs. at ≤ length xs) }
        ensures written { OnOk result (Turns (Some (reads_of self.old.history)) (Some (reads_of self.new.history)) (Holds at from.now)) }
        ensures torn { OnErr result (Turns (Some (reads_of self.old.history)) (Some (reads_of self.new.history)) (Torn at (length from.now))) }
        ensures images { Follow (Torn at (length from.now)) (past_of self.old.history) (past_of self.new.history) }
        ensures time { GoesOn (past_of self.old.history) (past_of self.new.history) }
        ensures syncs { NoSync (past_of self.old.history) (past_of self.new.history) }
        ensures cause { HasCause self.old.faults self.new.faults result }
        ensures unchanged { OnErr result (self.new.history ≡ self.old.history) }
        ensures more { OnOk result (self.new.history ≡ with_write at from.now self.old.history) }
        ensures listed { FailsNext self.old → IsErr result }
        ensures script { CountsCall self.old self.new }
    {
        self.calls = self.calls.saturating_add(1);
        if is_failing(self.failing.as_slice(), self.last, self.calls) {
            self.faults = self.faults.saturating_add(1);
            return Err(Failed);
        }
        match self.history.write(self.alloc, at as usize, from) {
            Ok(()) => Ok(()),
            Err(_) => {
                self.faults = self.faults.saturating_add(1);
                Err(Failed)
            }
        }
    }

    fn sync(&mut self) -> Result<(), Failed>
        ensures durable { OnOk result (IfTold (Some (reads_of self.old.history)) (Only (past_of self.new.history))) }
        ensures reads { Some (reads_of self.new.history) ≡ Some (reads_of self.old.history) }
        ensures images { AddsNone (past_of self.old.history) (past_of self.new.history) }
        ensures time { GoesOn (past_of self.old.history) (past_of self.new.history) }
        ensures synced { OnOk result (IfTold (Some (reads_of self.old.history)) (λ xs. OneSync (past_of self.old.history) (past_of self.new.history))) }
        ensures none { OnErr result (NoSync (past_of self.old.history) (past_of self.new.history)) }
        ensures cause { HasCause self.old.faults self.new.faults result }
        ensures unchanged { OnErr result (self.new.history ≡ self.old.history) }
        ensures more { OnOk result (self.new.history ≡ with_step Synced self.old.history) }
        ensures listed { FailsNext self.old → IsErr result }
        ensures script { CountsCall self.old self.new }
    {
        self.calls = self.calls.saturating_add(1);
        if is_failing(self.failing.as_slice(), self.last, self.calls) {
            self.faults = self.faults.saturating_add(1);
            return Err(Failed);
        }
        match self.history.sync(self.alloc) {
            Ok(()) => Ok(()),
            Err(_) => {
                self.faults = self.faults.saturating_add(1);
                Err(Failed)
            }
        }
    }
}
