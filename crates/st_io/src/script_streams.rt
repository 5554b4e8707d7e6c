ghost use Rattle.std.specs.Io.{ReadsAtMost, WritesAtMost};
ghost use Rattle.std.specs.Io.KnownBytes.{ReadConsumes, WriteAppends, Keeps};
ghost use Rattle.std.specs.Prelude.{◌≡◌, ◌≤◌, ◌<◌, ◌↔◌, Some, Contains, IsErr, IfOk, [], OnOk, OnErr, length, true, false};
ghost use Rattle.st_io.specs.Past.{HasCause, WriteUnfinishes};
ghost use Rattle.st_io.specs.Histories.{next_call};

use crate::plain_streams::copy_front;
use crate::streams::{Failed, Sink, Source};
use st_base::{Bytes, List};
use std::alloc::Global;
use std::marker::Model;

/// Bytes in memory as a source that returns small pieces and fails at listed calls.
#[derive(Drop)]
pub struct ScriptSource {
    bytes: Bytes,
    at: usize,
    piece: usize,
    failing: List<u64>,
    calls: u64,
    faults: u64,
}

impl Model for ScriptSource {
    ghost use Rattle.std.specs.Prelude.{◌≤◌, ◌<◌, length, drop};
    ghost use Rattle.st_io.specs.Histories.{SourceScript};

    ghost Value = { SourceScript };

    ghost view = { λ s. record { left = drop s.at s.bytes; piece = s.piece; failing = s.failing; calls = s.calls; faults = s.faults } };

    ghost invariant = { λ s. (s.at ≤ length s.bytes) × (0 < s.piece) };
}

impl ScriptSource {
    /// Returns at most `piece` bytes per call. Calls are numbered from 1, and the numbers stay at
    /// `u64::MAX`; the listed calls fail.
    pub fn new(bytes: Bytes, piece: usize, failing: List<u64>) -> Self
        requires { 0 < piece }
        ensures { result ≡ record { left = bytes; piece = piece; failing = failing; calls = 0; faults = 0 } }
    {
        ScriptSource {
            bytes,
            at: 0,
            piece,
            failing,
            calls: 0,
            faults: 0,
        }
    }
}

impl Source for ScriptSource {
    ghost left = { λ s. Some s.left };

    ghost faults = { λ s. s.faults };

    fn read(&mut self, into: &mut [u8]) -> Result<usize, Failed>
        ensures few { ReadsAtMost result into.new }
        ensures bytes { ReadConsumes (Some self.old.left) (Some self.new.left) result into.new }
        ensures cause { HasCause self.old.faults self.new.faults result }
        ensures piece { IfOk result (λ n. n ≤ self.old.piece) }
        ensures listed { IsErr result ↔ Contains self.old.failing (next_call self.old.calls) }
        ensures script { (self.new.calls ≡ next_call self.old.calls) × (self.new.failing ≡ self.old.failing) × (self.new.piece ≡ self.old.piece) }
    {
        self.calls = self.calls.saturating_add(1);
        if self.failing.as_slice().contains(&self.calls) {
            self.faults = self.faults.saturating_add(1);
            return Err(Failed);
        }
        let room = into.len().min(self.piece);
        let bytes = self.bytes.as_slice();
        let count = copy_front(&bytes[self.at..], &mut into[..room]);
        self.at += count;
        Ok(count)
    }
}

/// A sink in memory that takes small pieces and fails at listed calls.
#[derive(Drop)]
pub struct ScriptSink {
    alloc: Global,
    bytes: Bytes,
    piece: usize,
    failing: List<u64>,
    calls: u64,
    finished: bool,
    faults: u64,
}

impl Model for ScriptSink {
    ghost use Rattle.std.specs.Prelude.{◌<◌};
    ghost use Rattle.st_io.specs.Histories.{SinkScript};

    ghost Value = { SinkScript };

    ghost view = { λ s. record { written = s.bytes; piece = s.piece; failing = s.failing; calls = s.calls; finished = s.finished; faults = s.faults } };

    ghost invariant = { λ s. 0 < s.piece };
}

impl ScriptSink {
    /// Accepts at most `piece` bytes per call. Calls of `write` and `finish` are numbered from 1,
    /// and the numbers stay at `u64::MAX`; the listed calls fail. A write that can't grow fails
    /// too.
    pub fn new(alloc: Global, piece: usize, failing: List<u64>) -> Self
        requires { 0 < piece }
        ensures { result ≡ record { written = []; piece = piece; failing = failing; calls = 0; finished = false; faults = 0 } }
    {
        ScriptSink {
            alloc,
            bytes: Bytes::new(alloc),
            piece,
            failing,
            calls: 0,
            finished: false,
            faults: 0,
        }
    }

    /// All written bytes.
    pub fn written(&self) -> &Bytes
        ensures { result.now ≡ self.now.written }
    {
        &self.bytes
    }

    /// The number of calls of `write` and `finish`; it stays at `u64::MAX`.
    pub fn calls(&self) -> u64
        ensures { result ≡ self.now.calls }
    {
        self.calls
    }
}

impl Sink for ScriptSink {
    ghost written = { λ s. Some s.written };

    ghost is_finished = { λ s. s.finished };

    ghost faults = { λ s. s.faults };

    fn write(&mut self, from: &[u8]) -> Result<usize, Failed>
        ensures few { WritesAtMost result from.now }
        ensures takes { 0 < length from.now → IfOk result (λ n. 0 < n) }
        ensures bytes { WriteAppends (Some self.old.written) (Some self.new.written) result from.now }
        ensures finished { WriteUnfinishes self.old.finished self.new.finished result }
        ensures cause { HasCause self.old.faults self.new.faults result }
        ensures piece { IfOk result (λ n. n ≤ self.old.piece) }
        ensures listed { Contains self.old.failing (next_call self.old.calls) → IsErr result }
        ensures script { (self.new.calls ≡ next_call self.old.calls) × (self.new.failing ≡ self.old.failing) × (self.new.piece ≡ self.old.piece) }
    {
        self.calls = self.calls.saturating_add(1);
        let count = from.len().min(self.piece);
        if self.failing.as_slice().contains(&self.calls)
            || self.bytes.push_all(self.alloc, &from[..count]).is_err()
        {
            self.faults = self.faults.saturating_add(1);
            return Err(Failed);
        }
        if count > 0 {
            self.finished = false;
        }
        Ok(count)
    }

    fn finish(&mut self) -> Result<(), Failed>
        ensures bytes { Keeps (Some self.old.written) (Some self.new.written) }
        ensures ok { OnOk result (self.new.finished ≡ true) }
        ensures err { OnErr result (self.new.finished ≡ self.old.finished) }
        ensures cause { HasCause self.old.faults self.new.faults result }
        ensures listed { IsErr result ↔ Contains self.old.failing (next_call self.old.calls) }
        ensures script { (self.new.calls ≡ next_call self.old.calls) × (self.new.failing ≡ self.old.failing) × (self.new.piece ≡ self.old.piece) }
    {
        self.calls = self.calls.saturating_add(1);
        if self.failing.as_slice().contains(&self.calls) {
            self.faults = self.faults.saturating_add(1);
            return Err(Failed);
        }
        self.finished = true;
        Ok(())
    }
}
