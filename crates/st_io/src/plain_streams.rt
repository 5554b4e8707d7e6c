ghost use Rattle.std.specs.Prelude.{◌≡◌, ◌≤◌, Some, length, drop, [], false, ◌++◌, take, min};

use crate::streams::{Failed, Sink, Source};
use st_base::Bytes;
use std::alloc::Global;

/// Bytes in memory as a source. It returns as many as fit, and never fails.
#[derive(Drop)]
pub struct PlainSource {
    bytes: Bytes,
    at: usize,
    ghost within: { at ≤ length bytes },
}

impl PlainSource {
    /// A source of these bytes.
    pub fn new(bytes: Bytes) -> Self
        ensures { ⟦<PlainSource as Source>⟧.left result ≡ Some bytes }
    {
        PlainSource { bytes, at: 0 }
    }
}

impl Source for PlainSource {
    ghost left = { λ s. Some (drop s.at s.bytes) };

    ghost faults = { λ _. 0 };

    fn read(&mut self, into: &mut [u8]) -> Result<usize, Failed> {
        let bytes = self.bytes.as_slice();
        let count = copy_front(&bytes[self.at..], into);
        self.at += count;
        Ok(count)
    }
}

/// A sink in memory. It accepts everything, and fails only if it can't grow.
#[derive(Drop)]
pub struct PlainSink {
    alloc: Global,
    bytes: Bytes,
    finished: bool,
    faults: u64,
}

impl PlainSink {
    /// Nothing is written, and it isn't finished.
    pub fn new(alloc: Global) -> Self
        ensures written { ⟦<PlainSink as Sink>⟧.written result ≡ Some [] }
        ensures finished { ⟦<PlainSink as Sink>⟧.is_finished result ≡ false }
        ensures faults { ⟦<PlainSink as Sink>⟧.faults result ≡ 0 }
    {
        PlainSink {
            alloc,
            bytes: Bytes::new(alloc),
            finished: false,
            faults: 0,
        }
    }

    /// All written bytes.
    pub fn written(&self) -> &Bytes
        ensures { ⟦<PlainSink as Sink>⟧.written self.now ≡ Some result.now }
    {
        &self.bytes
    }
}

impl Sink for PlainSink {
    ghost written = { λ s. Some s.bytes };

    ghost is_finished = { λ s. s.finished };

    ghost faults = { λ s. s.faults };

    fn write(&mut self, from: &[u8]) -> Result<usize, Failed> {
        if self.bytes.push_all(self.alloc, from).is_err() {
            self.faults = self.faults.saturating_add(1);
            return Err(Failed);
        }
        if !from.is_empty() {
            self.finished = false;
        }
        Ok(from.len())
    }

    fn finish(&mut self) -> Result<(), Failed> {
        self.finished = true;
        Ok(())
    }
}

// Copies as much as fits, and returns how much that is.
pub fn copy_front(from: &[u8], into: &mut [u8]) -> usize
    ensures count { result ≡ min (length from.now) (length into.old) }
    ensures front { from.now ≡ take result into.new ++ drop result from.now }
{
    let count = from.len().min(into.len());
    into[..count].copy_from_slice(&from[..count]);
    count
}
