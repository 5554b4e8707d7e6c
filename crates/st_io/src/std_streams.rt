ghost use Rattle.std.specs.Io.{ReadsAtMost, WritesAtMost};
ghost use Rattle.std.specs.Prelude.{◌≡◌, None, false};

use crate::streams::{Failed, Sink, Source};
use std::io;
use std::io::{Read, Write};

/// Standard input as a source. The remaining bytes aren't revealed.
///
/// A read that a signal interrupts is tried again, and is not a fault.
#[derive(Drop)]
pub struct StdSource<'a, R> {
    rt: &'a R,
    faults: u64,
}

impl<'a, R: Input> StdSource<'a, R> {
    /// No fault yet.
    pub fn new(rt: &'a R) -> Self
        ensures { ⟦<StdSource<'a, R> as Source>⟧.faults result ≡ 0 }
    {
        StdSource { rt, faults: 0 }
    }
}

/// One read, tried again if a signal interrupts it before a byte is read.
fn read_some(rt: &impl Input, into: &mut [u8]) -> io::Result<usize>
    ensures { ReadsAtMost result into.new }
{
    let mut reader = rt.reader();
    'tries: for _ in 0..u64::MAX {
        match reader.read(into) {
            Ok(count) => return Ok(count),
            Err(error) if error.kind() == io::ErrorKind::Interrupted => {}
            Err(error) => return Err(error),
        }
    }
    Err(io::Error::from(io::ErrorKind::Interrupted))
}

impl<'a, R: Input> Source for StdSource<'a, R> {
    ghost left = { λ _. None };

    ghost faults = { λ s. s.faults };

    fn read(&mut self, into: &mut [u8]) -> Result<usize, Failed> {
        match read_some(self.rt, into) {
            Ok(count) => Ok(count),
            Err(_) => {
                self.faults = self.faults.saturating_add(1);
                Err(Failed)
            }
        }
    }
}

/// Standard output as a sink that flushes after each write. The written bytes aren't revealed.
///
/// A write that a signal interrupts is tried again, and is not a fault.
#[derive(Drop)]
pub struct StdSink<'a, R> {
    rt: &'a R,
    finished: bool,
    faults: u64,
}

impl<'a, R: Print> StdSink<'a, R> {
    /// Nothing is written, and it isn't finished.
    pub fn new(rt: &'a R) -> Self
        ensures finished { ⟦<StdSink<'a, R> as Sink>⟧.is_finished result ≡ false }
        ensures faults { ⟦<StdSink<'a, R> as Sink>⟧.faults result ≡ 0 }
    {
        StdSink {
            rt,
            finished: false,
            faults: 0,
        }
    }
}

/// One write, tried again if a signal interrupts it before a byte is written.
fn write_some(rt: &impl Print, from: &[u8]) -> io::Result<usize>
    ensures { WritesAtMost result from.now }
{
    let mut writer = io::writer(rt);
    'tries: for _ in 0..u64::MAX {
        match writer.write(from) {
            Ok(count) => return Ok(count),
            Err(error) if error.kind() == io::ErrorKind::Interrupted => {}
            Err(error) => return Err(error),
        }
    }
    Err(io::Error::from(io::ErrorKind::Interrupted))
}

fn write_and_flush(rt: &impl Print, from: &[u8]) -> io::Result<usize>
    ensures { WritesAtMost result from.now }
{
    let count = write_some(rt, from)?;
    io::writer(rt).flush()?;
    Ok(count)
}

impl<'a, R: Print> Sink for StdSink<'a, R> {
    ghost written = { λ _. None };

    ghost is_finished = { λ s. s.finished };

    ghost faults = { λ s. s.faults };

    fn write(&mut self, from: &[u8]) -> Result<usize, Failed> {
        match write_and_flush(self.rt, from) {
            // A device that accepts nothing of a nonempty piece has failed.
            Ok(count) if count > 0 || from.is_empty() => {
                if count > 0 {
                    self.finished = false;
                }
                Ok(count)
            }
            _ => {
                self.faults = self.faults.saturating_add(1);
                Err(Failed)
            }
        }
    }

    fn finish(&mut self) -> Result<(), Failed> {
        self.finished = true;
        Ok(())
    }
}
