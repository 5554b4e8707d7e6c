ghost use Rattle.std.specs.Io.{ReadsAtMost, WritesAtMost};
ghost use Rattle.std.specs.Io.KnownBytes.{ReadConsumes, WriteAppends, Keeps};
ghost use Rattle.std.specs.Prelude.{ℕ, List, ◌≡◌, ◌<◌, Bool, true, length, IfOk, OnOk, OnErr};
ghost use Rattle.std.specs.declared.option.Option.{Option};
ghost use Rattle.st_io.specs.Past.{HasCause, WriteUnfinishes};

use std::error::Error;
use std::fmt;

/// A giver of bytes.
pub trait Source {
    /// The remaining bytes, in order, if the implementation reveals them.
    ghost left: { Self → Option (List ℕ) };

    /// How often the source has failed. It never falls, and stays at `u64::MAX` after it gets
    /// there.
    ghost faults: { Self → ℕ };

    /// Moves a prefix of the remaining bytes to the front of `into`, and returns its length.
    ///
    /// For a nonempty `into` that is 0 if and only if no bytes remain. The result is `Failed` only
    /// if the count of faults rose in this call, and then the remaining bytes are unchanged.
    fn read(&mut self, into: &mut [u8]) -> Result<usize, Failed>
        ensures few { ReadsAtMost result into.new }
        ensures bytes { ReadConsumes (left self.old) (left self.new) result into.new }
        ensures cause { HasCause (faults self.old) (faults self.new) result };
}

/// A receiver of bytes.
pub trait Sink {
    /// The written bytes, in order, if the implementation reveals them.
    ghost written: { Self → Option (List ℕ) };

    /// The written bytes are complete: `finish` has returned Ok, and nothing was written since.
    ghost is_finished: { Self → Bool };

    /// How often the sink has failed. It never falls, and stays at `u64::MAX` after it gets there.
    ghost faults: { Self → ℕ };

    /// Appends a prefix of `from`, and returns its length: at least one if `from` is not empty.
    ///
    /// The result is `Failed` only if the count of faults rose in this call, and then all else is
    /// unchanged.
    fn write(&mut self, from: &[u8]) -> Result<usize, Failed>
        ensures few { WritesAtMost result from.now }
        ensures takes { 0 < length from.now → IfOk result (λ n. 0 < n) }
        ensures bytes { WriteAppends (written self.old) (written self.new) result from.now }
        ensures finished { WriteUnfinishes (is_finished self.old) (is_finished self.new) result }
        ensures cause { HasCause (faults self.old) (faults self.new) result };

    /// Ends the written bytes, and appends nothing.
    ///
    /// The result is `Failed` only if the count of faults rose in this call, and then all else is
    /// unchanged.
    fn finish(&mut self) -> Result<(), Failed>
        ensures bytes { Keeps (written self.old) (written self.new) }
        ensures ok { OnOk result (is_finished self.new ≡ true) }
        ensures err { OnErr result (is_finished self.new ≡ is_finished self.old) }
        ensures cause { HasCause (faults self.old) (faults self.new) result };
}

/// A device failed in this call, and counted it.
#[derive(Clone, Copy, Debug, PartialEq, Eq)]
pub struct Failed;

impl fmt::Display for Failed {
    fn fmt<W: fmt::Write>(&self, f: &mut fmt::Formatter<W>) -> fmt::Result {
        write!(f, "device failed")
    }
}

impl Error for Failed {}
