use std::alloc::{AllocError, AllocFailed};
use std::error::Error;
use std::fmt;

/// Out of memory. The value to be changed is as it was before the call.
#[derive(Clone, Copy, Debug, PartialEq, Eq)]
pub struct WantOfMemory;

impl fmt::Display for WantOfMemory {
    fn fmt<W: fmt::Write>(&self, f: &mut fmt::Formatter<W>) -> fmt::Result {
        write!(f, "out of memory")
    }
}

impl Error for WantOfMemory {}

impl From<AllocError> for WantOfMemory {
    fn from(_error: AllocError) -> WantOfMemory {
        WantOfMemory
    }
}

impl<T: Drop> From<AllocFailed<T>> for WantOfMemory {
    fn from(_error: AllocFailed<T>) -> WantOfMemory {
        WantOfMemory
    }
}

/// Why a file is not accepted.
#[derive(Clone, Copy, Debug, Drop, PartialEq, Eq)]
pub enum FileRefused<Rule> {
    /// The first rule that the file fails.
    Rejected(Rule),
    /// Out of memory.
    WantOfMemory,
}

impl<Rule> fmt::Display for FileRefused<Rule> {
    fn fmt<W: fmt::Write>(&self, f: &mut fmt::Formatter<W>) -> fmt::Result {
        match self {
            FileRefused::Rejected(_) => write!(f, "the file fails a rule"),
            FileRefused::WantOfMemory => write!(f, "out of memory"),
        }
    }
}

impl<Rule: fmt::Debug + Drop> Error for FileRefused<Rule> {}

impl<Rule> From<WantOfMemory> for FileRefused<Rule> {
    ghost use Rattle.std.specs.Prelude.{◌≡◌};
    ghost use Rattle.st_base.specs.declared.errors.FileRefused.TheVariants.{WantOfMemory};

    ghost from_gives = { λ _ refused. refused ≡ WantOfMemory };

    fn from(_want: WantOfMemory) -> FileRefused<Rule> {
        FileRefused::WantOfMemory
    }
}
