ghost use Rattle.std.specs.Prelude.{◌≡◌, Some, None};
ghost use Rattle.st_params.specs.ParamsValue.{params_at, newest_of};

use crate::params::Params;
use st_base::{Copied, WantOfMemory};
use std::alloc::Global;
use std::marker::Model;

/// The version at each height. Contracts see the height from which version 2 applies, if any.
#[derive(Clone, Copy, Debug, PartialEq, Eq)]
pub struct Schedule {
    second: Option<u32>,
}

impl Model for Schedule {
    ghost use Rattle.std.specs.Prelude.{Option, ℕ};

    ghost Value = { Option ℕ };

    ghost view = { λ s. s.second };

    ghost inverse = { λ height. record { second = height } };
}

impl Schedule {
    /// Version 1 at every height.
    pub fn new() -> Schedule
        ensures { result ≡ None }
    {
        Schedule { second: None }
    }

    /// Version 2 from this height on, and version 1 below.
    pub fn with_second(height: u32) -> Schedule
        ensures { result ≡ Some height }
    {
        Schedule {
            second: Some(height),
        }
    }

    /// The limits at this height.
    pub fn at(&self, height: u32) -> Params
        ensures { result ≡ params_at self.now height }
    {
        match self.second {
            Some(second) if second <= height => Params::of_version(2),
            _ => Params::of_version(1),
        }
    }

    /// The limits of the highest version.
    pub fn newest(&self) -> Params
        ensures { result ≡ newest_of self.now }
    {
        match self.second {
            Some(_) => Params::of_version(2),
            None => Params::of_version(1),
        }
    }
}

impl Copied for Schedule {
    fn copy(&self, _alloc: Global) -> Result<Schedule, WantOfMemory> {
        Ok(*self)
    }
}
