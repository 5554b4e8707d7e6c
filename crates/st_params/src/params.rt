ghost use Rattle.std.specs.Prelude.{◌≡◌, ◌≤◌};
ghost use Rattle.st_params.specs.ParamsValue.{params_of};

use st_base::{Copied, WantOfMemory};
use std::alloc::Global;
use std::marker::Model;

/// The limits of one version, 1 or 2. Only a `Schedule` makes them. Contracts see the record of all
/// numbers.
#[derive(Clone, Copy, Debug, PartialEq, Eq)]
pub struct Params {
    version: u8,
}

impl Model for Params {
    ghost use Rattle.std.specs.Prelude.{◌≤◌};
    ghost use Rattle.st_params.specs.ParamsValue.{ParamsValue, params_of};

    ghost Value = { ParamsValue };

    ghost view = { λ p. params_of p.version };

    ghost invariant = { λ p. (1 ≤ p.version) × (p.version ≤ 2) };

    ghost inverse = { λ l. record { version = l.version } };
}

impl Params {
    pub(crate) fn of_version(version: u8) -> Params
        requires first { 1 ≤ version }
        requires last { version ≤ 2 }
        ensures { result ≡ params_of version }
    {
        Params { version }
    }

    /// The version, 1 or 2.
    pub fn version(&self) -> u8
        ensures value { result ≡ self.now.version }
        ensures first { 1 ≤ result }
        ensures last { result ≤ 2 }
        ensures limits { self.now ≡ params_of result }
    {
        self.version
    }

    /// The largest number of operations that a batch may declare.
    pub fn max_operations(&self) -> u32
        ensures { result ≡ self.now.max_operations }
    {
        if self.version == 1 { 1_000 } else { 5_000 }
    }

    /// The largest size of a core or provisional index file, in bytes.
    pub fn max_index(&self) -> usize
        ensures { result ≡ self.now.max_index }
    {
        let _version = self.version;
        1_000_000
    }

    /// The largest size of a core or provisional proof file, in bytes.
    pub fn max_proofs(&self) -> usize
        ensures { result ≡ self.now.max_proofs }
    {
        let _version = self.version;
        16_000_000
    }

    /// The largest size of a chunk file, in bytes.
    pub fn max_chunk(&self) -> usize
        ensures { result ≡ self.now.max_chunk }
    {
        let _version = self.version;
        10_000_000
    }

    /// The largest size of a delta's canonical text, in bytes.
    pub fn max_delta(&self) -> u64
        ensures { result ≡ self.now.max_delta }
    {
        if self.version == 1 { 1_000 } else { 2_000 }
    }

    /// The largest size of a signed text, in bytes.
    pub fn max_signed(&self) -> usize
        ensures { result ≡ self.now.max_signed }
    {
        let _version = self.version;
        13_000
    }

    /// The largest size of a writer's lock id, in bytes.
    pub fn max_lock_id(&self) -> usize
        ensures { result ≡ self.now.max_lock_id }
    {
        let _version = self.version;
        200
    }

    /// The largest size of a document's canonical text, in bytes.
    pub fn max_document(&self) -> u64
        ensures { result ≡ self.now.max_document }
    {
        let _version = self.version;
        16_384
    }

    /// The largest nesting depth of a document.
    pub fn max_depth(&self) -> u64
        ensures { result ≡ self.now.max_depth }
    {
        let _version = self.version;
        32
    }
}

impl Copied for Params {
    fn copy(&self, _alloc: Global) -> Result<Params, WantOfMemory> {
        Ok(*self)
    }
}
