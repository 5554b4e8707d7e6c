use st_base::{Copied, WantOfMemory};
use std::alloc::Global;

/// The role of a file in the ledger entry that it serves, in this order. One file may have several
/// roles, in one entry or in many.
#[derive(Clone, Copy, Debug, PartialEq, Eq, PartialOrd, Ord)]
pub enum Role {
    /// The core index file, which the anchor string names.
    Core,
    /// The core proof file, which the core index file names.
    CoreProof,
    /// The provisional index file, which the core index file names.
    Provisional,
    /// The provisional proof file, which the provisional index file names.
    ProvisionalProof,
    /// The chunk file, which the provisional index file names.
    Chunk,
}

impl Copied for Role {
    fn copy(&self, _alloc: Global) -> Result<Role, WantOfMemory> {
        Ok(*self)
    }
}
