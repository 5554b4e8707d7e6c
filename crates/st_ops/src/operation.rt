ghost use Rattle.std.specs.Prelude.{◌≡◌, IfOk};
ghost use Rattle.st_ops.specs.Operation.{plain_operation, suffix_of};

use st_base::{Copied, Shared, WantOfMemory};
use st_canon::PackedJson;
use st_hash::Hash;
use st_indexfiles::{SuffixData, suffix_of};
use st_jws::Signed;
use std::alloc::Global;

/// An operation on an identifier (after DIF Sidetree v1.0.0, "DID Operations"). The proof is the
/// operation's signed text, if that could be opened; the delta is the value given with the
/// operation, if any, of any kind.
#[derive(Drop)]
pub enum Operation {
    /// Creates an identifier, whose suffix is that of the suffix data.
    Create {
        suffix_data: SuffixData,
        delta: Option<PackedJson>,
    },
    /// Changes the document, under the update commitment that the reveal value meets.
    Update {
        suffix: Hash,
        reveal: Hash,
        proof: Option<Shared<Signed>>,
        delta: Option<PackedJson>,
    },
    /// Starts the document again from empty, under the recovery commitment that the reveal value
    /// meets.
    Recover {
        suffix: Hash,
        reveal: Hash,
        proof: Option<Shared<Signed>>,
        delta: Option<PackedJson>,
    },
    /// Ends the identifier, under the recovery commitment that the reveal value meets.
    Deactivate {
        suffix: Hash,
        reveal: Hash,
        proof: Option<Shared<Signed>>,
    },
}

impl Copied for Operation {
    /// An equal operation, which shares its proof and its delta with this one.
    fn copy(&self, alloc: Global) -> Result<Operation, WantOfMemory> {
        match self {
            Operation::Create { suffix_data, delta } => Ok(Operation::Create {
                suffix_data: *suffix_data,
                delta: copy_some(alloc, delta)?,
            }),
            Operation::Update {
                suffix,
                reveal,
                proof,
                delta,
            } => Ok(Operation::Update {
                suffix: *suffix,
                reveal: *reveal,
                proof: copy_some(alloc, proof)?,
                delta: copy_some(alloc, delta)?,
            }),
            Operation::Recover {
                suffix,
                reveal,
                proof,
                delta,
            } => Ok(Operation::Recover {
                suffix: *suffix,
                reveal: *reveal,
                proof: copy_some(alloc, proof)?,
                delta: copy_some(alloc, delta)?,
            }),
            Operation::Deactivate {
                suffix,
                reveal,
                proof,
            } => Ok(Operation::Deactivate {
                suffix: *suffix,
                reveal: *reveal,
                proof: copy_some(alloc, proof)?,
            }),
        }
    }
}

fn copy_some<T: Copied>(alloc: Global, there: &Option<T>) -> Result<Option<T>, WantOfMemory>
    ensures { IfOk result (λ copied. copied ≡ there.now) }
{
    match there {
        Some(value) => Ok(Some(value.copy(alloc)?)),
        None => Ok(None),
    }
}

/// The suffix of the operation's identifier: that of the suffix data of a create, and the named one
/// of any other operation.
pub fn suffix(alloc: Global, operation: &Operation) -> Result<Hash, WantOfMemory>
    ensures { IfOk result (λ suffix. suffix ≡ suffix_of (plain_operation operation.now)) }
{
    match operation {
        Operation::Create { suffix_data, .. } => Ok(suffix_of(alloc, suffix_data)?),
        Operation::Update { suffix, .. } => Ok(*suffix),
        Operation::Recover { suffix, .. } => Ok(*suffix),
        Operation::Deactivate { suffix, .. } => Ok(*suffix),
    }
}
