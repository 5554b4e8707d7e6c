ghost use Rattle.std.specs.List.{filter_map};
ghost use Rattle.std.specs.Prelude.{◌≡◌, option_map, IfSome, take, IfOk, OnOk, ◌++◌, map, Option};
ghost use Rattle.std.specs.Str.{IsUtf8};
ghost use Rattle.st_ops.specs.Operation.{HasHashes, plain_operation, plain_proof, PlainOperation};
ghost use Rattle.st_ops.specs.Request.{delta_there};
ghost use Rattle.st_batch.specs.Groups.{signed_text_in, grouped};
ghost use Rattle.st_batch.specs.Queue.{operations_of};
ghost use Rattle.st_batch.specs.inside.Groups.{no_groups, plain_groups, with_operation};

use crate::queue::QueuedOperations;
use st_base::{Copied, KeptText, List, Shared, WantOfMemory};
use st_canon::PackedJson;
use st_hash::Hash;
use st_indexfiles::{SuffixData, Target};
use st_jws::Signed;
use st_ops::{Operation, know_hashes};
use std::alloc::Global;

/// The signed text of an operation that has a proof.
pub(crate) fn signed_text_in(operation: &Operation) -> Option<&KeptText>
    ensures { option_map (λ text. text.now) result ≡ signed_text_in (plain_operation operation.now) }
{
    match operation {
        Operation::Create { .. } => None,
        Operation::Update { proof, .. } => text_of(proof),
        Operation::Recover { proof, .. } => text_of(proof),
        Operation::Deactivate { proof, .. } => text_of(proof),
    }
}

fn text_of(proof: &Option<Shared<Signed>>) -> Option<&KeptText>
    ensures { option_map (λ text. text.now) result
        ≡ option_map (λ found. found.text) (option_map plain_proof proof.now) }
{
    match proof {
        Some(proof) => Some(&proof.get().text),
        None => None,
    }
}

/// The delta of an operation.
pub(crate) fn delta_in(operation: &Operation) -> Option<&PackedJson>
    ensures { option_map (λ delta. delta.now) result ≡ delta_there (plain_operation operation.now) }
{
    match operation {
        Operation::Create { delta, .. } => delta.as_ref(),
        Operation::Update { delta, .. } => delta.as_ref(),
        Operation::Recover { delta, .. } => delta.as_ref(),
        Operation::Deactivate { .. } => None,
    }
}

/// For proofs: the hashes of an operation satisfy the rules of hashes, and its signed text is
/// UTF-8. Nothing is done.
pub(crate) fn know_operation(operation: &Operation)
    ensures hashes { HasHashes (plain_operation operation.now) }
    ensures signed { IfSome (signed_text_in (plain_operation operation.now)) IsUtf8 }
{
    know_hashes(operation);
    if let Some(text) = signed_text_in(operation) {
        let _bytes = text.as_slice();
    }
}

/// Operations by kind, each kind in the order in which they were queued.
#[derive(Drop)]
pub(crate) struct Groups {
    pub creates: List<Operation>,
    pub recovers: List<Operation>,
    pub deactivates: List<Operation>,
    pub updates: List<Operation>,
}

impl Groups {
    /// No operations. It allocates nothing.
    fn new(alloc: Global) -> Groups
        ensures { plain_groups result ≡ no_groups }
    {
        Groups {
            creates: List::new(alloc),
            recovers: List::new(alloc),
            deactivates: List::new(alloc),
            updates: List::new(alloc),
        }
    }

    /// Puts an operation last of its kind.
    fn push(&mut self, alloc: Global, operation: Operation) -> Result<(), WantOfMemory>
        ensures { OnOk result (plain_groups self.new
            ≡ with_operation (plain_groups self.old) (plain_operation operation)) }
    {
        match &operation {
            Operation::Create { .. } => self.creates.push(alloc, operation),
            Operation::Recover { .. } => self.recovers.push(alloc, operation),
            Operation::Deactivate { .. } => self.deactivates.push(alloc, operation),
            Operation::Update { .. } => self.updates.push(alloc, operation),
        }
    }
}

/// The first `count` operations of entries, by kind. They share their proofs and deltas with these.
pub(crate) fn groups_of(
    alloc: Global,
    entries: &QueuedOperations,
    count: usize,
) -> Result<Groups, WantOfMemory>
    ensures { IfOk result (λ groups. plain_groups groups
        ≡ grouped (take count (operations_of entries.now.entries))) }
{
    let mut groups = Groups::new(alloc);
    'operations: for place in 0..count {
        let Some((_, operation)) = entries.get_index(place) else {
            return Ok(groups);
        };
        let operation = operation.copy(alloc)?;
        groups.push(alloc, operation)?;
    }
    Ok(groups)
}

/// A part of an operation that goes into a file.
pub(crate) trait Gathered: Drop {
    ghost of: { PlainOperation → Option Self };

    /// The part, if the operation has it.
    fn find(alloc: Global, operation: &Operation) -> Result<Option<Self>, WantOfMemory>
        ensures { IfOk result (λ found. found ≡ of (plain_operation operation.now)) };
}

/// The parts of these operations, in order.
pub(crate) fn parts_of<T: Gathered>(
    alloc: Global,
    operations: &[Operation],
) -> Result<List<T>, WantOfMemory>
    ensures { IfOk result (λ parts. parts ≡ filter_map T.of (map plain_operation operations.now)) }
{
    let mut parts = List::new(alloc);
    push_parts(alloc, &mut parts, operations)?;
    Ok(parts)
}

/// Appends the parts of these operations, in order.
pub(crate) fn push_parts<T: Gathered>(
    alloc: Global,
    parts: &mut List<T>,
    operations: &[Operation],
) -> Result<(), WantOfMemory>
    ensures { OnOk result (parts.new ≡ parts.old ++ filter_map T.of (map plain_operation operations.now)) }
{
    'operations: for operation in operations {
        if let Some(part) = T::find(alloc, operation)? {
            parts.push(alloc, part)?;
        }
    }
    Ok(())
}

impl Gathered for SuffixData {
    ghost use Rattle.st_batch.specs.Groups.{suffix_data_in};

    ghost of = { suffix_data_in };

    /// Those of a create.
    fn find(_alloc: Global, operation: &Operation) -> Result<Option<SuffixData>, WantOfMemory> {
        match operation {
            Operation::Create { suffix_data, .. } => Ok(Some(*suffix_data)),
            Operation::Update { .. } => Ok(None),
            Operation::Recover { .. } => Ok(None),
            Operation::Deactivate { .. } => Ok(None),
        }
    }
}

impl Gathered for Target {
    ghost use Rattle.st_batch.specs.Groups.{target_in};

    ghost of = { target_in };

    /// That of an operation of another kind.
    fn find(_alloc: Global, operation: &Operation) -> Result<Option<Target>, WantOfMemory> {
        match operation {
            Operation::Create { .. } => Ok(None),
            Operation::Update { suffix, reveal, .. } => Ok(Some(target(suffix, reveal))),
            Operation::Recover { suffix, reveal, .. } => Ok(Some(target(suffix, reveal))),
            Operation::Deactivate { suffix, reveal, .. } => Ok(Some(target(suffix, reveal))),
        }
    }
}

fn target(suffix: &Hash, reveal: &Hash) -> Target
    ensures { result ≡ record { suffix = suffix.now; reveal = reveal.now } }
{
    Target {
        suffix: *suffix,
        reveal: *reveal,
    }
}

impl Gathered for KeptText {
    ghost use Rattle.st_batch.specs.Groups.{signed_text_in};

    ghost of = { signed_text_in };

    /// The signed text.
    fn find(alloc: Global, operation: &Operation) -> Result<Option<KeptText>, WantOfMemory> {
        match signed_text_in(operation) {
            Some(text) => Ok(Some(text.copy(alloc)?)),
            None => Ok(None),
        }
    }
}

impl Gathered for PackedJson {
    ghost use Rattle.st_ops.specs.Request.{delta_there};

    ghost of = { delta_there };

    /// The delta.
    fn find(alloc: Global, operation: &Operation) -> Result<Option<PackedJson>, WantOfMemory> {
        match delta_in(operation) {
            Some(delta) => Ok(Some(delta.copy(alloc)?)),
            None => Ok(None),
        }
    }
}
