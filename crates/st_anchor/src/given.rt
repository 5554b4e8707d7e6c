ghost use Rattle.std.specs.Prelude.{◌≡◌, IfOk, drop, slice_get, ◌++◌, OnOk, map, option_map};
ghost use Rattle.st_ops.specs.Operation.{creating, plain_operation, plain_proof};
ghost use Rattle.st_anchor.specs.Gives.{creates_given, deactivates_given, deltas_below, operations_below, plain_given, recovers_given, signed_given, updates_below, with_suffix};
ghost use Rattle.st_anchor.specs.inside.Coming.{made};

use crate::branches::{CoreBranch, OpenedCore, Proofs, ProvisionalBranch};
use crate::part::Part;
use st_base::{Copied, List, Shared, WantOfMemory};
use st_canon::PackedJson;
use st_hash::Hash;
use st_indexfiles::{CoreIndex, SuffixData, Target, suffix_of};
use st_jws::Signed;
use st_ops::Operation;
use std::alloc::Global;

/// An operation of an entry, and the suffix of its identifier.
#[derive(Drop)]
pub struct Given {
    pub suffix: Hash,
    pub operation: Operation,
}

impl Copied for Given {
    fn copy(&self, alloc: Global) -> Result<Given, WantOfMemory> {
        let operation = self.operation.copy(alloc)?;
        Ok(Given {
            suffix: self.suffix,
            operation,
        })
    }
}

/// The deltas of a chunk file. They are stored once, in compact form, and shared with the
/// operations that are given.
pub type Deltas = List<PackedJson>;

/// The delta at this place, if there is one.
pub fn delta_at(
    alloc: Global,
    deltas: &[PackedJson],
    at: usize,
) -> Result<Option<PackedJson>, WantOfMemory>
    ensures { IfOk result (λ delta. delta ≡ slice_get deltas.now at) }
{
    match deltas.get(at) {
        Some(delta) => Ok(Some(delta.copy(alloc)?)),
        None => Ok(None),
    }
}

/// The deltas from this place on.
pub fn deltas_from(deltas: &[PackedJson], at: usize) -> &[PackedJson]
    ensures { result.now ≡ drop at deltas.now }
{
    if at < deltas.len() {
        &deltas[at..]
    } else {
        &[]
    }
}

// The kinds of signed operations.
#[derive(Clone, Copy)]
enum Kind {
    Update,
    Recover,
    Deactivate,
}

/// The operations of a core index, with the files below it.
pub fn give_below(alloc: Global, branch: &CoreBranch) -> Result<List<Given>, WantOfMemory>
    ensures { IfOk result (λ list. map plain_given list ≡ map with_suffix (operations_below branch.now)) }
{
    let deltas = deltas_below(&branch.provisional);
    let of_recovers = deltas_from(deltas, branch.says.creates.len());
    let of_updates = deltas_from(of_recovers, branch.says.recovers.len());
    let mut list = List::new(alloc);
    give_creates(alloc, branch.says.creates.as_slice(), deltas, &mut list)?;
    give_proved(alloc, &branch.says, &branch.proofs, of_recovers, &mut list)?;
    give_updates(alloc, &branch.provisional, of_updates, &mut list)?;
    Ok(list)
}

// The deltas of the chunk file, or none if it wasn't read.
fn deltas_below(provisional: &Part<ProvisionalBranch>) -> &[PackedJson]
    ensures { result.now ≡ deltas_below provisional.now }
{
    match provisional {
        Part::Is(branch) => match &branch.chunk {
            Part::Is(deltas) => deltas.as_slice(),
            _ => &[],
        },
        _ => &[],
    }
}

fn give_creates(
    alloc: Global,
    creates: &[SuffixData],
    deltas: &[PackedJson],
    list: &mut List<Given>,
) -> Result<(), WantOfMemory>
    ensures { OnOk result (map plain_given list.new ≡
        map plain_given list.old ++ map with_suffix (creates_given creates.now deltas.now)) }
{
    'creates: for (at, create) in creates.iter().enumerate() {
        let delta = delta_at(alloc, deltas, at)?;
        list.push(alloc, create_of(alloc, create, delta)?)?;
    }
    Ok(())
}

fn create_of(
    alloc: Global,
    create: &SuffixData,
    delta: Option<PackedJson>,
) -> Result<Given, WantOfMemory>
    ensures { IfOk result (λ given. plain_given given ≡ with_suffix (creating create.now delta)) }
{
    let suffix = suffix_of(alloc, create)?;
    Ok(Given {
        suffix,
        operation: Operation::Create {
            suffix_data: *create,
            delta,
        },
    })
}

// The recovers and the deactivates, if the core proof file was read.
fn give_proved(
    alloc: Global,
    core: &CoreIndex,
    proofs: &Part<OpenedCore>,
    deltas: &[PackedJson],
    list: &mut List<Given>,
) -> Result<(), WantOfMemory>
    ensures { OnOk result (map plain_given list.new ≡ map plain_given list.old
        ++ map with_suffix (recovers_given core.now deltas.now proofs.now)
        ++ map with_suffix (deactivates_given core.now proofs.now)) }
{
    if let Part::Is(proofs) = proofs {
        let recovers = core.recovers.as_slice();
        give_signed(
            alloc,
            Kind::Recover,
            recovers,
            &proofs.recovers,
            deltas,
            list,
        )?;
        let deactivates = core.deactivates.as_slice();
        give_signed(
            alloc,
            Kind::Deactivate,
            deactivates,
            &proofs.deactivates,
            &[],
            list,
        )?;
    }
    Ok(())
}

// The updates, if the provisional index file and its proof file were read.
fn give_updates(
    alloc: Global,
    provisional: &Part<ProvisionalBranch>,
    deltas: &[PackedJson],
    list: &mut List<Given>,
) -> Result<(), WantOfMemory>
    ensures { OnOk result (map plain_given list.new ≡ map plain_given list.old
        ++ map with_suffix (updates_below deltas.now provisional.now)) }
{
    match provisional {
        Part::Is(branch) => match &branch.proofs {
            Part::Is(proofs) => {
                let updates = branch.says.updates.as_slice();
                give_signed(alloc, Kind::Update, updates, proofs, deltas, list)
            }
            _ => Ok(()),
        },
        _ => Ok(()),
    }
}

// Operations of one kind, each with the proof and the delta at its place.
fn give_signed(
    alloc: Global,
    kind: Kind,
    targets: &[Target],
    proofs: &Proofs,
    deltas: &[PackedJson],
    list: &mut List<Given>,
) -> Result<(), WantOfMemory>
    ensures { OnOk result (map plain_given list.new ≡ map plain_given list.old
        ++ map with_suffix (signed_given (made kind) targets.now proofs.now deltas.now)) }
{
    'targets: for (at, target) in targets.iter().enumerate() {
        let proof = proofs.at(alloc, at)?;
        let delta = delta_at(alloc, deltas, at)?;
        list.push(alloc, signed_of(kind, target, proof, delta))?;
    }
    Ok(())
}

fn signed_of(
    kind: Kind,
    target: &Target,
    proof: Option<Shared<Signed>>,
    delta: Option<PackedJson>,
) -> Given
    ensures { plain_given result ≡ with_suffix (made kind target.now (option_map plain_proof proof) delta) }
{
    let suffix = target.suffix;
    Given {
        suffix,
        operation: operation_of(kind, suffix, target.reveal, proof, delta),
    }
}

fn operation_of(
    kind: Kind,
    suffix: Hash,
    reveal: Hash,
    proof: Option<Shared<Signed>>,
    delta: Option<PackedJson>,
) -> Operation
    ensures { plain_operation result ≡ made kind (record { suffix = suffix; reveal = reveal })
        (option_map plain_proof proof) delta }
{
    match kind {
        Kind::Update => Operation::Update {
            suffix,
            reveal,
            proof,
            delta,
        },
        Kind::Recover => Operation::Recover {
            suffix,
            reveal,
            proof,
            delta,
        },
        Kind::Deactivate => Operation::Deactivate {
            suffix,
            reveal,
            proof,
        },
    }
}
