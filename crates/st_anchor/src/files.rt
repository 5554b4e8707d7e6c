ghost use Rattle.std.specs.Prelude.{◌≡◌, ◌+◌, ◌≤◌, IfOk, OnOk, length};
ghost use Rattle.st_base.specs.Work.{one_file};
ghost use Rattle.st_indexfiles.specs.ProvisionalIndex.{core_count};
ghost use Rattle.st_anchor.specs.BoundValue.{chunk_in, core_in, core_proof_in, provisional_in, provisional_proof_in};
ghost use Rattle.st_anchor.specs.SignedTexts.{opened_of};
ghost use Rattle.st_anchor.specs.States.{core_proof_count, count_read, WorkedAtMost, one_file_with};
ghost use Rattle.st_anchor.specs.inside.Coming.{more_proofs};

use crate::branches::{Context, CoreBranch, OpenedCore, Proofs, ProvisionalBranch};
use crate::given::Deltas;
use crate::part::{Part, Rule};
use st_base::{Bytes, FileRefused, Shared, WantOfMemory, Work};
use st_datafiles::{CoreProofs, read_chunk, read_core_proof, read_provisional_proof};
use st_indexfiles::{CoreIndex, ProvisionalIndex, read_core, read_provisional};
use std::alloc::Global;

/// The core role's part from the bytes of its file.
pub fn core_part(
    alloc: Global,
    bytes: &[u8],
    context: &Context,
    work: &mut Work,
) -> Result<Part<CoreBranch>, WantOfMemory>
    ensures value { IfOk result (λ part. part ≡ core_in context.now bytes.now) }
    ensures counted { work.new ≡ one_file work.old }
{
    match read_core(alloc, bytes, context.count, &context.params, work) {
        Ok(index) => Ok(Part::Is(CoreBranch::new(index))),
        Err(FileRefused::Rejected(rule)) => Ok(Part::Rejected(Rule::Core(rule))),
        Err(FileRefused::WantOfMemory) => Err(WantOfMemory),
    }
}

/// The core proof role's part from its file, given a core index.
pub fn core_proof_part(
    alloc: Global,
    file: &Shared<Bytes>,
    core: &CoreIndex,
    context: &Context,
    work: &mut Work,
) -> Result<Part<OpenedCore>, WantOfMemory>
    ensures value { IfOk result (λ part. part ≡ core_proof_in context.now core.now file.now) }
    ensures work { OnOk result (work.new ≡ one_file_with
        (count_read core_proof_count (core_proof_in context.now core.now file.now)) work.old) }
    ensures few { WorkedAtMost 1 (count_read core_proof_count
        (core_proof_in context.now core.now file.now)) work.old work.new }
{
    let recovers = core.recovers.len();
    let deactivates = core.deactivates.len();
    match read_core_proof(alloc, file, recovers, deactivates, &context.params, work) {
        Ok(proofs) => {
            let opened = open_core(alloc, &proofs, context.params.max_signed(), work)?;
            Ok(Part::Is(opened))
        }
        Err(FileRefused::Rejected(rule)) => Ok(Part::Rejected(Rule::Proofs(rule))),
        Err(FileRefused::WantOfMemory) => Err(WantOfMemory),
    }
}

fn open_core(
    alloc: Global,
    proofs: &CoreProofs,
    limit: usize,
    work: &mut Work,
) -> Result<OpenedCore, WantOfMemory>
    ensures value { IfOk result (λ opened. opened ≡ opened_of limit proofs.now) }
    ensures work { OnOk result (work.new ≡ more_proofs
        (length proofs.now.recovers + length proofs.now.deactivates) work.old) }
    ensures few { WorkedAtMost 0 (length proofs.now.recovers + length proofs.now.deactivates) work.old work.new }
{
    let recovers = Proofs::open(alloc, proofs.recovers.as_slice(), limit, work)?;
    let deactivates = Proofs::open(alloc, proofs.deactivates.as_slice(), limit, work)?;
    Ok(OpenedCore {
        recovers,
        deactivates,
    })
}

/// The provisional role's part from the bytes of its file, given a core index.
pub fn provisional_part(
    alloc: Global,
    bytes: &[u8],
    core: &CoreIndex,
    context: &Context,
    work: &mut Work,
) -> Result<Part<ProvisionalBranch>, WantOfMemory>
    ensures value { IfOk result (λ part. part ≡ provisional_in context.now core.now bytes.now) }
    ensures counted { work.new ≡ one_file work.old }
{
    match read_provisional(alloc, bytes, core, context.count, &context.params, work) {
        Ok(index) => Ok(Part::Is(ProvisionalBranch::new(index))),
        Err(FileRefused::Rejected(rule)) => Ok(Part::Rejected(Rule::Provisional(rule))),
        Err(FileRefused::WantOfMemory) => Err(WantOfMemory),
    }
}

/// The provisional proof role's part from its file, given a provisional index.
pub fn provisional_proof_part(
    alloc: Global,
    file: &Shared<Bytes>,
    provisional: &ProvisionalIndex,
    context: &Context,
    work: &mut Work,
) -> Result<Part<Proofs>, WantOfMemory>
    ensures value { IfOk result (λ part. part ≡ provisional_proof_in context.now provisional.now file.now) }
    ensures work { OnOk result (work.new ≡ one_file_with
        (count_read length (provisional_proof_in context.now provisional.now file.now)) work.old) }
    ensures few { WorkedAtMost 1 (count_read length
        (provisional_proof_in context.now provisional.now file.now)) work.old work.new }
{
    match read_provisional_proof(
        alloc,
        file,
        provisional.updates.len(),
        &context.params,
        work,
    ) {
        Ok(texts) => {
            let proofs = Proofs::open(alloc, texts.as_slice(), context.params.max_signed(), work)?;
            Ok(Part::Is(proofs))
        }
        Err(FileRefused::Rejected(rule)) => Ok(Part::Rejected(Rule::Proofs(rule))),
        Err(FileRefused::WantOfMemory) => Err(WantOfMemory),
    }
}

/// The chunk role's part from its file, given both index files.
pub fn chunk_part(
    alloc: Global,
    file: &Shared<Bytes>,
    core: &CoreIndex,
    provisional: &ProvisionalIndex,
    context: &Context,
    work: &mut Work,
) -> Result<Part<Deltas>, WantOfMemory>
    requires { core_count core.now + length provisional.now.updates ≤ context.now.count }
    ensures value { IfOk result (λ part. part ≡ chunk_in context.now core.now provisional.now file.now) }
    ensures counted { work.new ≡ one_file work.old }
{
    // Their sum is at most the declared count, so it fits; the prover sees that here.
    let _count = context.count;
    let wanted = core.creates.len() + core.recovers.len() + provisional.updates.len();
    match read_chunk(alloc, file, wanted, &context.params, work) {
        Ok(deltas) => Ok(Part::Is(deltas)),
        Err(FileRefused::Rejected(rule)) => Ok(Part::Rejected(Rule::Chunk(rule))),
        Err(FileRefused::WantOfMemory) => Err(WantOfMemory),
    }
}
