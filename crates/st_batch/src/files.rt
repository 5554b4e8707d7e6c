ghost use Rattle.std.specs.List.{filter_map};
ghost use Rattle.std.specs.Prelude.{◌≡◌, ◌++◌, Some, slice_get, option_map, IfOk, OnOk, length, nat_lt};
ghost use Rattle.std.specs.Result.{result_ok};
ghost use Rattle.st_hash.specs.Hash.{uri_of};
ghost use Rattle.st_datafiles.specs.declared.role.Role.TheVariants.{Chunk, CoreProof, ProvisionalProof, Provisional};
ghost use Rattle.st_ops.specs.Request.{delta_there};
ghost use Rattle.st_batch.specs.Batch.{filed, chunk_file, core_proof_file, provisional_proof_file, core_file, provisional_file, most_bytes};
ghost use Rattle.st_batch.specs.Groups.{signed_text_in, with_core_proof, with_delta, suffix_data_in, target_in};
ghost use Rattle.st_batch.specs.inside.Groups.{plain_groups, where_small};

use crate::batch::BatchFile;
use crate::groups::{Groups, parts_of, push_parts};
use st_base::{Bytes, KeptText, List, WantOfMemory};
use st_canon::PackedJson;
use st_datafiles::{CoreProofs, Role, write_chunk, write_core_proof, write_provisional_proof};
use st_hash::{Hash, uri_of};
use st_indexfiles::{CoreIndex, ProvisionalIndex, write_core, write_provisional};
use st_params::Params;
use std::alloc::Global;

/// A file is too long: its size, and the largest size, in bytes.
#[derive(Clone, Copy, Debug)]
pub(crate) struct TooLong {
    pub long: usize,
    pub most: usize,
}

/// Files, or that one is too long.
pub(crate) type Fitting = Result<List<BatchFile>, TooLong>;

/// A list of only this file, with its URI. A file that is too long is not hashed.
pub(crate) fn filed(
    alloc: Global,
    role: Role,
    bytes: Bytes,
    params: &Params,
) -> Result<Fitting, WantOfMemory>
    ensures { IfOk result (λ files. result_ok files ≡ where_small params.now (filed role (Some bytes))) }
{
    let long = bytes.as_slice().len();
    let most = most_bytes(role, params);
    if long > most {
        return Ok(Err(TooLong { long, most }));
    }
    let uri = uri_of(bytes.as_slice());
    let files = filed_under(alloc, role, uri, bytes)?;
    Ok(Ok(files))
}

/// The largest size of a file of this role, in bytes.
pub(crate) fn most_bytes(role: Role, params: &Params) -> usize
    ensures { result ≡ most_bytes params.now role }
{
    match role {
        Role::Core => params.max_index(),
        Role::CoreProof => params.max_proofs(),
        Role::Provisional => params.max_index(),
        Role::ProvisionalProof => params.max_proofs(),
        Role::Chunk => params.max_chunk(),
    }
}

/// A list of only this file, whose URI is known. Its spare room is given back.
pub(crate) fn filed_under(
    alloc: Global,
    role: Role,
    uri: Hash,
    bytes: Bytes,
) -> Result<List<BatchFile>, WantOfMemory>
    requires { uri ≡ uri_of bytes }
    ensures { IfOk result (λ files. files ≡ filed role (Some bytes)) }
{
    let bytes = Bytes::from_slice(alloc, bytes.as_slice())?;
    let mut files = List::new(alloc);
    files.push(alloc, BatchFile { role, uri, bytes })?;
    Ok(files)
}

/// The URI of the first file, if there is one.
pub(crate) fn first_uri(files: &List<BatchFile>) -> Option<Hash>
    ensures { result ≡ option_map (λ file. file.uri) (slice_get files.now 0) }
{
    match files.get(0) {
        Some(file) => Some(file.uri),
        None => None,
    }
}

/// Appends more files.
pub(crate) fn append(
    alloc: Global,
    files: &mut List<BatchFile>,
    more: List<BatchFile>,
) -> Result<(), WantOfMemory>
    ensures { OnOk result (files.new ≡ files.old ++ more) }
{
    'more: for file in more.into_vec() {
        files.push(alloc, file)?;
    }
    Ok(())
}

/// The core proof file, if there is a recover or a deactivate.
pub(crate) fn core_proof_file(
    alloc: Global,
    groups: &Groups,
    params: &Params,
) -> Result<Fitting, WantOfMemory>
    ensures { IfOk result (λ files. result_ok files
        ≡ where_small params.now (filed CoreProof (core_proof_file (plain_groups groups.now)))) }
{
    if !has_core_proof(groups) {
        return Ok(Ok(List::new(alloc)));
    }
    let proofs = core_proofs(alloc, groups)?;
    let bytes = write_core_proof(alloc, &proofs)?;
    Ok(filed(alloc, Role::CoreProof, bytes, params)?)
}

// Whether there is a recover or a deactivate.
fn has_core_proof(groups: &Groups) -> bool
    ensures { result ≡ nat_lt 0 (length (with_core_proof (plain_groups groups.now))) }
{
    if groups.recovers.len() > 0 {
        return true;
    }
    groups.deactivates.len() > 0
}

fn core_proofs(alloc: Global, groups: &Groups) -> Result<CoreProofs, WantOfMemory>
    ensures { IfOk result (λ proofs. proofs ≡ record {
      recovers = filter_map signed_text_in (plain_groups groups.now).recovers;
      deactivates = filter_map signed_text_in (plain_groups groups.now).deactivates;
    }) }
{
    let recovers = parts_of(alloc, groups.recovers.as_slice())?;
    let deactivates = parts_of(alloc, groups.deactivates.as_slice())?;
    Ok(CoreProofs {
        recovers,
        deactivates,
    })
}

/// The provisional proof file, if there is an update.
pub(crate) fn provisional_proof_file(
    alloc: Global,
    groups: &Groups,
    params: &Params,
) -> Result<Fitting, WantOfMemory>
    ensures { IfOk result (λ files. result_ok files ≡ where_small params.now
        (filed ProvisionalProof (provisional_proof_file (plain_groups groups.now)))) }
{
    if groups.updates.len() == 0 {
        return Ok(Ok(List::new(alloc)));
    }
    let proofs: List<KeptText> = parts_of(alloc, groups.updates.as_slice())?;
    let bytes = write_provisional_proof(alloc, proofs.as_slice())?;
    Ok(filed(alloc, Role::ProvisionalProof, bytes, params)?)
}

/// The chunk file, if there is a create, a recover or an update.
pub(crate) fn chunk_file(
    alloc: Global,
    groups: &Groups,
    params: &Params,
) -> Result<Fitting, WantOfMemory>
    ensures { IfOk result (λ files. result_ok files
        ≡ where_small params.now (filed Chunk (chunk_file (plain_groups groups.now)))) }
{
    if !has_chunk(groups) {
        return Ok(Ok(List::new(alloc)));
    }
    let deltas = deltas(alloc, groups)?;
    let bytes = write_chunk(alloc, deltas.as_slice())?;
    Ok(filed(alloc, Role::Chunk, bytes, params)?)
}

// Whether there is an operation with a delta.
fn has_chunk(groups: &Groups) -> bool
    ensures { result ≡ nat_lt 0 (length (with_delta (plain_groups groups.now))) }
{
    if groups.creates.len() > 0 {
        return true;
    }
    if groups.recovers.len() > 0 {
        return true;
    }
    groups.updates.len() > 0
}

fn deltas(alloc: Global, groups: &Groups) -> Result<List<PackedJson>, WantOfMemory>
    ensures { IfOk result (λ deltas. deltas ≡ filter_map delta_there (with_delta (plain_groups groups.now))) }
{
    let mut deltas = List::new(alloc);
    push_parts(alloc, &mut deltas, groups.creates.as_slice())?;
    push_parts(alloc, &mut deltas, groups.recovers.as_slice())?;
    push_parts(alloc, &mut deltas, groups.updates.as_slice())?;
    Ok(deltas)
}

/// The provisional index file, if there is a create, a recover or an update: it names the two files
/// below it.
pub(crate) fn provisional_file(
    alloc: Global,
    groups: &Groups,
    proof: &List<BatchFile>,
    chunk: &List<BatchFile>,
    params: &Params,
) -> Result<Fitting, WantOfMemory>
    requires proof { proof.now ≡ filed ProvisionalProof (provisional_proof_file (plain_groups groups.now)) }
    requires chunk { chunk.now ≡ filed Chunk (chunk_file (plain_groups groups.now)) }
    ensures { IfOk result (λ files. result_ok files
        ≡ where_small params.now (filed Provisional (provisional_file (plain_groups groups.now)))) }
{
    let Some(chunk) = first_uri(chunk) else {
        return Ok(Ok(List::new(alloc)));
    };
    let index = provisional_index(alloc, groups, first_uri(proof), chunk)?;
    let bytes = write_provisional(alloc, &index)?;
    Ok(filed(alloc, Role::Provisional, bytes, params)?)
}

fn provisional_index(
    alloc: Global,
    groups: &Groups,
    proof: Option<Hash>,
    chunk: Hash,
) -> Result<ProvisionalIndex, WantOfMemory>
    ensures { IfOk result (λ index. index ≡ record {
      proof = proof;
      chunk = chunk;
      updates = filter_map target_in (plain_groups groups.now).updates;
    }) }
{
    let updates = parts_of(alloc, groups.updates.as_slice())?;
    Ok(ProvisionalIndex {
        proof,
        chunk,
        updates,
    })
}

/// The core index file, which names the two files below it.
pub(crate) fn core_file(
    alloc: Global,
    groups: &Groups,
    core_proof: &List<BatchFile>,
    provisional: &List<BatchFile>,
) -> Result<Bytes, WantOfMemory>
    requires core_proof { core_proof.now ≡ filed CoreProof (core_proof_file (plain_groups groups.now)) }
    requires provisional { provisional.now ≡ filed Provisional (provisional_file (plain_groups groups.now)) }
    ensures { IfOk result (λ bytes. bytes ≡ core_file (plain_groups groups.now)) }
{
    let index = core_index(alloc, groups, first_uri(core_proof), first_uri(provisional))?;
    Ok(write_core(alloc, &index)?)
}

fn core_index(
    alloc: Global,
    groups: &Groups,
    core_proof: Option<Hash>,
    provisional: Option<Hash>,
) -> Result<CoreIndex, WantOfMemory>
    ensures { IfOk result (λ index. index ≡ record {
      core_proof = core_proof;
      provisional = provisional;
      creates = filter_map suffix_data_in (plain_groups groups.now).creates;
      recovers = filter_map target_in (plain_groups groups.now).recovers;
      deactivates = filter_map target_in (plain_groups groups.now).deactivates;
    }) }
{
    let creates = parts_of(alloc, groups.creates.as_slice())?;
    let recovers = parts_of(alloc, groups.recovers.as_slice())?;
    let deactivates = parts_of(alloc, groups.deactivates.as_slice())?;
    Ok(CoreIndex {
        core_proof,
        provisional,
        creates,
        recovers,
        deactivates,
    })
}
