ghost use Rattle.std.specs.Prelude.{◌≡◌, ◌≤◌, false, length, min, take, IfOk, drop};
ghost use Rattle.std.specs.Result.{result_ok};
ghost use Rattle.st_batch.specs.Batch.{anchor_text, are_files_small, batch_count, batch_of};
ghost use Rattle.st_batch.specs.Laws.{BatchIsReadBack, NeverShorter, TakesAThousand, TakesTheFirst, ThousandFit};
ghost use Rattle.st_batch.specs.Flushed.{IsFlushed};
ghost use Rattle.st_batch.specs.Groups.{grouped};
ghost use Rattle.st_batch.specs.Queue.{operations_of, IsStoredQueue};
ghost use Rattle.st_batch.specs.inside.Groups.{plain_groups, batch_where_small};

use crate::files::{
    TooLong, append, chunk_file, core_file, core_proof_file, filed_under, provisional_file,
    provisional_proof_file,
};
use crate::groups::{Groups, groups_of};
use crate::queue::QueuedOperations;
use st_base::{Bytes, Copied, List, Text, WantOfMemory};
use st_datafiles::Role;
use st_hash::{Hash, hash_text, uri_of};
use st_params::Params;
use std::alloc::Global;

/// A file of a batch: its role in the entry that names it, its URI, and its bytes.
#[derive(Debug, Drop)]
pub struct BatchFile {
    pub role: Role,
    pub uri: Hash,
    pub bytes: Bytes,
}

impl Copied for BatchFile {
    fn copy(&self, alloc: Global) -> Result<BatchFile, WantOfMemory> {
        Ok(BatchFile {
            role: self.role,
            uri: self.uri,
            bytes: self.bytes.copy(alloc)?,
        })
    }
}

/// A batch: an anchor string, and its files, in the order of their roles. The first is the core
/// index file.
#[derive(Debug, Drop)]
pub struct Batch {
    pub anchor: Text,
    pub files: List<BatchFile>,
}

impl Copied for Batch {
    fn copy(&self, alloc: Global) -> Result<Batch, WantOfMemory> {
        Ok(Batch {
            anchor: self.anchor.copy(alloc)?,
            files: self.files.copy(alloc)?,
        })
    }
}

/// How many of the queued operations the next batch takes, and that batch. It is written with as
/// many as a batch may declare; the number is searched by halving only if a file is then too long.
pub(crate) fn longest_batch(
    alloc: Global,
    queued: &QueuedOperations,
    params: &Params,
) -> Result<(usize, Batch), WantOfMemory>
    requires { 1 ≤ batch_count params.now (operations_of queued.now.entries) }
    ensures count { IfOk result (λ done. done.0 ≡ batch_count params.now (operations_of queued.now.entries)) }
    ensures batch { IfOk result (λ done. done.1 ≡ batch_of params.now (operations_of queued.now.entries)) }
{
    let most = queued.len().min(params.max_operations() as usize);
    match written(alloc, queued, most, params)? {
        Ok(batch) => Ok((most, batch)),
        Err(long) => halved(alloc, queued, most, share(most, &long), params),
    }
}

// About how many go, if a file of `count` is too long.
fn share(count: usize, too_long: &TooLong) -> usize {
    count.saturating_mul(too_long.most) / too_long.long.max(1)
}

// The same, if a file of the first operations, as many as a batch may declare, is too long. The
// first number tried is a guess.
fn halved(
    alloc: Global,
    queued: &QueuedOperations,
    most: usize,
    guess: usize,
    params: &Params,
) -> Result<(usize, Batch), WantOfMemory>
    requires some { 1 ≤ batch_count params.now (operations_of queued.now.entries) }
    requires most { most ≡ min (length queued.now.entries) params.now.max_operations }
    requires long { are_files_small params.now (take most (operations_of queued.now.entries)) ≡ false }
    ensures count { IfOk result (λ done. done.0 ≡ batch_count params.now (operations_of queued.now.entries)) }
    ensures batch { IfOk result (λ done. done.1 ≡ batch_of params.now (operations_of queued.now.entries)) }
{
    let mut goes: usize = 0;
    let mut stops = most;
    let mut middle = guess;
    'halving: while goes + 1 < stops {
        let count = middle.max(goes + 1).min(stops - 1);
        match written(alloc, queued, count, params)? {
            Ok(_batch) => goes = count,
            Err(_long) => stops = count,
        }
        middle = goes / 2 + stops / 2;
    }
    match written(alloc, queued, goes, params)? {
        Ok(batch) => Ok((goes, batch)),
        Err(_) => unreachable!(),
    }
}

// The batch of the first operations, or that a file of it is too long.
fn written(
    alloc: Global,
    queued: &QueuedOperations,
    count: usize,
    params: &Params,
) -> Result<Result<Batch, TooLong>, WantOfMemory>
    ensures { IfOk result (λ batch. result_ok batch ≡ batch_where_small params.now count
        (grouped (take count (operations_of queued.now.entries)))) }
{
    let groups = groups_of(alloc, queued, count)?;
    write_batch(alloc, count, &groups, params)
}

/// The batch of `count` operations by kind, or that a file is too long. That file is not hashed,
/// and no more files are written.
pub(crate) fn write_batch(
    alloc: Global,
    count: usize,
    groups: &Groups,
    params: &Params,
) -> Result<Result<Batch, TooLong>, WantOfMemory>
    ensures { IfOk result (λ batch. result_ok batch
        ≡ batch_where_small params.now count (plain_groups groups.now)) }
{
    let chunk = match chunk_file(alloc, groups, params)? {
        Ok(files) => files,
        Err(long) => return Ok(Err(long)),
    };
    let provisional_proof = match provisional_proof_file(alloc, groups, params)? {
        Ok(files) => files,
        Err(long) => return Ok(Err(long)),
    };
    let core_proof = match core_proof_file(alloc, groups, params)? {
        Ok(files) => files,
        Err(long) => return Ok(Err(long)),
    };
    let provisional = match provisional_file(alloc, groups, &provisional_proof, &chunk, params)? {
        Ok(files) => files,
        Err(long) => return Ok(Err(long)),
    };
    let core = core_file(alloc, groups, &core_proof, &provisional)?;
    let long = core.as_slice().len();
    let most = params.max_index();
    if long > most {
        return Ok(Err(TooLong { long, most }));
    }
    let uri = uri_of(core.as_slice());
    let anchor = anchor_text(alloc, count, &uri)?;
    let mut files = filed_under(alloc, Role::Core, uri, core)?;
    append(alloc, &mut files, core_proof)?;
    append(alloc, &mut files, provisional)?;
    append(alloc, &mut files, provisional_proof)?;
    append(alloc, &mut files, chunk)?;
    Ok(Ok(Batch { anchor, files }))
}

// The anchor string of `count` operations with this core index file.
fn anchor_text(alloc: Global, count: usize, core: &Hash) -> Result<Text, WantOfMemory>
    ensures { IfOk result (λ text. text ≡ anchor_text count core.now) }
{
    let core = hash_text(alloc, core)?;
    let core = core.as_str();
    let text = format!(in alloc; "{count}.{core}")?;
    Ok(Text::from_string(text))
}

/// The operations that stay queued, and the batch of those taken.
pub(crate) fn flush(
    alloc: Global,
    queued: QueuedOperations,
    params: &Params,
) -> Result<(QueuedOperations, Batch), WantOfMemory>
    requires kept { IsStoredQueue queued.entries }
    requires some { 1 ≤ length queued.entries }
    ensures flushed { IfOk result (λ done. IsFlushed params.now (operations_of queued.entries)
        (operations_of done.0.entries) done.1) }
    ensures kept { IfOk result (λ done. IsStoredQueue done.0.entries) }
{
    // For proofs: the limits are those of their version, and no suffix appears twice.
    let _version = params.version();
    let _length = queued.len();
    let (count, batch) = longest_batch(alloc, &queued, params)?;
    let rest = behind(queued, count)?;
    Ok((rest, batch))
}

// The entries after the first `count`.
fn behind(entries: QueuedOperations, count: usize) -> Result<QueuedOperations, WantOfMemory>
    requires { count ≤ length entries.entries }
    ensures { IfOk result (λ rest. rest.entries ≡ drop count entries.entries) }
{
    let mut first = entries;
    Ok(first.split_off(count)?)
}

/// Laws of batches. If different operations go into one batch, it is read back as these, wherever
/// its files are known. At the limits of each version a batch takes the first operation of a queue,
/// if that fits the limits of some version. Up to 1,000 such operations never make a file too long,
/// so in version 1 a batch takes the first 1,000 of a queue of them, or all if there are fewer. A
/// longer prefix of a queue never has a shorter file.
pub fn batch_laws()
    ensures read_back { BatchIsReadBack }
    ensures takes_the_first { TakesTheFirst }
    ensures thousand_fit { ThousandFit }
    ensures takes_a_thousand { TakesAThousand }
    ensures never_shorter { NeverShorter }
{}
