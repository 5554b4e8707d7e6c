ghost use Rattle.std.specs.Prelude.{◌≡◌, ◌++◌, ◌∷◌, [], None, IfOk, OnErr, OnOk, ◌≤◌, length, IfErr};
ghost use Rattle.indexmap.specs.IndexMap.{get};
ghost use Rattle.st_base.specs.Answers.{Gives, GivesAs};
ghost use Rattle.st_base.specs.Work.{ProofsAtMost};
ghost use Rattle.st_hash.specs.Hash.{same_hash};
ghost use Rattle.st_ops.specs.Operation.{plain_operation};
ghost use Rattle.st_ops.specs.Request.{request_of};
ghost use Rattle.st_batch.specs.Flushed.{IsFlushed, RefusesToFlush};
ghost use Rattle.st_batch.specs.Queue.{IsStoredQueue, IsQueued, operations_of, AreDifferent, most_queued, queued_with, refusal_of, queueable_suffix, AddsFitting, submitted};
ghost use Rattle.st_batch.specs.Laws.{CountsAsking};

use crate::asked::ask;
use crate::batch::{Batch, flush};
use indexmap::IndexMap;
use st_base::{WantOfMemory, Work};
use st_hash::Hash;
use st_ops::{Operation, RequestRefused, suffix};
use st_params::Params;
use std::alloc::Global;
use std::marker::Model;
use thiserror::Error;

/// Why a request is not queued: the first of these that holds, in this order.
#[derive(Clone, Copy, Debug, Drop, PartialEq, Eq, Error)]
pub enum SubmitRefused {
    /// The bytes are not JSON.
    #[error("not JSON")]
    NotJson,
    /// A number in them is not whole.
    #[error("a number is not whole")]
    NotWhole,
    /// They are not an object with exactly the members of the kind named by `type`, each a text or
    /// an object as required.
    #[error("not the form of a request")]
    BadForm,
    /// A text that must be a hash text of the version is none.
    #[error("not a hash text")]
    BadHash,
    /// The signed text does not open, or the operation has no claim.
    #[error("not a proof of the operation")]
    BadProof,
    /// The operation has a delta that is not one at these limits, or whose hash, by the algorithm
    /// of the delta hash of the suffix data or of the claim, is not that delta hash.
    #[error("not the delta of the operation")]
    BadDelta,
    /// An operation for the same suffix is queued.
    #[error("an operation for this suffix is queued")]
    AlreadyQueued,
    /// The queue has the largest number of operations.
    #[error("the queue is full")]
    QueueFull,
    /// Out of memory.
    #[error("out of memory")]
    WantOfMemory,
}

impl From<WantOfMemory> for SubmitRefused {
    ghost use Rattle.std.specs.Prelude.{◌≡◌};
    ghost use Rattle.st_batch.specs.declared.queue.SubmitRefused.TheVariants.{WantOfMemory};

    ghost from_gives = { λ _ refused. refused ≡ WantOfMemory };

    fn from(_want: WantOfMemory) -> SubmitRefused {
        SubmitRefused::WantOfMemory
    }
}

impl From<RequestRefused> for SubmitRefused {
    ghost use Rattle.std.specs.Prelude.{◌≡◌};
    ghost use Rattle.st_batch.specs.Queue.{unasked};

    ghost from_gives = { λ refused submit. submit ≡ unasked refused };

    fn from(refused: RequestRefused) -> SubmitRefused {
        match refused {
            RequestRefused::NotJson => SubmitRefused::NotJson,
            RequestRefused::NotWhole => SubmitRefused::NotWhole,
            RequestRefused::BadForm => SubmitRefused::BadForm,
            RequestRefused::BadHash => SubmitRefused::BadHash,
            RequestRefused::BadProof => SubmitRefused::BadProof,
            RequestRefused::WantOfMemory => SubmitRefused::WantOfMemory,
        }
    }
}

/// Why a queue gives no batch.
#[derive(Drop)]
pub enum FlushRefused {
    /// No operation is queued. The queue is returned.
    Nothing(Queue),
    /// Out of memory; the queue is lost.
    WantOfMemory,
}

impl From<WantOfMemory> for FlushRefused {
    ghost use Rattle.std.specs.Prelude.{◌≡◌};
    ghost use Rattle.st_batch.specs.declared.queue.FlushRefused.TheVariants.{WantOfMemory};

    ghost from_gives = { λ _ refused. refused ≡ WantOfMemory };

    fn from(_want: WantOfMemory) -> FlushRefused {
        FlushRefused::WantOfMemory
    }
}

/// The largest number of queued operations.
pub const MOST_QUEUED: usize = 10_000;

/// Operations by their suffixes, in the order in which they were queued.
pub(crate) type QueuedOperations = IndexMap<Hash, Operation>;

/// Queues an operation, if allowed, and returns its suffix.
pub(crate) fn put(
    queued: &mut QueuedOperations,
    alloc: Global,
    operation: Operation,
) -> Result<Hash, SubmitRefused>
    requires kept { IsStoredQueue queued.old.entries }
    requires operation { IsQueued (plain_operation operation) }
    ensures value { GivesAs (λ suffix. (operations_of queued.new.entries, suffix)) refusal_of
        (queued_with (operations_of queued.old.entries) (plain_operation operation)) result }
    ensures kept { IsStoredQueue queued.new.entries }
    ensures err { OnErr result (queued.new.entries ≡ queued.old.entries) }
{
    let suffix = queueable_suffix(queued, alloc, &operation)?;
    put_last(queued, suffix, operation)?;
    Ok(suffix)
}

// The suffix of an operation that may be queued.
fn queueable_suffix(
    queued: &QueuedOperations,
    alloc: Global,
    operation: &Operation,
) -> Result<Hash, SubmitRefused>
    requires { IsStoredQueue queued.now.entries }
    ensures value { Gives refusal_of (queueable_suffix (operations_of queued.now.entries)
        (plain_operation operation.now)) result }
    ensures new { IfOk result (λ suffix. get same_hash queued.now suffix ≡ None) }
{
    let suffix = suffix(alloc, operation)?;
    if queued.contains_key(&suffix) {
        return Err(SubmitRefused::AlreadyQueued);
    }
    if queued.len() >= MOST_QUEUED {
        return Err(SubmitRefused::QueueFull);
    }
    Ok(suffix)
}

// Puts an operation last, with a suffix that is not there.
fn put_last(
    queued: &mut QueuedOperations,
    suffix: Hash,
    operation: Operation,
) -> Result<(), WantOfMemory>
    requires { get same_hash queued.old suffix ≡ None }
    ensures ok { OnOk result (queued.new.entries ≡ queued.old.entries ++ (suffix, operation) ∷ []) }
    ensures err { OnErr result (queued.new.entries ≡ queued.old.entries) }
{
    queued.insert(suffix, operation)?;
    Ok(())
}

/// Operations that wait for a batch, at most `MOST_QUEUED`, at most one for each suffix. Contracts
/// see the list of them, in the order in which they were queued.
#[derive(Drop)]
pub struct Queue {
    // By their suffixes.
    queued: QueuedOperations,
}

impl Model for Queue {
    ghost use Rattle.std.specs.Prelude.{List};
    ghost use Rattle.st_batch.specs.Queue.{coded_operations, IsStoredQueue, operations_of};
    ghost use Rattle.st_ops.specs.Operation.{PlainOperation};

    ghost Value = { List PlainOperation };

    ghost coded = { coded_operations };

    ghost view = { λ queue. operations_of queue.queued.entries };

    ghost invariant = { λ queue. IsStoredQueue queue.queued.entries };
}

impl Queue {
    /// No operations. It allocates nothing.
    pub fn new(alloc: Global) -> Queue
        ensures { result ≡ [] }
    {
        Queue {
            queued: QueuedOperations::new(alloc),
        }
    }

    /// The number of queued operations.
    pub fn len(&self) -> usize
        ensures value { result ≡ length self.now }
        ensures few { result ≤ most_queued }
        ensures different { AreDifferent self.now }
    {
        self.queued.len()
    }

    /// Queues the operation of a request at these limits, and returns its suffix. Opening its
    /// signed text counts as one proof.
    ///
    /// A refusal other than `WantOfMemory` is returned if and only if it is the first, in the order
    /// of `SubmitRefused`, that holds. A refusal leaves the queue unchanged.
    pub fn submit(
        &mut self,
        alloc: Global,
        bytes: &[u8],
        params: &Params,
        work: &mut Work,
    ) -> Result<Hash, SubmitRefused>
        ensures value { GivesAs (λ suffix. (self.new, suffix)) refusal_of
            (submitted params.now self.old bytes.now) result }
        ensures err { OnErr result (self.new ≡ self.old) }
        // The operation that was added fits these limits.
        ensures fits { OnOk result (AddsFitting params.now self.old self.new) }
        ensures counted { ProofsAtMost 1 work.old work.new }
        // It is counted if and only if the signed text was opened.
        ensures exact { CountsAsking (request_of params.now bytes.now) result work.old work.new }
    {
        let operation = ask(alloc, bytes, params, work)?;
        put(&mut self.queued, alloc, operation)
    }

    /// Makes a batch of the first operations, as many as go into one at these limits: at most as
    /// many as a batch may declare, and no file longer than allowed. In version 1 these are the
    /// first 1,000, or all if there are fewer. Returns the operations that stay queued, in order,
    /// and the batch. No file is read and nothing is counted.
    ///
    /// Wherever the files of the batch are known, an entry with its anchor string, at a height with
    /// these limits, gives exactly the operations taken, if each of them fits these limits.
    ///
    /// The result is `Nothing` if and only if no operation is queued; a queue that is not empty
    /// gives a batch of at least one.
    pub fn flush(self, alloc: Global, params: &Params) -> Result<(Queue, Batch), FlushRefused>
        ensures flushed { IfOk result (λ done. IsFlushed params.now self done.0 done.1) }
        ensures refused { IfErr result (RefusesToFlush self) }
    {
        if self.queued.is_empty() {
            return Err(FlushRefused::Nothing(self));
        }
        let Queue { queued } = self;
        let (rest, batch) = flush(alloc, queued, params)?;
        Ok((Queue { queued: rest }, batch))
    }
}
