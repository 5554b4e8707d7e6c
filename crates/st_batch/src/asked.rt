ghost use Rattle.std.specs.Prelude.{◌≡◌, true, IfOk, IfSome, OnOk};
ghost use Rattle.st_base.specs.Answers.{Gives, GivesAs, holds_or};
ghost use Rattle.st_base.specs.Work.{ProofsAtMost};
ghost use Rattle.st_plain.specs.Plain.{IsProper};
ghost use Rattle.st_params.specs.ParamsValue.{params_of};
ghost use Rattle.st_ops.specs.Operation.{plain_operation};
ghost use Rattle.st_ops.specs.Request.{request_of, delta_there};
ghost use Rattle.st_batch.specs.Queue.{delta_counts, has_right_delta, Fits, IsFormed, asked_rightly, refusal_of};
ghost use Rattle.st_batch.specs.Laws.{CountsAsking};
ghost use Rattle.st_batch.specs.declared.queue.SubmitRefused.TheVariants.{BadDelta};

use crate::groups::know_operation;
use crate::queue::SubmitRefused;
use st_apply::counts_for;
use st_base::{WantOfMemory, Work};
use st_ops::{Claim, Operation, claim_of, read_request};
use st_params::Params;
use std::alloc::Global;

/// Whether the delta of an operation is one at these limits and has its delta hash, if its kind has
/// a delta.
#[tactic(auto, unfolding(crate::specs::Queue::has_right_delta))]
pub(crate) fn has_right_delta(
    alloc: Global,
    operation: &Operation,
    params: &Params,
) -> Result<bool, WantOfMemory>
    ensures value { IfOk result (λ is. is ≡ has_right_delta params.now (plain_operation operation.now)) }
    ensures proper { IfOk result (λ is. is ≡ true → IfSome (delta_there (plain_operation operation.now)) IsProper) }
{
    let claim = claim_of(alloc, operation, params)?;
    delta_counts(alloc, operation, &claim, params)
}

fn delta_counts(
    alloc: Global,
    operation: &Operation,
    claim: &Option<Claim>,
    params: &Params,
) -> Result<bool, WantOfMemory>
    ensures value { IfOk result (λ counts. counts
        ≡ delta_counts params.now (plain_operation operation.now) claim.now) }
    ensures proper { IfOk result (λ counts. counts ≡ true
        → IfSome (delta_there (plain_operation operation.now)) IsProper) }
{
    match (operation, claim) {
        (Operation::Create { suffix_data, delta }, _) => {
            counts_for(alloc, params, &suffix_data.delta_hash, delta)
        }
        (Operation::Update { delta, .. }, Some(Claim::Update { delta_hash })) => {
            counts_for(alloc, params, delta_hash, delta)
        }
        (Operation::Recover { delta, .. }, Some(Claim::Recover { delta_hash, .. })) => {
            counts_for(alloc, params, delta_hash, delta)
        }
        (Operation::Deactivate { .. }, _) => Ok(true),
        _ => Ok(false),
    }
}

/// The operation of a request at these limits, if its delta is right. Opening its signed text
/// counts as one proof.
pub(crate) fn ask(
    alloc: Global,
    bytes: &[u8],
    params: &Params,
    work: &mut Work,
) -> Result<Operation, SubmitRefused>
    ensures value { GivesAs plain_operation refusal_of (asked_rightly params.now bytes.now) result }
    ensures fits { IfOk result (λ operation. Fits params.now (plain_operation operation)) }
    ensures formed { IfOk result (λ operation. IsFormed (plain_operation operation)) }
    ensures versioned { OnOk result (params.now ≡ params_of params.now.version) }
    ensures counted { ProofsAtMost 1 work.old work.new }
    ensures exact { CountsAsking (request_of params.now bytes.now) result work.old work.new }
{
    // For proofs: the limits are those of their version.
    let _version = params.version();
    let operation = read_request(alloc, bytes, params, work)?;
    want_right_delta(alloc, &operation, params)?;
    know_operation(&operation);
    Ok(operation)
}

fn want_right_delta(
    alloc: Global,
    operation: &Operation,
    params: &Params,
) -> Result<(), SubmitRefused>
    ensures value { Gives refusal_of (holds_or
        (has_right_delta params.now (plain_operation operation.now)) BadDelta) result }
    ensures right { OnOk result (has_right_delta params.now (plain_operation operation.now) ≡ true) }
    ensures proper { OnOk result (IfSome (delta_there (plain_operation operation.now)) IsProper) }
{
    if has_right_delta(alloc, operation, params)? {
        Ok(())
    } else {
        Err(SubmitRefused::BadDelta)
    }
}
